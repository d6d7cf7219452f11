//! The results of an instruction.

/// The results of an instruction, from left to right.
#[derive(Clone, Copy, PartialEq, Eq)]
pub enum Results {
    One(i128),
    Two(i128, i128),
}
