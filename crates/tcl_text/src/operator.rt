//! The binary operators of algebraic terms and of range predicates, which have one variant each in their trees.

/// An operator of algebraic terms.
#[derive(Clone, Copy, PartialEq, Eq)]
pub enum TermOp {
    Plus,
    Minus,
    Times,
}

/// An operator of range predicates.
#[derive(Clone, Copy, PartialEq, Eq)]
pub enum PredOp {
    And,
    Or,
}
