//! Why no typed program came of a program.

use tcl_lang::Reason;
use thiserror::Error;

/// The refusal of a program. The program that was given is gone in both cases.
#[derive(Debug, Drop, Error)]
pub enum TypeFault {
    /// The line of this number in the text, from 1, is the first that is ill-typed, and this is its first reason.
    #[error("a line is ill-typed")]
    Ill(u64, Reason),
    /// Memory has run out.
    #[error("out of memory")]
    Memory,
}
