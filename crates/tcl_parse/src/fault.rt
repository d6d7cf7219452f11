//! Why no program came of a text.

use tcl_text::Limit;
use thiserror::Error;

/// The refusal of a text.
#[derive(Debug, Drop, Error)]
pub enum ParseFault {
    /// The line of this number, from 1, is the first that is faulty: it has a byte or a token that is not allowed, or is no
    /// line of the grammar.
    #[error("a line is no line of the language")]
    Text(u64),
    /// The line of this number is the first that is faulty: it is out of its place, or `end` is missing there.
    #[error("a line is out of its place")]
    Shape(u64),
    /// The first limit that the text exceeds.
    #[error("a limit is exceeded")]
    Limit(Limit),
    /// Memory has run out, or the text has more than `2^32 - 2` lines.
    #[error("out of memory")]
    Memory,
}
