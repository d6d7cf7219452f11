//! What a check answers.

use crate::proof::Proof;
use crate::reason::Reason;

/// The answer of a check.
#[derive(Drop)]
pub enum Answer {
    /// It checks.
    Proof(Proof),
    /// It does not check, for this reason first.
    Bad(Reason),
    /// Memory has run out.
    Memory,
}
