//! What searches over clauses end with.

use tcl_cnf::{Bits, LogLines};
use tcl_kernel::Proof;

/// The end of a search over clauses.
#[derive(Drop)]
pub(crate) enum SearchEnd {
    /// The lines of a log that derives the empty clause.
    Refutes(LogLines),
    /// These bits make every clause true.
    Model(Bits),
    /// As many clauses were derived as the budget allows.
    Spent,
    /// The port answered that the search is not wanted any more.
    Stopped,
}

/// The end of a search for a proof that cites lemmas, or for one of a lemma.
#[derive(Drop)]
pub(crate) enum LemmaEnd {
    /// The kernel's proof.
    Proved(Proof),
    /// There is none by such a search.
    Vain,
    /// The port answered that the piece is not wanted any more.
    Stopped,
}
