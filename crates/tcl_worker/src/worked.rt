//! What the work on the fact of a piece ends with.

use tcl_cnf::Bits;
use tcl_goals::Cause;
use tcl_kernel::Proof;
use tcl_lang::Input;

/// The end of the work on the fact of a piece.
#[derive(Drop)]
pub(crate) enum Worked {
    /// The kernel's proof of the fact.
    Proved(Proof),
    /// The kernel's proof of a lemma; the fact is to be worked on again.
    Lemma(Proof),
    /// The walk ends at an assignment that denies the fact; this input gives the lines its values, and 0 to all others.
    Fails(Input),
    /// These bits meet the clauses of the fact.
    Model(Bits),
    /// None of these; this is why.
    Open(Cause),
    /// The port answered that the piece is not wanted any more.
    Stopped,
}
