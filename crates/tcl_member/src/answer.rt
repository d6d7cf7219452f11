// The answers of the membership search.

use tcl_pivots::Note;
use tcl_poly::{Cofactors, Poly};
use tcl_ring::Ring;

/// How the membership search for a claim ends.
#[derive(Drop)]
pub enum Member<R: Ring> {
    /// The claim's polynomial is the sum of these cofactors times the equations.
    Cofactors(Cofactors<R>),
    /// As many products were tried as the budget allows.
    Spent(u32),
    /// All products were tried. This is what plain reduction leaves of the claim, with the first note, if any.
    Rest(Poly<R>, Option<Note>),
    /// The port answered that the search is not wanted any more.
    Stopped,
    /// Memory has run out.
    Memory,
}
