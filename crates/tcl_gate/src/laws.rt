//! Laws of boards.

ghost use Rattle.tcl_gate.specs.Taken.{FittingIsTaken};

use tcl_board::Evidence;

/// What fits the piece that a worker holds, by the board's lemmas for it, may be submitted, and is neither of a worker that
/// holds nothing, nor foreign, nor one lemma too many.
pub fn fitting_is_taken<E: Evidence>()
    ensures { FittingIsTaken E.causes }
{}
