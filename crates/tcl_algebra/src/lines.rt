//! What the lines of a form state, and what typing says of it.

ghost use Rattle.std.specs.Prelude.{◌≡◌, IfSome, option_copied, slice_get};
ghost use Rattle.tcl_algebra.specs.Equations as equations;
ghost use Rattle.tcl_algebra.specs.Sound.{IsSoundPredicate, IsSoundInstruction};

use tcl_lang::{Instr, Pred, Ssa};

/// The predicate of the line of a place, where there is one. Its modulus is one, and its literals are words.
pub(crate) fn predicate_at<'a>(ssa: &'a Ssa, place: usize) -> Option<&'a Pred>
    ensures predicate { option_copied result ≡ equations.predicate_in (slice_get ssa.now.lines place) }
    ensures sound { IfSome result (λ pred. IsSoundPredicate pred.now) }
{
    match ssa.lines().as_slice().get(place) {
        Some(line) => line.predicate(),
        None => None,
    }
}

/// The instruction of the line of a place, where there is one. Its types are those of words, and its amount is small.
pub(crate) fn instruction_at<'a>(ssa: &'a Ssa, place: usize) -> Option<&'a Instr>
    ensures instruction { option_copied result ≡ equations.instruction_in (slice_get ssa.now.lines place) }
    ensures sound { IfSome result (λ instr. IsSoundInstruction ssa.now.variables instr.now) }
{
    match ssa.lines().as_slice().get(place) {
        Some(line) => line.instruction(),
        None => None,
    }
}
