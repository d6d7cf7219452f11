//! Whether the lines of a fact keep the static bounds.

ghost use Rattle.std.specs.Prelude.{◌≡◌, slice_get};
ghost use Rattle.std.specs.List.{list_all};
ghost use Rattle.tcl_lang.specs.Values.{types_of};
ghost use Rattle.tcl_enum.specs.NarrowFact as narrow;

use tcl_goals::{Claim, Fact, Hyp, goal_place};
use tcl_lang::Ssa;
use tcl_measure::is_narrow;

/// Whether no equation of the fact has a size bound from `2^126` on or a wide modulus.
pub(crate) fn is_narrow_fact(ssa: &Ssa, fact: &Fact) -> bool
    ensures { result ≡ narrow.is_narrow_fact ssa.now fact.now }
{
    is_narrow_claim(ssa, &fact.claim) && are_narrow(ssa, fact.hyps.as_slice())
}

/// The same of hypotheses.
fn are_narrow(ssa: &Ssa, hyps: &[Hyp]) -> bool
    ensures { result ≡ list_all (narrow.is_narrow_hyp ssa.now) hyps.now }
{
    hyps.iter().all(|hyp| is_narrow_hyp(ssa, hyp))
}

/// The same of a claim.
fn is_narrow_claim(ssa: &Ssa, claim: &Claim) -> bool
    ensures { result ≡ narrow.is_narrow_claim ssa.now claim.now }
{
    match claim {
        Claim::Goal(goal) => is_narrow_at(ssa, goal_place(ssa.lines().as_slice(), *goal)),
        Claim::Lemma(_) => true,
    }
}

/// The same of a hypothesis.
fn is_narrow_hyp(ssa: &Ssa, hyp: &Hyp) -> bool
    ensures { result ≡ narrow.is_narrow_hyp ssa.now hyp.now }
{
    match hyp {
        Hyp::Line(place) => is_narrow_at(ssa, *place as usize),
        Hyp::Lemma(_) => true,
    }
}

/// The same of the line at a place, if there is one.
fn is_narrow_at(ssa: &Ssa, place: usize) -> bool
    ensures { result ≡ narrow.is_narrow_in (types_of ssa.now.variables) (slice_get ssa.now.lines place) }
{
    match ssa.lines().as_slice().get(place) {
        Some(line) => is_narrow(ssa.variables().as_slice(), line),
        None => true,
    }
}
