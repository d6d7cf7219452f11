//! The reasons against a fact by itself.

ghost use Rattle.std.specs.Prelude.{◌≡◌};
ghost use Rattle.tcl_kernel.specs.Entry as entries;

use crate::reason::Reason;
use tcl_goals::{Fact, Lemmas, are_ordered, are_uses, has_claim, has_hyps, is_cube};
use tcl_lang::Ssa;

/// The first part of the order of facts that the fact does not keep.
#[tactic(auto, unfolding(crate::specs::Entry::entry_reason))]
pub(crate) fn entry_reason(ssa: &Ssa, lemmas: &Lemmas, fact: &Fact) -> Option<Reason>
    ensures { result ≡ entries.entry_reason ssa.now lemmas.now.items fact.now }
{
    if !has_claim(ssa, &fact.claim) {
        return Some(Reason::Claim);
    }
    if !has_hyps(ssa, lemmas, &fact.hyps) {
        return Some(Reason::Hyp);
    }
    if !are_ordered(ssa, lemmas, &fact.claim, &fact.hyps) {
        return Some(Reason::Order);
    }
    if !are_uses(ssa, &fact.claim, &fact.uses) {
        return Some(Reason::Uses);
    }
    if !is_cube(ssa, &fact.claim, &fact.cube) {
        return Some(Reason::Cube);
    }
    None
}
