//! The certificate by intervals.

ghost use Rattle.std.specs.Prelude.{◌≡◌, None, List, IfOk};
ghost use Rattle.tcl_goals.specs.declared.lemma.Numbered.{Numbered};
ghost use Rattle.tcl_goals.specs.Holds.{FactHolds};
ghost use Rattle.tcl_kernel.specs.BoundsCertificate as intervals;

use crate::reason::Reason;
use std::alloc::{AllocError, Global};
use tcl_bounds::{bounds, follows};
use tcl_goals::{Claim, Fact, is_algebraic_goal};
use tcl_lang::{Line, Ssa};

/// The reason against the certificate: the claim is algebraic, or does not follow from the intervals. The only error is
/// that memory has run out.
#[tactic(auto, unfolding(crate::specs::BoundsCertificate::bounds_reason))]
pub(crate) fn bounds_reason(
    alloc: Global,
    ssa: &Ssa,
    fact: &Fact,
) -> Result<Option<Reason>, AllocError>
    ensures reason { IfOk result (λ r. r ≡ intervals.bounds_reason ssa.now fact.now) }
    ensures holds { IfOk result (λ r. r ≡ None → (lemmas : List Numbered) → FactHolds ssa.now lemmas fact.now) }
{
    let lines = ssa.lines().as_slice();
    if is_algebraic_claim(lines, &fact.claim) {
        return Ok(Some(Reason::Bounds));
    }
    let bounds = bounds(alloc, ssa, fact)?;
    if follows(&bounds, ssa, &fact.claim) {
        Ok(None)
    } else {
        Ok(Some(Reason::Bounds))
    }
}

/// Whether the claim is an algebraic goal.
pub(crate) fn is_algebraic_claim(lines: &[Line], claim: &Claim) -> bool
    ensures { result ≡ intervals.is_algebraic_claim lines.now claim.now }
{
    match claim {
        Claim::Goal(goal) => is_algebraic_goal(lines, *goal),
        Claim::Lemma(_) => false,
    }
}
