// What is left of a claim, reduced by the kept rows.

ghost use Rattle.std.specs.Prelude.{◌≡◌, Bool, true, false, List, [], ◌∷◌, IfOk, OnOk};
ghost use Rattle.std.specs.List.{AllByRecursion};
ghost use Rattle.tcl_ring.specs.Reduction as r;
ghost use Rattle.tcl_poly.specs.Polynomial as p;
ghost use Rattle.tcl_reduce.specs.Row as rows;
ghost use Rattle.tcl_reduce.specs.Membership as s;
ghost use Rattle.tcl_pivots.specs.CofactorLists.{equations_of};
ghost use Rattle.tcl_pivots.specs.Kept.{IsPivot};
ghost use Rattle.tcl_pivots.specs.RowState.{row_shown, pivot_shown, IsSound};
ghost use Rattle.tcl_pivots.specs.TargetState.{target_shown};
ghost use Rattle.tcl_pivots.specs.Aim.{IsAimed, IsAimedAfter, IsSettled, target_after};
ghost use Rattle.tcl_pivots.specs.Held.{pivots_shown, rows_shown, AreSound, AreSorted, AreHeld};

use crate::lookup::seek;
use crate::row_reduction::leading_coefficient;
use crate::target_step::target_less;
use crate::{Note, Pivot, Rows, Target};
use std::alloc::{AllocError, Global};
use tcl_poly::{Poly, is_wide, norm_of_terms, terms};
use tcl_ring::Ring;

/// What a kept row makes of what is left of a claim.
#[derive(Drop)]
pub(crate) enum TargetStep<R: Ring> {
    /// It has not the row's leading monomial.
    Same,
    /// The step would be wide, and is not made.
    Wide,
    Next(Target<R>),
}

/// One kept row's step on what is left of the claim.
pub(crate) fn step_by_pivot<R: Ring>(
    alloc: Global,
    ring: &R,
    equations: &[Poly<R>],
    claim: &Poly<R>,
    f: &Target<R>,
    pivot: &Pivot<R>,
) -> Result<TargetStep<R>, AllocError>
    requires equations { AllByRecursion (p.IsPolynomial (r.reduced_by (R.modulus_of ring.now))) (equations_of (R.amount ring.now) equations.now) }
    requires claim { p.IsOver (R.modulus_of ring.now) (R.amount ring.now) claim.now }
    requires target { IsAimed (R.modulus_of ring.now) (equations_of (R.amount ring.now) equations.now) (p.terms_of (R.amount ring.now) claim.now) (target_shown (R.amount ring.now) false f.now) }
    requires pivot { IsSound (R.modulus_of ring.now) (equations_of (R.amount ring.now) equations.now) (row_shown (R.amount ring.now) pivot.now.row) }
    requires kept { IsPivot (r.reduced_by (R.modulus_of ring.now)) (pivot_shown (R.amount ring.now) pivot.now) }
    ensures further { IfOk result (λ o. (noted : Bool) (ps : List rows.Pivot) →
        s.target_by (R.modulus_of ring.now) (equations_of (R.amount ring.now) equations.now) (p.norm_of (p.terms_of (R.amount ring.now) claim.now)) (pivot_shown (R.amount ring.now) pivot.now ∷ ps) (target_shown (R.amount ring.now) noted f.now)
        ≡ s.target_by (R.modulus_of ring.now) (equations_of (R.amount ring.now) equations.now) (p.norm_of (p.terms_of (R.amount ring.now) claim.now)) ps (target_after (R.amount ring.now) noted f.now o)) }
    ensures aimed { IfOk result (λ o. IsAimedAfter (R.modulus_of ring.now) (equations_of (R.amount ring.now) equations.now) (p.terms_of (R.amount ring.now) claim.now) (R.amount ring.now) o) }
{
    match leading_coefficient(ring, &f.poly, &pivot.row.poly) {
        None => Ok(TargetStep::Same),
        Some(coefficient) => {
            if is_too_great(ring, claim) {
                return Ok(TargetStep::Wide);
            }
            match target_less(alloc, ring, equations, claim, f, &coefficient, pivot)? {
                Some(next) => Ok(TargetStep::Next(next)),
                None => Ok(TargetStep::Wide),
            }
        }
    }
}

/// Whether the claim's norm alone is too great, so that every step is wide.
fn is_too_great<R: Ring>(ring: &R, claim: &Poly<R>) -> bool
    ensures { result ≡ r.is_wide (R.modulus_of ring.now) (p.norm_of (p.terms_of (R.amount ring.now) claim.now)) }
{
    let norm = norm_of_terms(ring, terms(claim));
    is_wide(ring, norm)
}

/// What is left of the claim, reduced by kept rows from the greatest leading monomial down, and whether a step was wide; such a
/// step is not made. The places are those of the kept rows in that order; rows whose leading monomial does not occur are passed
/// by halves.
fn reduce_by_places<R: Ring>(
    alloc: Global,
    ring: &R,
    equations: &[Poly<R>],
    claim: &Poly<R>,
    kept: &[Pivot<R>],
    order: &[usize],
    f: Target<R>,
) -> Result<(Target<R>, bool), AllocError>
    requires equations { AllByRecursion (p.IsPolynomial (r.reduced_by (R.modulus_of ring.now))) (equations_of (R.amount ring.now) equations.now) }
    requires claim { p.IsOver (R.modulus_of ring.now) (R.amount ring.now) claim.now }
    requires target { IsAimed (R.modulus_of ring.now) (equations_of (R.amount ring.now) equations.now) (p.terms_of (R.amount ring.now) claim.now) (target_shown (R.amount ring.now) false f) }
    requires sound { AreSound (R.modulus_of ring.now) (equations_of (R.amount ring.now) equations.now) (pivots_shown (R.amount ring.now) kept.now) }
    requires sorted { AreSorted (pivots_shown (R.amount ring.now) kept.now) order.now }
    ensures reduced { IfOk result (λ g. target_shown (R.amount ring.now) g.1 g.0
        ≡ s.target_by (R.modulus_of ring.now) (equations_of (R.amount ring.now) equations.now) (p.norm_of (p.terms_of (R.amount ring.now) claim.now)) (rows.by_leading (pivots_shown (R.amount ring.now) kept.now)) (target_shown (R.amount ring.now) false f)) }
    ensures aimed { IfOk result (λ g. IsAimed (R.modulus_of ring.now) (equations_of (R.amount ring.now) equations.now) (p.terms_of (R.amount ring.now) claim.now) (target_shown (R.amount ring.now) false g.0)) }
{
    let mut f = f;
    let mut noted = false;
    let start = seek(ring, &f.poly, kept, order, 0);
    let mut i = start;
    while i < order.len() {
        let pivot: &Pivot<R> = &kept[order[i]];
        match step_by_pivot(alloc, ring, equations, claim, &f, pivot)? {
            TargetStep::Same => i = seek(ring, &f.poly, kept, order, i + 1),
            TargetStep::Wide => {
                noted = true;
                i = seek(ring, &f.poly, kept, order, i + 1);
            }
            TargetStep::Next(next) => {
                i = seek(ring, &next.poly, kept, order, i + 1);
                f = next;
            }
        }
    }
    Ok((f, noted))
}

impl<R: Ring> Rows<R> {
    /// What is left of the claim, reduced by the kept rows from the greatest leading monomial down, and whether a step was
    /// wide. Such a step is not made.
    pub fn reduce_target(
        &self,
        alloc: Global,
        ring: &R,
        equations: &[Poly<R>],
        claim: &Poly<R>,
        f: Target<R>,
    ) -> Result<(Target<R>, bool), AllocError>
        requires equations { AllByRecursion (p.IsPolynomial (r.reduced_by (R.modulus_of ring.now))) (equations_of (R.amount ring.now) equations.now) }
        requires claim { p.IsOver (R.modulus_of ring.now) (R.amount ring.now) claim.now }
        requires target { IsAimed (R.modulus_of ring.now) (equations_of (R.amount ring.now) equations.now) (p.terms_of (R.amount ring.now) claim.now) (target_shown (R.amount ring.now) false f) }
        requires held { AreHeld (R.modulus_of ring.now) (equations_of (R.amount ring.now) equations.now) (R.amount ring.now) self.now }
        ensures reduced { IfOk result (λ g. target_shown (R.amount ring.now) g.1 g.0
            ≡ s.target_by (R.modulus_of ring.now) (equations_of (R.amount ring.now) equations.now) (p.norm_of (p.terms_of (R.amount ring.now) claim.now)) (rows.by_leading (rows_shown (R.amount ring.now) self.now).kept) (target_shown (R.amount ring.now) false f)) }
        ensures aimed { IfOk result (λ g. IsAimed (R.modulus_of ring.now) (equations_of (R.amount ring.now) equations.now) (p.terms_of (R.amount ring.now) claim.now) (target_shown (R.amount ring.now) false g.0)) }
    {
        reduce_by_places(
            alloc,
            ring,
            equations,
            claim,
            self.kept.as_slice(),
            self.order.as_slice(),
            f,
        )
    }

    /// Reduces what is left of the claim by the kept rows, and notes the claim's place where a step was wide.
    pub fn settle(
        &mut self,
        alloc: Global,
        ring: &R,
        equations: &[Poly<R>],
        claim: &Poly<R>,
        place: u32,
        f: Target<R>,
    ) -> Result<Target<R>, AllocError>
        requires equations { AllByRecursion (p.IsPolynomial (r.reduced_by (R.modulus_of ring.now))) (equations_of (R.amount ring.now) equations.now) }
        requires claim { p.IsOver (R.modulus_of ring.now) (R.amount ring.now) claim.now }
        requires target { IsAimed (R.modulus_of ring.now) (equations_of (R.amount ring.now) equations.now) (p.terms_of (R.amount ring.now) claim.now) (target_shown (R.amount ring.now) false f) }
        requires held { AreHeld (R.modulus_of ring.now) (equations_of (R.amount ring.now) equations.now) (R.amount ring.now) self.old }
        ensures settled { IfOk result (λ g. IsSettled (R.amount ring.now) self.new g
            (s.stage_of (R.modulus_of ring.now) (equations_of (R.amount ring.now) equations.now) (p.norm_of (p.terms_of (R.amount ring.now) claim.now)) place (rows_shown (R.amount ring.now) self.old) (target_shown (R.amount ring.now) false f))) }
        ensures aimed { IfOk result (λ g. IsAimed (R.modulus_of ring.now) (equations_of (R.amount ring.now) equations.now) (p.terms_of (R.amount ring.now) claim.now) (target_shown (R.amount ring.now) false g)) }
        ensures held { OnOk result (AreHeld (R.modulus_of ring.now) (equations_of (R.amount ring.now) equations.now) (R.amount ring.now) self.new) }
    {
        let (left, noted) = self.reduce_target(alloc, ring, equations, claim, f)?;
        if noted {
            self.push_note(Note::Wide(place))?;
        }
        Ok(left)
    }
}
