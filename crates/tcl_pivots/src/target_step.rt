// One step of the membership search on what is left of the claim.

ghost use Rattle.std.specs.Prelude.{◌≡◌, ℕ, ◌^◌, [], length, min, true, false, ◌*ℤ◌, neg_ℤ, unsigned_abs, IfOk, MatchOption};
ghost use Rattle.std.specs.List.{AllByRecursion};
ghost use Rattle.tcl_ring.specs.Reduction as r;
ghost use Rattle.tcl_poly.specs.Polynomial as p;
ghost use Rattle.tcl_reduce.specs.CofactorSum as s;
ghost use Rattle.tcl_pivots.specs.CofactorLists.{equations_of};
ghost use Rattle.tcl_reduce.specs.Row.{leading};
ghost use Rattle.tcl_reduce.specs.Membership as search;
ghost use Rattle.tcl_pivots.specs.RowState.{row_shown, pivot_shown, IsSound};
ghost use Rattle.tcl_pivots.specs.TargetState.{target_shown, IsSoundTarget};

use crate::row_step::{Made, make, opposite_of, product_of};
use crate::{Pivot, Target};
use std::alloc::{AllocError, Global};
use tcl_poly::{Poly, norm_of_terms, terms};
use tcl_ring::Ring;

/// What is left of the claim, less the multiple of the pivot's row that takes the leading monomial of that away, or nothing
/// where the cofactors are wide then, with the claim's norm. The coefficient is that of this monomial.
pub(crate) fn target_less<R: Ring>(
    alloc: Global,
    ring: &R,
    equations: &[Poly<R>],
    claim: &Poly<R>,
    f: &Target<R>,
    coefficient: &R::Elem,
    pivot: &Pivot<R>,
) -> Result<Option<Target<R>>, AllocError>
    requires equations { AllByRecursion (p.IsPolynomial (r.reduced_by (R.modulus_of ring.now))) (equations_of (R.amount ring.now) equations.now) }
    requires claim { p.IsOver (R.modulus_of ring.now) (R.amount ring.now) claim.now }
    requires target { IsSoundTarget (R.modulus_of ring.now) (equations_of (R.amount ring.now) equations.now) (p.terms_of (R.amount ring.now) claim.now) (target_shown (R.amount ring.now) false f.now) }
    requires pivot { IsSound (R.modulus_of ring.now) (equations_of (R.amount ring.now) equations.now) (row_shown (R.amount ring.now) pivot.now.row) }
    requires coefficient { R.amount ring.now coefficient.now ≡ p.coefficient (p.terms_of (R.amount ring.now) f.now.poly) (leading (p.terms_of (R.amount ring.now) pivot.now.row.poly)) }
    requires quotient { r.is_wide (R.modulus_of ring.now) (unsigned_abs (R.amount ring.now coefficient.now *ℤ R.amount ring.now pivot.now.inverse)) ≡ false }
    ensures wide { IfOk result (λ o. MatchOption o
        (s.are_wide (R.modulus_of ring.now) (equations_of (R.amount ring.now) equations.now) (p.norm_of (p.terms_of (R.amount ring.now) claim.now)) (search.target_less (r.reduced_by (R.modulus_of ring.now)) (target_shown (R.amount ring.now) false f.now) (pivot_shown (R.amount ring.now) pivot.now)).cofactors ≡ true)
        (λ _. s.are_wide (R.modulus_of ring.now) (equations_of (R.amount ring.now) equations.now) (p.norm_of (p.terms_of (R.amount ring.now) claim.now)) (search.target_less (r.reduced_by (R.modulus_of ring.now)) (target_shown (R.amount ring.now) false f.now) (pivot_shown (R.amount ring.now) pivot.now)).cofactors ≡ false)) }
    ensures less { IfOk result (λ o. MatchOption o (Unit {0}) (λ g.
        (target_shown (R.amount ring.now) false g ≡ search.target_less (r.reduced_by (R.modulus_of ring.now)) (target_shown (R.amount ring.now) false f.now) (pivot_shown (R.amount ring.now) pivot.now))
        × IsSoundTarget (R.modulus_of ring.now) (equations_of (R.amount ring.now) equations.now) (p.terms_of (R.amount ring.now) claim.now) (target_shown (R.amount ring.now) false g))) }
{
    let quotient = product_of(ring, coefficient, &pivot.inverse);
    let opposite = opposite_of(ring, &quotient);
    let norm = norm_of_terms(ring, terms(claim));
    let made = make(
        alloc,
        ring,
        equations,
        norm,
        &f.poly,
        f.cofactors.as_slice(),
        &opposite,
        &quotient,
        &pivot.row,
    )?;
    match made {
        Some(made) => {
            let Made { poly, cofactors } = made;
            Ok(Some(Target { poly, cofactors }))
        }
        None => Ok(None),
    }
}
