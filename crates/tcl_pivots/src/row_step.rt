// One step of the membership search: a polynomial plus a multiple of a row, with the cofactors.

ghost use Rattle.std.specs.Prelude.{◌≡◌, ℕ, ◌^◌, [], length, min, true, false, ◌*ℤ◌, neg_ℤ, unsigned_abs, IfOk, MatchOption};
ghost use Rattle.std.specs.List.{AllByRecursion};
ghost use Rattle.tcl_ring.specs.Reduction as r;
ghost use Rattle.tcl_poly.specs.Polynomial as p;
ghost use Rattle.tcl_reduce.specs.Answer.{numbered};
ghost use Rattle.tcl_reduce.specs.Remainder.{pairs_of};
ghost use Rattle.tcl_reduce.specs.CofactorSum as s;
ghost use Rattle.tcl_pivots.specs.CofactorLists.{AreBelow, AreOrdered, any_wide, equations_of};
ghost use Rattle.tcl_reduce.specs.Row.{leading};
ghost use Rattle.tcl_reduce.specs.Row as rows;
ghost use Rattle.tcl_pivots.specs.RowState.{row_shown, pivot_shown, IsSound};

use crate::cofactor_sum::add_multiples;
use crate::weight::are_wide;
use crate::{Pivot, Row};
use std::alloc::{AllocError, Global};
use tcl_poly::{Cofactor, Cofactors, Poly, PolyFault, add_multiple};
use tcl_ring::Ring;

/// A polynomial with its cofactors.
#[derive(Drop)]
pub(crate) struct Made<R: Ring> {
    pub(crate) poly: Poly<R>,
    pub(crate) cofactors: Cofactors<R>,
}

/// The polynomial plus `c` times that of the row, and the cofactors plus `d` times those of the row, or nothing where the
/// cofactors are wide then.
pub(crate) fn make<R: Ring>(
    alloc: Global,
    ring: &R,
    equations: &[Poly<R>],
    norm: u128,
    poly: &Poly<R>,
    cofactors: &[Cofactor<R>],
    c: &R::Elem,
    d: &R::Elem,
    row: &Row<R>,
) -> Result<Option<Made<R>>, AllocError>
    requires poly { p.IsOver (R.modulus_of ring.now) (R.amount ring.now) poly.now }
    requires row { p.IsOver (R.modulus_of ring.now) (R.amount ring.now) row.now.poly }
    requires ordered { AreOrdered (r.reduced_by (R.modulus_of ring.now)) 0 (pairs_of (R.amount ring.now) (numbered cofactors.now)) }
    requires row_ordered { AreOrdered (r.reduced_by (R.modulus_of ring.now)) 0 (pairs_of (R.amount ring.now) (numbered row.now.cofactors)) }
    requires below { AreBelow (length equations.now) (numbered cofactors.now) }
    requires row_below { AreBelow (length equations.now) (numbered row.now.cofactors) }
    requires poly_fits { (n : ℕ) → norm ≡ min n (2 ^ 127) →
        p.has_wide (R.modulus_of ring.now) (p.sum_of (r.reduced_by (R.modulus_of ring.now)) (p.terms_of (R.amount ring.now) poly.now) (p.scaled (r.reduced_by (R.modulus_of ring.now)) ([], R.amount ring.now c.now) (p.terms_of (R.amount ring.now) row.now.poly))) ≡ true →
        s.are_wide (R.modulus_of ring.now) (equations_of (R.amount ring.now) equations.now) n (s.sum_cofactors (r.reduced_by (R.modulus_of ring.now)) (pairs_of (R.amount ring.now) (numbered cofactors.now)) (s.scaled_cofactors (r.reduced_by (R.modulus_of ring.now)) ([], R.amount ring.now d.now) (pairs_of (R.amount ring.now) (numbered row.now.cofactors)))) ≡ true }
    requires cofactors_fit { (n : ℕ) → norm ≡ min n (2 ^ 127) →
        any_wide (R.modulus_of ring.now) (s.sum_cofactors (r.reduced_by (R.modulus_of ring.now)) (pairs_of (R.amount ring.now) (numbered cofactors.now)) (s.scaled_cofactors (r.reduced_by (R.modulus_of ring.now)) ([], R.amount ring.now d.now) (pairs_of (R.amount ring.now) (numbered row.now.cofactors)))) ≡ true →
        s.are_wide (R.modulus_of ring.now) (equations_of (R.amount ring.now) equations.now) n (s.sum_cofactors (r.reduced_by (R.modulus_of ring.now)) (pairs_of (R.amount ring.now) (numbered cofactors.now)) (s.scaled_cofactors (r.reduced_by (R.modulus_of ring.now)) ([], R.amount ring.now d.now) (pairs_of (R.amount ring.now) (numbered row.now.cofactors)))) ≡ true }
    ensures wide { IfOk result (λ o. (n : ℕ) → norm ≡ min n (2 ^ 127) → MatchOption o
        (s.are_wide (R.modulus_of ring.now) (equations_of (R.amount ring.now) equations.now) n (s.sum_cofactors (r.reduced_by (R.modulus_of ring.now)) (pairs_of (R.amount ring.now) (numbered cofactors.now)) (s.scaled_cofactors (r.reduced_by (R.modulus_of ring.now)) ([], R.amount ring.now d.now) (pairs_of (R.amount ring.now) (numbered row.now.cofactors)))) ≡ true)
        (λ _. s.are_wide (R.modulus_of ring.now) (equations_of (R.amount ring.now) equations.now) n (s.sum_cofactors (r.reduced_by (R.modulus_of ring.now)) (pairs_of (R.amount ring.now) (numbered cofactors.now)) (s.scaled_cofactors (r.reduced_by (R.modulus_of ring.now)) ([], R.amount ring.now d.now) (pairs_of (R.amount ring.now) (numbered row.now.cofactors)))) ≡ false)) }
    ensures made { IfOk result (λ o. MatchOption o (Unit {0}) (λ made.
        (p.terms_of (R.amount ring.now) made.poly ≡ p.sum_of (r.reduced_by (R.modulus_of ring.now)) (p.terms_of (R.amount ring.now) poly.now) (p.scaled (r.reduced_by (R.modulus_of ring.now)) ([], R.amount ring.now c.now) (p.terms_of (R.amount ring.now) row.now.poly)))
        × (pairs_of (R.amount ring.now) (numbered made.cofactors) ≡ s.sum_cofactors (r.reduced_by (R.modulus_of ring.now)) (pairs_of (R.amount ring.now) (numbered cofactors.now)) (s.scaled_cofactors (r.reduced_by (R.modulus_of ring.now)) ([], R.amount ring.now d.now) (pairs_of (R.amount ring.now) (numbered row.now.cofactors)))))) }
{
    let cofactors = match add_multiples(alloc, ring, cofactors, d, row.cofactors.as_slice()) {
        Ok(cofactors) => cofactors,
        Err(PolyFault::Wide) => return Ok(None),
        Err(PolyFault::Memory) => return Err(AllocError),
    };
    if are_wide(ring, equations, norm, cofactors.as_slice()) {
        return Ok(None);
    }
    match add_multiple(ring, poly, c, &row.poly) {
        Ok(poly) => Ok(Some(Made { poly, cofactors })),
        Err(PolyFault::Wide) => Ok(None),
        Err(PolyFault::Memory) => Err(AllocError),
    }
}

/// The row less the multiple of the pivot's row that takes the leading monomial of that away, or nothing where the cofactors
/// are wide then. The coefficient is that of this monomial.
pub(crate) fn row_less<R: Ring>(
    alloc: Global,
    ring: &R,
    equations: &[Poly<R>],
    a: &Row<R>,
    coefficient: &R::Elem,
    pivot: &Pivot<R>,
) -> Result<Option<Row<R>>, AllocError>
    requires equations { AllByRecursion (p.IsPolynomial (r.reduced_by (R.modulus_of ring.now))) (equations_of (R.amount ring.now) equations.now) }
    requires row { IsSound (R.modulus_of ring.now) (equations_of (R.amount ring.now) equations.now) (row_shown (R.amount ring.now) a.now) }
    requires pivot { IsSound (R.modulus_of ring.now) (equations_of (R.amount ring.now) equations.now) (row_shown (R.amount ring.now) pivot.now.row) }
    requires coefficient { R.amount ring.now coefficient.now ≡ p.coefficient (p.terms_of (R.amount ring.now) a.now.poly) (leading (p.terms_of (R.amount ring.now) pivot.now.row.poly)) }
    requires quotient { r.is_wide (R.modulus_of ring.now) (unsigned_abs (R.amount ring.now coefficient.now *ℤ R.amount ring.now pivot.now.inverse)) ≡ false }
    ensures wide { IfOk result (λ o. MatchOption o
        (s.are_wide (R.modulus_of ring.now) (equations_of (R.amount ring.now) equations.now) 0 (rows.row_less (r.reduced_by (R.modulus_of ring.now)) (row_shown (R.amount ring.now) a.now) (pivot_shown (R.amount ring.now) pivot.now)).cofactors ≡ true)
        (λ _. s.are_wide (R.modulus_of ring.now) (equations_of (R.amount ring.now) equations.now) 0 (rows.row_less (r.reduced_by (R.modulus_of ring.now)) (row_shown (R.amount ring.now) a.now) (pivot_shown (R.amount ring.now) pivot.now)).cofactors ≡ false)) }
    ensures less { IfOk result (λ o. MatchOption o (Unit {0}) (λ b.
        (row_shown (R.amount ring.now) b ≡ rows.row_less (r.reduced_by (R.modulus_of ring.now)) (row_shown (R.amount ring.now) a.now) (pivot_shown (R.amount ring.now) pivot.now))
        × IsSound (R.modulus_of ring.now) (equations_of (R.amount ring.now) equations.now) (row_shown (R.amount ring.now) b))) }
{
    let c = opposite_quotient(ring, coefficient, &pivot.inverse);
    let made = make(
        alloc,
        ring,
        equations,
        0,
        &a.poly,
        a.cofactors.as_slice(),
        &c,
        &c,
        &pivot.row,
    )?;
    match made {
        Some(made) => {
            let Made { poly, cofactors } = made;
            Ok(Some(Row {
                poly,
                cofactors,
                place: a.place,
            }))
        }
        None => Ok(None),
    }
}

/// The quotient by an element, given by its inverse, with the opposite sign.
fn opposite_quotient<R: Ring>(ring: &R, a: &R::Elem, inverse: &R::Elem) -> R::Elem
    requires { r.is_wide (R.modulus_of ring.now) (unsigned_abs (R.amount ring.now a.now *ℤ R.amount ring.now inverse.now)) ≡ false }
    ensures { R.amount ring.now result ≡ r.reduced_by (R.modulus_of ring.now) (neg_ℤ (r.reduced_by (R.modulus_of ring.now) (R.amount ring.now a.now *ℤ R.amount ring.now inverse.now))) }
{
    let quotient = product_of(ring, a, inverse);
    opposite_of(ring, &quotient)
}

pub(crate) fn product_of<R: Ring>(ring: &R, a: &R::Elem, b: &R::Elem) -> R::Elem
    requires { r.is_wide (R.modulus_of ring.now) (unsigned_abs (R.amount ring.now a.now *ℤ R.amount ring.now b.now)) ≡ false }
    ensures { R.amount ring.now result ≡ r.reduced_by (R.modulus_of ring.now) (R.amount ring.now a.now *ℤ R.amount ring.now b.now) }
{
    match ring.mul(a, b) {
        Ok(product) => product,
        Err(_) => unreachable!(),
    }
}

pub(crate) fn opposite_of<R: Ring>(ring: &R, a: &R::Elem) -> R::Elem
    requires { r.is_wide (R.modulus_of ring.now) (unsigned_abs (neg_ℤ (R.amount ring.now a.now))) ≡ false }
    ensures { R.amount ring.now result ≡ r.reduced_by (R.modulus_of ring.now) (neg_ℤ (R.amount ring.now a.now)) }
{
    match ring.neg(a) {
        Ok(opposite) => opposite,
        Err(_) => unreachable!(),
    }
}
