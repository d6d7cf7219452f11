// A row reduced by one kept row.

ghost use Rattle.std.specs.Prelude.{◌≡◌, List, [], ◌∷◌, pos, IfOk, MatchOption};
ghost use Rattle.std.specs.List.{AllByRecursion};
ghost use Rattle.tcl_ring.specs.Reduction as r;
ghost use Rattle.tcl_poly.specs.Polynomial as p;
ghost use Rattle.tcl_pivots.specs.CofactorLists.{equations_of};
ghost use Rattle.tcl_reduce.specs.Row.{leading};
ghost use Rattle.tcl_reduce.specs.Row as rows;
ghost use Rattle.tcl_pivots.specs.RowState.{row_shown, pivot_shown, reduced_further, IsSound};
ghost use Rattle.tcl_pivots.specs.Held.{pivots_shown, shown_where, AreSound, AreSorted};
ghost use Rattle.tcl_pivots.specs.Kept.{IsPivot};

use crate::coefficient::coefficient_of;
use crate::lookup::seek;
use crate::row_step::row_less;
use crate::{Pivot, Row};
use std::alloc::{AllocError, Global};
use tcl_poly::{Poly, terms};
use tcl_ring::Ring;

/// The row reduced by a kept row: itself where it has not that row's leading monomial, and nothing where the step is wide.
pub(crate) fn reduce_by_pivot<R: Ring>(
    alloc: Global,
    ring: &R,
    equations: &[Poly<R>],
    a: Row<R>,
    pivot: &Pivot<R>,
) -> Result<Option<Row<R>>, AllocError>
    requires equations { AllByRecursion (p.IsPolynomial (r.reduced_by (R.modulus_of ring.now))) (equations_of (R.amount ring.now) equations.now) }
    requires row { IsSound (R.modulus_of ring.now) (equations_of (R.amount ring.now) equations.now) (row_shown (R.amount ring.now) a) }
    requires pivot { IsSound (R.modulus_of ring.now) (equations_of (R.amount ring.now) equations.now) (row_shown (R.amount ring.now) pivot.now.row) }
    requires kept { IsPivot (r.reduced_by (R.modulus_of ring.now)) (pivot_shown (R.amount ring.now) pivot.now) }
    ensures further { IfOk result (λ o. (ps : List rows.Pivot) → rows.row_by (R.modulus_of ring.now) (equations_of (R.amount ring.now) equations.now) (pivot_shown (R.amount ring.now) pivot.now ∷ ps) (row_shown (R.amount ring.now) a)
        ≡ reduced_further (R.modulus_of ring.now) (equations_of (R.amount ring.now) equations.now) (R.amount ring.now) ps o) }
    ensures sound { IfOk result (λ o. MatchOption o (Unit {0}) (λ b. IsSound (R.modulus_of ring.now) (equations_of (R.amount ring.now) equations.now) (row_shown (R.amount ring.now) b))) }
{
    match leading_coefficient(ring, &a.poly, &pivot.row.poly) {
        Some(coefficient) => row_less(alloc, ring, equations, &a, &coefficient, pivot),
        None => Ok(Some(a)),
    }
}

/// The coefficient that a polynomial has at the leading monomial of another, where it occurs.
pub(crate) fn leading_coefficient<R: Ring>(
    ring: &R,
    a: &Poly<R>,
    pivot: &Poly<R>,
) -> Option<R::Elem>
    requires a { p.IsOver (R.modulus_of ring.now) (R.amount ring.now) a.now }
    requires pivot { pivot.now ≡ [] → ⊥ }
    ensures { MatchOption result (p.coefficient (p.terms_of (R.amount ring.now) a.now) (leading (p.terms_of (R.amount ring.now) pivot.now)) ≡ pos 0) (λ e. (R.amount ring.now e ≡ p.coefficient (p.terms_of (R.amount ring.now) a.now) (leading (p.terms_of (R.amount ring.now) pivot.now))) × (R.amount ring.now e ≡ pos 0 → ⊥)) }
{
    match terms(pivot).first() {
        Some(term) => coefficient_of(ring, a, &term.0),
        None => unreachable!(),
    }
}

/// The row reduced by kept rows from the greatest leading monomial down, or nothing where a step is wide. The places are those
/// of the kept rows in that order.
pub(crate) fn reduce_row<R: Ring>(
    alloc: Global,
    ring: &R,
    equations: &[Poly<R>],
    kept: &[Pivot<R>],
    order: &[usize],
    a: Row<R>,
) -> Result<Option<Row<R>>, AllocError>
    requires equations { AllByRecursion (p.IsPolynomial (r.reduced_by (R.modulus_of ring.now))) (equations_of (R.amount ring.now) equations.now) }
    requires row { IsSound (R.modulus_of ring.now) (equations_of (R.amount ring.now) equations.now) (row_shown (R.amount ring.now) a) }
    requires sound { AreSound (R.modulus_of ring.now) (equations_of (R.amount ring.now) equations.now) (pivots_shown (R.amount ring.now) kept.now) }
    requires sorted { AreSorted (pivots_shown (R.amount ring.now) kept.now) order.now }
    ensures reduced { IfOk result (λ o. rows.row_by (R.modulus_of ring.now) (equations_of (R.amount ring.now) equations.now) (rows.by_leading (pivots_shown (R.amount ring.now) kept.now)) (row_shown (R.amount ring.now) a)
        ≡ shown_where (R.amount ring.now) o) }
    ensures sound { IfOk result (λ o. MatchOption o (Unit {0}) (λ b. IsSound (R.modulus_of ring.now) (equations_of (R.amount ring.now) equations.now) (row_shown (R.amount ring.now) b))) }
{
    let mut a = a;
    let start = seek(ring, &a.poly, kept, order, 0);
    let mut i = start;
    while i < order.len() {
        let pivot: &Pivot<R> = &kept[order[i]];
        match reduce_by_pivot(alloc, ring, equations, a, pivot)? {
            Some(next) => a = next,
            None => return Ok(None),
        }
        let following = seek(ring, &a.poly, kept, order, i + 1);
        i = following;
    }
    Ok(Some(a))
}
