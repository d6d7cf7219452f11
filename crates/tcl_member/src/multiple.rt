// Products of kept rows with monomials.

ghost use Rattle.std.specs.Prelude.{◌≡◌, ℕ, ℤ, ◌+◌, ◌≤◌, ◌++◌, [], length, true, false, pos, IfOk, OnOk, MatchOption};
ghost use Rattle.std.specs.List.{AllByRecursion};
ghost use Rattle.tcl_ring.specs.Reduction as r;
ghost use Rattle.tcl_poly.specs.Monomial as mono;
ghost use Rattle.tcl_poly.specs.Polynomial as p;
ghost use Rattle.tcl_poly.specs.Combination.{equation_at};
ghost use Rattle.tcl_reduce.specs.Answer.{numbered};
ghost use Rattle.tcl_reduce.specs.Remainder.{pairs_of};
ghost use Rattle.tcl_reduce.specs.CofactorSum as s;
ghost use Rattle.tcl_reduce.specs.Multiple as multiple;
ghost use Rattle.tcl_pivots.specs.CofactorLists.{AreBelow, equations_of};
ghost use Rattle.tcl_pivots.specs.RowState.{row_shown, pivot_shown, IsSound};
ghost use Rattle.tcl_pivots.specs.Held.{rows_shown, AreHeld};
ghost use Rattle.tcl_member.specs.Deep.{is_deep_product, are_deep_products};
ghost use Rattle.tcl_member.specs.Multiplied.{AreMultiplied, IsFactor};

use crate::equation_row::push_some;
use std::alloc::{AllocError, Global};
use tcl_list::Listing;
use tcl_pivots::{Note, Pivot, Row, Rows};
use tcl_poly::{Cofactor, Cofactors, Mono, Poly, degree, is_zero, product};
use tcl_ring::Ring;

// The greatest sum of the degrees of a cofactor and its equation.
const DEGREE: u64 = 1024;

/// Adds the product of a kept row with a monomial as a row, or a note where that is wide.
pub(crate) fn add_multiple<R: Ring>(
    alloc: Global,
    ring: &R,
    equations: &[Poly<R>],
    pivot: &Pivot<R>,
    monomial: &Mono,
    rows: &mut Rows<R>,
) -> Result<(), AllocError>
    requires equations { AllByRecursion (p.IsPolynomial (r.reduced_by (R.modulus_of ring.now))) (equations_of (R.amount ring.now) equations.now) }
    requires pivot { IsSound (R.modulus_of ring.now) (equations_of (R.amount ring.now) equations.now) (row_shown (R.amount ring.now) pivot.now.row) }
    requires some { pivot.now.row.poly ≡ [] → ⊥ }
    requires degree { mono.degree monomial.now + p.degree_of pivot.now.row.poly ≤ 1024 }
    requires held { AreHeld (R.modulus_of ring.now) (equations_of (R.amount ring.now) equations.now) (R.amount ring.now) rows.old }
    ensures added { OnOk result (rows_shown (R.amount ring.now) rows.new
        ≡ multiple.add_multiple (R.modulus_of ring.now) (equations_of (R.amount ring.now) equations.now) (pivot_shown (R.amount ring.now) pivot.now, monomial.now) (rows_shown (R.amount ring.now) rows.old)) }
    ensures held { OnOk result (AreHeld (R.modulus_of ring.now) (equations_of (R.amount ring.now) equations.now) (R.amount ring.now) rows.new) }
{
    match multiplied(alloc, ring, equations, monomial, &pivot.row)? {
        Some(row) => rows.add_row(alloc, ring, equations, row),
        None => rows.push_note(Note::Wide(pivot.row.place)),
    }
}

/// The product of a row with a monomial, or nothing where it is wide.
fn multiplied<R: Ring>(
    alloc: Global,
    ring: &R,
    equations: &[Poly<R>],
    monomial: &Mono,
    row: &Row<R>,
) -> Result<Option<Row<R>>, AllocError>
    requires equations { AllByRecursion (p.IsPolynomial (r.reduced_by (R.modulus_of ring.now))) (equations_of (R.amount ring.now) equations.now) }
    requires row { IsSound (R.modulus_of ring.now) (equations_of (R.amount ring.now) equations.now) (row_shown (R.amount ring.now) row.now) }
    requires some { row.now.poly ≡ [] → ⊥ }
    requires degree { mono.degree monomial.now + p.degree_of row.now.poly ≤ 1024 }
    ensures wide { IfOk result (λ o. MatchOption o
        (s.are_wide (R.modulus_of ring.now) (equations_of (R.amount ring.now) equations.now) 0 (multiple.multiplied (r.reduced_by (R.modulus_of ring.now)) monomial.now (row_shown (R.amount ring.now) row.now)).cofactors ≡ true)
        (λ _. s.are_wide (R.modulus_of ring.now) (equations_of (R.amount ring.now) equations.now) 0 (multiple.multiplied (r.reduced_by (R.modulus_of ring.now)) monomial.now (row_shown (R.amount ring.now) row.now)).cofactors ≡ false)) }
    ensures multiplied { IfOk result (λ o. MatchOption o (Unit {0}) (λ a.
        (row_shown (R.amount ring.now) a ≡ multiple.multiplied (r.reduced_by (R.modulus_of ring.now)) monomial.now (row_shown (R.amount ring.now) row.now))
        × IsSound (R.modulus_of ring.now) (equations_of (R.amount ring.now) equations.now) (row_shown (R.amount ring.now) a))) }
{
    if are_deep(equations, monomial.degree(), row.cofactors.as_slice()) {
        return Ok(None);
    }
    let factor = term_of(alloc, ring, monomial)?;
    let poly = product(ring, &factor, &row.poly)?;
    let cofactors = multiplied_cofactors(alloc, ring, &factor, row.cofactors.as_slice())?;
    Ok(Some(Row {
        poly,
        cofactors,
        place: row.place,
    }))
}

/// Whether the product of a cofactor with a monomial of that degree, and its equation, have degrees that add to more than
/// 1,024.
fn are_deep<R: Ring>(equations: &[Poly<R>], degree: u32, cofactors: &[Cofactor<R>]) -> bool
    requires { AreBelow (length equations.now) (numbered cofactors.now) }
    ensures { (value : R.Elem → ℤ) → result ≡ are_deep_products (equations_of value equations.now) degree (pairs_of value (numbered cofactors.now)) }
{
    let mut deep = false;
    let mut k = cofactors.len();
    while k > 0 {
        k -= 1;
        let cofactor: &Cofactor<R> = &cofactors[k];
        let equation: &Poly<R> = &equations[cofactor.equation as usize];
        deep = is_deep(degree, &cofactor.poly, equation) || deep;
    }
    deep
}

fn is_deep<R: Ring>(by: u32, cofactor: &Poly<R>, equation: &Poly<R>) -> bool
    ensures { (value : R.Elem → ℤ) → result ≡ is_deep_product by (p.terms_of value cofactor.now) (p.terms_of value equation.now) }
{
    if is_zero(cofactor) {
        return false;
    }
    by as u64 + degree(cofactor) as u64 + degree(equation) as u64 > DEGREE
}

/// The monomial as a polynomial.
fn term_of<R: Ring>(alloc: Global, ring: &R, monomial: &Mono) -> Result<Poly<R>, AllocError>
    ensures { IfOk result (λ t. IsFactor (r.reduced_by (R.modulus_of ring.now)) (R.amount ring.now) monomial.now t) }
{
    let mut terms = Vec::new(alloc);
    terms.push((monomial.copy()?, one(ring)))?;
    Ok(Poly::of(terms))
}

fn one<R: Ring>(ring: &R) -> R::Elem
    ensures { R.amount ring.now result ≡ r.reduced_by (R.modulus_of ring.now) (pos 1) }
{
    match ring.number(1) {
        Ok(one) => one,
        Err(_) => unreachable!(),
    }
}

/// Each cofactor times that polynomial of one term.
fn multiplied_cofactors<R: Ring>(
    alloc: Global,
    ring: &R,
    factor: &Poly<R>,
    cofactors: &[Cofactor<R>],
) -> Result<Cofactors<R>, AllocError>
    requires factor { p.IsOver (R.modulus_of ring.now) (R.amount ring.now) factor.now }
    requires held { AreMultiplied (R.modulus_of ring.now) (R.amount ring.now) factor.now (numbered cofactors.now) }
    ensures { (m : mono.Monomial) → IsFactor (r.reduced_by (R.modulus_of ring.now)) (R.amount ring.now) m factor.now → IfOk result (λ cs. pairs_of (R.amount ring.now) (numbered cs)
        ≡ s.scaled_cofactors (r.reduced_by (R.modulus_of ring.now)) (m, r.reduced_by (R.modulus_of ring.now) (pos 1)) (pairs_of (R.amount ring.now) (numbered cofactors.now))) }
{
    let mut products = Vec::new(alloc);
    for cofactor in cofactors {
        let cofactor: &Cofactor<R> = cofactor;
        let poly = product(ring, factor, &cofactor.poly)?;
        push_some(ring, &mut products, cofactor.equation, poly)?;
    }
    Ok(Listing::from_vec(products))
}
