// Coefficients: sums and products that are known to fit, and norms that stop at the limit.

ghost use Rattle.std.specs.Prelude.{◌≡◌, ℕ, ◌+◌, ◌<◌, ◌^◌, ◌++◌, ◌∷◌, [], drop, length, slice_index_or, min, false, pos, ◌+ℤ◌, ◌*ℤ◌, neg_ℤ, unsigned_abs, OnOk};
ghost use Rattle.tcl_ring.specs.Reduction as r;
ghost use Rattle.tcl_poly.specs.Monomial.{Monomial};
ghost use Rattle.tcl_poly.specs.Polynomial.{front, norm_of, terms_of};

use crate::Mono;
use std::alloc::{AllocError, Global};
use std::mem;
use tcl_num::saturating_sum;
use tcl_ring::Ring;

/// The magnitude from which on a number is too great for the ring of all integers, and at which norms stop.
pub(crate) const LIMIT: u128 = 1 << 127;

/// Whether a magnitude is too great for the ring. Residues have no limit.
pub fn is_wide<R: Ring>(ring: &R, magnitude: u128) -> bool
    ensures { result ≡ r.is_wide (R.modulus_of ring.now) magnitude }
{
    match ring.modulus() {
        None => LIMIT <= magnitude,
        Some(_) => false,
    }
}

/// The sum of the magnitudes of the coefficients, which stays at 2^127 where it is greater.
pub fn norm_of_terms<R: Ring>(ring: &R, terms: &[(Mono, R::Elem)]) -> u128
    ensures { result ≡ min (norm_of (terms_of (R.amount ring.now) terms.now)) (2 ^ 127) }
{
    let mut norm = 0;
    for term in terms {
        norm = saturating_sum(norm, ring.value(&term.1).unsigned_abs(), LIMIT);
    }
    norm
}

pub(crate) fn sum_of_elements<R: Ring>(ring: &R, a: &R::Elem, b: &R::Elem) -> R::Elem
    requires { r.is_wide (R.modulus_of ring.now) (unsigned_abs (R.amount ring.now a.now +ℤ R.amount ring.now b.now)) ≡ false }
    ensures { R.amount ring.now result ≡ r.reduced_by (R.modulus_of ring.now) (R.amount ring.now a.now +ℤ R.amount ring.now b.now) }
{
    match ring.add(a, b) {
        Ok(sum) => sum,
        Err(_) => unreachable!(),
    }
}

pub(crate) fn product_of_elements<R: Ring>(ring: &R, a: &R::Elem, b: &R::Elem) -> R::Elem
    requires { r.is_wide (R.modulus_of ring.now) (unsigned_abs (R.amount ring.now a.now *ℤ R.amount ring.now b.now)) ≡ false }
    ensures { R.amount ring.now result ≡ r.reduced_by (R.modulus_of ring.now) (R.amount ring.now a.now *ℤ R.amount ring.now b.now) }
{
    match ring.mul(a, b) {
        Ok(product) => product,
        Err(_) => unreachable!(),
    }
}

pub(crate) fn negation_of_element<R: Ring>(ring: &R, a: &R::Elem) -> R::Elem
    requires { r.is_wide (R.modulus_of ring.now) (unsigned_abs (neg_ℤ (R.amount ring.now a.now))) ≡ false }
    ensures { R.amount ring.now result ≡ r.reduced_by (R.modulus_of ring.now) (neg_ℤ (R.amount ring.now a.now)) }
{
    match ring.neg(a) {
        Ok(negation) => negation,
        Err(_) => unreachable!(),
    }
}

/// Adds the term at the end, unless its coefficient is 0.
pub(crate) fn push_term<R: Ring>(
    ring: &R,
    terms: &mut Vec<(Mono, R::Elem)>,
    mono: Mono,
    coefficient: R::Elem,
) -> Result<(), AllocError>
    ensures { OnOk result (terms_of (R.amount ring.now) terms.new.items ≡ terms_of (R.amount ring.now) terms.old.items ++ front mono (R.amount ring.now coefficient) []) }
{
    if ring.value(&coefficient) == 0 {
        return Ok(());
    }
    terms.push((mono, coefficient))?;
    Ok(())
}

/// Adds a copy of the term at the end.
pub(crate) fn push_copy<E: Copy>(
    terms: &mut Vec<(Mono, E)>,
    term: &(Mono, E),
) -> Result<(), AllocError>
    ensures { OnOk result (terms.new.items ≡ terms.old.items ++ term.now ∷ []) }
{
    let mono = term.0.copy()?;
    terms.push((mono, term.1))?;
    Ok(())
}

/// Takes the term at that place out, and leaves one without factors in its stead.
pub(crate) fn take_term<E: Copy>(alloc: Global, terms: &mut Vec<(Mono, E)>, k: usize) -> (Mono, E)
    requires { k < length terms.old.items }
    ensures term { (d : Monomial × E) → result ≡ slice_index_or terms.old.items k d }
    ensures rest { drop (k + 1) terms.new.items ≡ drop (k + 1) terms.old.items }
    ensures length { length terms.new.items ≡ length terms.old.items }
{
    let term = &mut terms[k];
    let mono = mem::replace(&mut term.0, Mono::new(alloc));
    (mono, term.1)
}
