// Sums, products, negation and powers of polynomials whose bounds are known to fit the ring.

ghost use Rattle.std.specs.Prelude.{◌≡◌, ℕ, ℤ, ◌+◌, ◌*◌, ◌^◌, ◌≤◌, [], negsuc, false, ◌+ℤ◌, ◌*ℤ◌, neg_ℤ, IfOk};
ghost use Rattle.std.specs.Int.{int_pow};
ghost use Rattle.tcl_ring.specs.Reduction as r;
ghost use Rattle.tcl_poly.specs.Polynomial as p;

use crate::addition::merge_moving;
use crate::element::{negation_of_element, push_term};
use crate::multiplication::multiply;
use crate::poly::one_terms;
use crate::{Mono, Poly, terms};
use std::alloc::{AllocError, Global};
use tcl_ring::Ring;

/// The sum. The terms of both polynomials are moved into it.
pub fn sum<R: Ring>(ring: &R, a: Poly<R>, b: Poly<R>) -> Result<Poly<R>, AllocError>
    requires first { p.IsOver (R.modulus_of ring.now) (R.amount ring.now) a }
    requires second { p.IsOver (R.modulus_of ring.now) (R.amount ring.now) b }
    requires fits { r.is_wide (R.modulus_of ring.now) (p.norm_of (p.terms_of (R.amount ring.now) a) + p.norm_of (p.terms_of (R.amount ring.now) b)) ≡ false }
    ensures sum { IfOk result (λ s. p.terms_of (R.amount ring.now) s ≡ p.sum_of (r.reduced_by (R.modulus_of ring.now)) (p.terms_of (R.amount ring.now) a) (p.terms_of (R.amount ring.now) b)) }
    ensures over { IfOk result (λ s. p.IsOver (R.modulus_of ring.now) (R.amount ring.now) s) }
    ensures values { IfOk result (λ s. (point : ℕ → ℤ) → r.reduced_by (R.modulus_of ring.now) (p.value_of point (p.terms_of (R.amount ring.now) s)) ≡ r.reduced_by (R.modulus_of ring.now) (p.value_of point (p.terms_of (R.amount ring.now) a) +ℤ p.value_of point (p.terms_of (R.amount ring.now) b))) }
{
    let alloc = a.allocator();
    let mut a = a;
    let mut b = b;
    let terms = merge_moving(alloc, ring, &mut a.terms, &mut b.terms)?;
    Ok(Poly { terms })
}

/// The product.
pub fn product<R: Ring>(ring: &R, a: &Poly<R>, b: &Poly<R>) -> Result<Poly<R>, AllocError>
    requires first { p.IsOver (R.modulus_of ring.now) (R.amount ring.now) a.now }
    requires second { p.IsOver (R.modulus_of ring.now) (R.amount ring.now) b.now }
    requires degrees { p.degree_of a.now + p.degree_of b.now ≤ 1024 }
    requires fits { r.is_wide (R.modulus_of ring.now) (p.norm_of (p.terms_of (R.amount ring.now) a.now) * p.norm_of (p.terms_of (R.amount ring.now) b.now)) ≡ false }
    ensures product { IfOk result (λ s. p.terms_of (R.amount ring.now) s ≡ p.product_of (r.reduced_by (R.modulus_of ring.now)) (p.terms_of (R.amount ring.now) a.now) (p.terms_of (R.amount ring.now) b.now)) }
    ensures over { IfOk result (λ s. p.IsOver (R.modulus_of ring.now) (R.amount ring.now) s) }
    ensures values { IfOk result (λ s. (point : ℕ → ℤ) → r.reduced_by (R.modulus_of ring.now) (p.value_of point (p.terms_of (R.amount ring.now) s)) ≡ r.reduced_by (R.modulus_of ring.now) (p.value_of point (p.terms_of (R.amount ring.now) a.now) *ℤ p.value_of point (p.terms_of (R.amount ring.now) b.now))) }
{
    let terms = multiply(a.allocator(), ring, terms(a), terms(b))?;
    Ok(Poly { terms })
}

/// The product with -1.
pub fn negated<R: Ring>(ring: &R, a: &Poly<R>) -> Result<Poly<R>, AllocError>
    requires over { p.IsOver (R.modulus_of ring.now) (R.amount ring.now) a.now }
    requires fits { r.is_wide (R.modulus_of ring.now) (p.norm_of (p.terms_of (R.amount ring.now) a.now)) ≡ false }
    ensures negation { IfOk result (λ s. p.terms_of (R.amount ring.now) s ≡ p.scaled (r.reduced_by (R.modulus_of ring.now)) ([], negsuc 0) (p.terms_of (R.amount ring.now) a.now)) }
    ensures over { IfOk result (λ s. p.IsOver (R.modulus_of ring.now) (R.amount ring.now) s) }
    ensures values { IfOk result (λ s. (point : ℕ → ℤ) → r.reduced_by (R.modulus_of ring.now) (p.value_of point (p.terms_of (R.amount ring.now) s)) ≡ r.reduced_by (R.modulus_of ring.now) (neg_ℤ (p.value_of point (p.terms_of (R.amount ring.now) a.now)))) }
{
    let terms = negate_terms(a.allocator(), ring, terms(a))?;
    Ok(Poly { terms })
}

fn negate_terms<R: Ring>(
    alloc: Global,
    ring: &R,
    a: &[(Mono, R::Elem)],
) -> Result<Vec<(Mono, R::Elem)>, AllocError>
    requires fits { r.is_wide (R.modulus_of ring.now) (p.norm_of (p.terms_of (R.amount ring.now) a.now)) ≡ false }
    ensures { IfOk result (λ s. p.terms_of (R.amount ring.now) s.items ≡ p.scaled (r.reduced_by (R.modulus_of ring.now)) ([], negsuc 0) (p.terms_of (R.amount ring.now) a.now)) }
{
    let mut row = Vec::with_capacity(alloc, a.len())?;
    for term in a {
        let term: &(Mono, R::Elem) = term;
        let coefficient = negation_of_element(ring, &term.1);
        push_term(ring, &mut row, term.0.copy()?, coefficient)?;
    }
    Ok(row)
}

/// The power of that exponent. Every power 0 is the number 1.
pub fn raised<R: Ring>(ring: &R, a: &Poly<R>, exponent: u32) -> Result<Poly<R>, AllocError>
    requires over { p.IsOver (R.modulus_of ring.now) (R.amount ring.now) a.now }
    requires degree { exponent * p.degree_of a.now ≤ 1024 }
    requires fits { r.is_wide (R.modulus_of ring.now) (p.norm_of (p.terms_of (R.amount ring.now) a.now) ^ exponent) ≡ false }
    ensures power { IfOk result (λ s. p.terms_of (R.amount ring.now) s ≡ p.raised_by (r.reduced_by (R.modulus_of ring.now)) (p.terms_of (R.amount ring.now) a.now) exponent) }
    ensures over { IfOk result (λ s. p.IsOver (R.modulus_of ring.now) (R.amount ring.now) s) }
    ensures values { IfOk result (λ s. (point : ℕ → ℤ) → r.reduced_by (R.modulus_of ring.now) (p.value_of point (p.terms_of (R.amount ring.now) s)) ≡ r.reduced_by (R.modulus_of ring.now) (int_pow (p.value_of point (p.terms_of (R.amount ring.now) a.now)) exponent)) }
{
    let terms = raise_terms(a.allocator(), ring, terms(a), exponent)?;
    Ok(Poly { terms })
}

fn raise_terms<R: Ring>(
    alloc: Global,
    ring: &R,
    a: &[(Mono, R::Elem)],
    exponent: u32,
) -> Result<Vec<(Mono, R::Elem)>, AllocError>
    requires over { p.IsOver (R.modulus_of ring.now) (R.amount ring.now) a.now }
    requires degree { exponent * p.degree_of a.now ≤ 1024 }
    requires fits { r.is_wide (R.modulus_of ring.now) (p.norm_of (p.terms_of (R.amount ring.now) a.now) ^ exponent) ≡ false }
    ensures { IfOk result (λ s. p.terms_of (R.amount ring.now) s.items ≡ p.raised_by (r.reduced_by (R.modulus_of ring.now)) (p.terms_of (R.amount ring.now) a.now) exponent) }
{
    let mut power = one_terms(alloc, ring)?;
    for step in 0..exponent {
        power = multiply(alloc, ring, power.as_slice(), a)?;
    }
    Ok(power)
}
