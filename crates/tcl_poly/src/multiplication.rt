// Products by halves: rows come out sorted, and the sum of one half is added to that of the other.

ghost use Rattle.std.specs.Prelude.{◌≡◌, ℕ, ℤ, ◌+◌, ◌*◌, ◌<◌, ◌≤◌, ◌^◌, [], length, true, false, ◌*ℤ◌, unsigned_abs, IfOk, Err};
ghost use Rattle.tcl_ring.specs.Reduction as r;
ghost use Rattle.tcl_poly.specs.Monomial.{Monomial};
ghost use Rattle.tcl_poly.specs.Monomial as m;
ghost use Rattle.tcl_poly.specs.Polynomial as p;
ghost use Rattle.tcl_poly.specs.declared.poly.PolyFault.TheVariants.{Wide};

use crate::addition::merge_moving;
use crate::element::{LIMIT, is_wide, norm_of_terms, product_of_elements, push_term};
use crate::poly::degree_of_terms;
use crate::{Mono, Poly, PolyFault, terms};
use std::alloc::{AllocError, Global};
use tcl_num::saturating_product;
use tcl_ring::Ring;

/// The product with an element of the ring.
pub fn scale<R: Ring>(ring: &R, c: &R::Elem, a: &Poly<R>) -> Result<Poly<R>, PolyFault>
    requires { p.IsOver (R.modulus_of ring.now) (R.amount ring.now) a.now }
    ensures product { IfOk result (λ s. p.terms_of (R.amount ring.now) s ≡ p.scaled (r.reduced_by (R.modulus_of ring.now)) ([], R.amount ring.now c.now) (p.terms_of (R.amount ring.now) a.now)) }
    ensures over { IfOk result (λ s. p.IsOver (R.modulus_of ring.now) (R.amount ring.now) s) }
    ensures coefficients { IfOk result (λ s. (m : Monomial) → p.coefficient (p.terms_of (R.amount ring.now) s) m ≡ r.reduced_by (R.modulus_of ring.now) (R.amount ring.now c.now *ℤ p.coefficient (p.terms_of (R.amount ring.now) a.now) m)) }
    ensures values { IfOk result (λ s. (point : ℕ → ℤ) → r.reduced_by (R.modulus_of ring.now) (p.value_of point (p.terms_of (R.amount ring.now) s)) ≡ r.reduced_by (R.modulus_of ring.now) (R.amount ring.now c.now *ℤ p.value_of point (p.terms_of (R.amount ring.now) a.now))) }
    ensures wide { result ≡ Err Wide → r.is_wide (R.modulus_of ring.now) (unsigned_abs (R.amount ring.now c.now) * p.norm_of (p.terms_of (R.amount ring.now) a.now)) ≡ true }
    ensures not_wide { IfOk result (λ _. r.is_wide (R.modulus_of ring.now) (unsigned_abs (R.amount ring.now c.now) * p.norm_of (p.terms_of (R.amount ring.now) a.now)) ≡ false) }
{
    let norm = saturating_product(
        ring.value(c).unsigned_abs(),
        norm_of_terms(ring, terms(a)),
        LIMIT,
    );
    if is_wide(ring, norm) {
        return Err(PolyFault::Wide);
    }
    let alloc = a.allocator();
    let _degree = degree_of_terms(terms(a));
    let terms = scale_terms(alloc, ring, &Mono::new(alloc), c, terms(a))?;
    Ok(Poly { terms })
}

/// The product. It takes no more than a constant times n * log n steps, where n is the product of the two lengths.
pub fn mul<R: Ring>(ring: &R, a: &Poly<R>, b: &Poly<R>) -> Result<Poly<R>, PolyFault>
    requires first { p.IsOver (R.modulus_of ring.now) (R.amount ring.now) a.now }
    requires second { p.IsOver (R.modulus_of ring.now) (R.amount ring.now) b.now }
    requires degrees { p.degree_of a.now + p.degree_of b.now ≤ 1024 }
    ensures product { IfOk result (λ s. p.terms_of (R.amount ring.now) s ≡ p.product_of (r.reduced_by (R.modulus_of ring.now)) (p.terms_of (R.amount ring.now) a.now) (p.terms_of (R.amount ring.now) b.now)) }
    ensures over { IfOk result (λ s. p.IsOver (R.modulus_of ring.now) (R.amount ring.now) s) }
    ensures coefficients { IfOk result (λ s. (m : Monomial) → p.coefficient (p.terms_of (R.amount ring.now) s) m ≡ r.reduced_by (R.modulus_of ring.now) (p.product_coefficient (p.terms_of (R.amount ring.now) a.now) (p.terms_of (R.amount ring.now) b.now) m)) }
    ensures values { IfOk result (λ s. (point : ℕ → ℤ) → r.reduced_by (R.modulus_of ring.now) (p.value_of point (p.terms_of (R.amount ring.now) s)) ≡ r.reduced_by (R.modulus_of ring.now) (p.value_of point (p.terms_of (R.amount ring.now) a.now) *ℤ p.value_of point (p.terms_of (R.amount ring.now) b.now))) }
    ensures wide { result ≡ Err Wide → r.is_wide (R.modulus_of ring.now) (p.norm_of (p.terms_of (R.amount ring.now) a.now) * p.norm_of (p.terms_of (R.amount ring.now) b.now)) ≡ true }
    ensures not_wide { IfOk result (λ _. r.is_wide (R.modulus_of ring.now) (p.norm_of (p.terms_of (R.amount ring.now) a.now) * p.norm_of (p.terms_of (R.amount ring.now) b.now)) ≡ false) }
{
    let norm = saturating_product(
        norm_of_terms(ring, terms(a)),
        norm_of_terms(ring, terms(b)),
        LIMIT,
    );
    if is_wide(ring, norm) {
        return Err(PolyFault::Wide);
    }
    let terms = multiply(a.allocator(), ring, terms(a), terms(b))?;
    Ok(Poly { terms })
}

/// The product of two sorted lists of terms, where no coefficient can be too great. The shorter one is halved.
pub(crate) fn multiply<R: Ring>(
    alloc: Global,
    ring: &R,
    a: &[(Mono, R::Elem)],
    b: &[(Mono, R::Elem)],
) -> Result<Vec<(Mono, R::Elem)>, AllocError>
    requires first { p.IsOver (R.modulus_of ring.now) (R.amount ring.now) a.now }
    requires second { p.IsOver (R.modulus_of ring.now) (R.amount ring.now) b.now }
    requires degrees { p.degree_of a.now + p.degree_of b.now ≤ 1024 }
    requires fits { r.is_wide (R.modulus_of ring.now) (p.norm_of (p.terms_of (R.amount ring.now) a.now) * p.norm_of (p.terms_of (R.amount ring.now) b.now)) ≡ false }
    ensures { IfOk result (λ s. p.terms_of (R.amount ring.now) s.items ≡ p.product_of (r.reduced_by (R.modulus_of ring.now)) (p.terms_of (R.amount ring.now) a.now) (p.terms_of (R.amount ring.now) b.now)) }
{
    if a.len() <= b.len() {
        let product = multiply_terms(alloc, ring, a, b)?;
        Ok(product)
    } else {
        let turned = multiply_terms(alloc, ring, b, a)?;
        Ok(turned)
    }
}

/// The same by the halves of the first list.
fn multiply_terms<R: Ring>(
    alloc: Global,
    ring: &R,
    a: &[(Mono, R::Elem)],
    b: &[(Mono, R::Elem)],
) -> Result<Vec<(Mono, R::Elem)>, AllocError>
    requires first { p.IsOver (R.modulus_of ring.now) (R.amount ring.now) a.now }
    requires second { p.IsOver (R.modulus_of ring.now) (R.amount ring.now) b.now }
    requires degrees { p.degree_of a.now + p.degree_of b.now ≤ 1024 }
    requires fits { r.is_wide (R.modulus_of ring.now) (p.norm_of (p.terms_of (R.amount ring.now) a.now) * p.norm_of (p.terms_of (R.amount ring.now) b.now)) ≡ false }
    ensures { IfOk result (λ s. p.terms_of (R.amount ring.now) s.items ≡ p.product_of (r.reduced_by (R.modulus_of ring.now)) (p.terms_of (R.amount ring.now) a.now) (p.terms_of (R.amount ring.now) b.now)) }
{
    if a.len() == 0 {
        return Ok(Vec::new(alloc));
    }
    if a.len() == 1 {
        let term: &(Mono, R::Elem) = &a[0];
        let row = scale_terms(alloc, ring, &term.0, &term.1, b)?;
        return Ok(row);
    }
    let (front, back) = a.split_at(a.len() / 2);
    let mut high = multiply_terms(alloc, ring, front, b)?;
    let mut low = multiply_terms(alloc, ring, back, b)?;
    let product = merge_moving(alloc, ring, &mut high, &mut low)?;
    Ok(product)
}

/// The product with one term, where no coefficient can be too great.
fn scale_terms<R: Ring>(
    alloc: Global,
    ring: &R,
    mono: &Mono,
    c: &R::Elem,
    a: &[(Mono, R::Elem)],
) -> Result<Vec<(Mono, R::Elem)>, AllocError>
    requires over { p.IsOver (R.modulus_of ring.now) (R.amount ring.now) a.now }
    requires degrees { m.degree mono.now + p.degree_of a.now < 2 ^ 32 }
    requires fits { r.is_wide (R.modulus_of ring.now) (unsigned_abs (R.amount ring.now c.now) * p.norm_of (p.terms_of (R.amount ring.now) a.now)) ≡ false }
    ensures { IfOk result (λ s. p.terms_of (R.amount ring.now) s.items ≡ p.scaled (r.reduced_by (R.modulus_of ring.now)) (mono.now, R.amount ring.now c.now) (p.terms_of (R.amount ring.now) a.now)) }
{
    let mut row = Vec::with_capacity(alloc, a.len())?;
    for term in a {
        let term: &(Mono, R::Elem) = term;
        let coefficient = product_of_elements(ring, c, &term.1);
        push_term(ring, &mut row, mono.times(&term.0)?, coefficient)?;
    }
    Ok(row)
}
