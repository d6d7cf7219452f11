// The sum of a polynomial and a constant times another one, where only what is left after cancellation has to fit.

ghost use Rattle.std.specs.Prelude.{◌≡◌, [], ◌∷◌, ◌++◌, true, false, ◌+ℤ◌, ◌*ℤ◌, unsigned_abs, OnOk, IfOk, Err};
ghost use Rattle.tcl_ring.specs.Reduction as r;
ghost use Rattle.tcl_poly.specs.Polynomial as p;
ghost use Rattle.tcl_poly.specs.declared.poly.PolyFault.TheVariants.{Wide};

use crate::addition::next_side;
use crate::element::{is_wide, push_copy, push_term};
use crate::{Mono, Poly, PolyFault, terms};
use std::alloc::Global;
use std::cmp::Ordering;
use tcl_ring::Ring;

/// The sum of `a` and `c` times `b`. It is too great exactly where a coefficient of the result is: the products alone may
/// be greater.
pub fn add_multiple<R: Ring>(
    ring: &R,
    a: &Poly<R>,
    c: &R::Elem,
    b: &Poly<R>,
) -> Result<Poly<R>, PolyFault>
    requires first { p.IsOver (R.modulus_of ring.now) (R.amount ring.now) a.now }
    requires second { p.IsOver (R.modulus_of ring.now) (R.amount ring.now) b.now }
    ensures sum { IfOk result (λ s. p.terms_of (R.amount ring.now) s ≡ p.sum_of (r.reduced_by (R.modulus_of ring.now)) (p.terms_of (R.amount ring.now) a.now) (p.scaled (r.reduced_by (R.modulus_of ring.now)) ([], R.amount ring.now c.now) (p.terms_of (R.amount ring.now) b.now))) }
    ensures over { IfOk result (λ s. p.IsOver (R.modulus_of ring.now) (R.amount ring.now) s) }
    ensures wide { result ≡ Err Wide → p.has_wide (R.modulus_of ring.now) (p.sum_of (r.reduced_by (R.modulus_of ring.now)) (p.terms_of (R.amount ring.now) a.now) (p.scaled (r.reduced_by (R.modulus_of ring.now)) ([], R.amount ring.now c.now) (p.terms_of (R.amount ring.now) b.now))) ≡ true }
    ensures not_wide { IfOk result (λ _. p.has_wide (R.modulus_of ring.now) (p.sum_of (r.reduced_by (R.modulus_of ring.now)) (p.terms_of (R.amount ring.now) a.now) (p.scaled (r.reduced_by (R.modulus_of ring.now)) ([], R.amount ring.now c.now) (p.terms_of (R.amount ring.now) b.now))) ≡ false) }
{
    let terms = merge_multiple(a.allocator(), ring, terms(a), c, terms(b))?;
    Ok(Poly { terms })
}

fn merge_multiple<R: Ring>(
    alloc: Global,
    ring: &R,
    a: &[(Mono, R::Elem)],
    c: &R::Elem,
    b: &[(Mono, R::Elem)],
) -> Result<Vec<(Mono, R::Elem)>, PolyFault>
    requires first { p.IsOver (R.modulus_of ring.now) (R.amount ring.now) a.now }
    requires second { p.IsOver (R.modulus_of ring.now) (R.amount ring.now) b.now }
    ensures sum { IfOk result (λ s. p.terms_of (R.amount ring.now) s.items ≡ p.sum_of (r.reduced_by (R.modulus_of ring.now)) (p.terms_of (R.amount ring.now) a.now) (p.scaled (r.reduced_by (R.modulus_of ring.now)) ([], R.amount ring.now c.now) (p.terms_of (R.amount ring.now) b.now))) }
    ensures wide { result ≡ Err Wide → p.has_wide (R.modulus_of ring.now) (p.sum_of (r.reduced_by (R.modulus_of ring.now)) (p.terms_of (R.amount ring.now) a.now) (p.scaled (r.reduced_by (R.modulus_of ring.now)) ([], R.amount ring.now c.now) (p.terms_of (R.amount ring.now) b.now))) ≡ true }
    ensures not_wide { IfOk result (λ _. p.has_wide (R.modulus_of ring.now) (p.sum_of (r.reduced_by (R.modulus_of ring.now)) (p.terms_of (R.amount ring.now) a.now) (p.scaled (r.reduced_by (R.modulus_of ring.now)) ([], R.amount ring.now c.now) (p.terms_of (R.amount ring.now) b.now))) ≡ false) }
{
    let mut sum = Vec::new(alloc);
    let mut i = 0;
    let mut j = 0;
    while i < a.len() || j < b.len() {
        match next_side(a, i, b, j) {
            Ordering::Greater => {
                push_first(ring, &mut sum, &a[i])?;
                i += 1;
            }
            Ordering::Less => {
                push_second(ring, &mut sum, c, &b[j])?;
                j += 1;
            }
            Ordering::Equal => {
                push_both(ring, &mut sum, &a[i], c, &b[j])?;
                i += 1;
                j += 1;
            }
        }
    }
    Ok(sum)
}

/// Adds a copy of the term at the end.
fn push_first<R: Ring>(
    ring: &R,
    sum: &mut Vec<(Mono, R::Elem)>,
    term: &(Mono, R::Elem),
) -> Result<(), PolyFault>
    ensures pushed { OnOk result (sum.new.items ≡ sum.old.items ++ term.now ∷ []) }
    ensures wide { result ≡ Err Wide → r.is_wide (R.modulus_of ring.now) (unsigned_abs (R.amount ring.now term.now.1)) ≡ true }
    ensures not_wide { OnOk result (r.is_wide (R.modulus_of ring.now) (unsigned_abs (R.amount ring.now term.now.1)) ≡ false) }
{
    if is_wide(ring, ring.value(&term.1).unsigned_abs()) {
        return Err(PolyFault::Wide);
    }
    push_copy(sum, term)?;
    Ok(())
}

/// Adds the term times the constant at the end, unless its coefficient is 0.
fn push_second<R: Ring>(
    ring: &R,
    sum: &mut Vec<(Mono, R::Elem)>,
    c: &R::Elem,
    term: &(Mono, R::Elem),
) -> Result<(), PolyFault>
    ensures pushed { OnOk result (p.terms_of (R.amount ring.now) sum.new.items ≡ p.terms_of (R.amount ring.now) sum.old.items ++ p.front term.now.0 (r.reduced_by (R.modulus_of ring.now) (R.amount ring.now c.now *ℤ R.amount ring.now term.now.1)) []) }
    ensures wide { result ≡ Err Wide → r.is_wide (R.modulus_of ring.now) (unsigned_abs (R.amount ring.now c.now *ℤ R.amount ring.now term.now.1)) ≡ true }
    ensures not_wide { OnOk result (r.is_wide (R.modulus_of ring.now) (unsigned_abs (R.amount ring.now c.now *ℤ R.amount ring.now term.now.1)) ≡ false) }
{
    match ring.mul(c, &term.1) {
        Ok(product) => push_element(ring, sum, &term.0, product),
        Err(_) => Err(PolyFault::Wide),
    }
}

/// Adds the first term and the constant times the second, of the same monomial, at the end, unless their sum is 0.
fn push_both<R: Ring>(
    ring: &R,
    sum: &mut Vec<(Mono, R::Elem)>,
    first: &(Mono, R::Elem),
    c: &R::Elem,
    second: &(Mono, R::Elem),
) -> Result<(), PolyFault>
    ensures pushed { OnOk result (p.terms_of (R.amount ring.now) sum.new.items ≡ p.terms_of (R.amount ring.now) sum.old.items ++ p.front second.now.0 (r.reduced_by (R.modulus_of ring.now) (R.amount ring.now first.now.1 +ℤ R.amount ring.now c.now *ℤ R.amount ring.now second.now.1)) []) }
    ensures wide { result ≡ Err Wide → r.is_wide (R.modulus_of ring.now) (unsigned_abs (R.amount ring.now first.now.1 +ℤ R.amount ring.now c.now *ℤ R.amount ring.now second.now.1)) ≡ true }
    ensures not_wide { OnOk result (r.is_wide (R.modulus_of ring.now) (unsigned_abs (R.amount ring.now first.now.1 +ℤ R.amount ring.now c.now *ℤ R.amount ring.now second.now.1)) ≡ false) }
{
    match ring.add_product(&first.1, c, &second.1) {
        Ok(total) => push_element(ring, sum, &second.0, total),
        Err(_) => Err(PolyFault::Wide),
    }
}

fn push_element<R: Ring>(
    ring: &R,
    sum: &mut Vec<(Mono, R::Elem)>,
    mono: &Mono,
    coefficient: R::Elem,
) -> Result<(), PolyFault>
    ensures pushed { OnOk result (p.terms_of (R.amount ring.now) sum.new.items ≡ p.terms_of (R.amount ring.now) sum.old.items ++ p.front mono.now (R.amount ring.now coefficient) []) }
    ensures not_wide { result ≡ Err Wide → ⊥ }
{
    push_term(ring, sum, mono.copy()?, coefficient)?;
    Ok(())
}
