// The greatest monomial at which two polynomials differ: the first place where their lists of terms do.

ghost use Rattle.std.specs.Prelude.{◌≡◌, MatchBool, MatchOption, IfOk};
ghost use Rattle.tcl_poly.specs.Polynomial as p;
ghost use Rattle.tcl_cofactor.specs.Comparison.{IsGreatestDifference};

use std::alloc::AllocError;
use std::cmp::Ordering;
use tcl_poly::{Mono, Poly, terms};
use tcl_ring::Ring;

/// The greatest monomial whose coefficients differ.
pub(crate) fn first_difference<R: Ring>(
    ring: &R,
    f: &Poly<R>,
    g: &Poly<R>,
) -> Result<Option<Mono>, AllocError>
    requires first { p.IsOver (R.modulus_of ring.now) (R.amount ring.now) f.now }
    requires second { p.IsOver (R.modulus_of ring.now) (R.amount ring.now) g.now }
    ensures { IfOk result (λ d. MatchOption d (p.terms_of (R.amount ring.now) f.now ≡ p.terms_of (R.amount ring.now) g.now) (λ m. IsGreatestDifference (p.terms_of (R.amount ring.now) f.now) (p.terms_of (R.amount ring.now) g.now) m)) }
{
    let a = terms(f);
    let b = terms(g);
    let mut k = 0;
    while k < a.len() && k < b.len() {
        let s: &(Mono, R::Elem) = &a[k];
        let t: &(Mono, R::Elem) = &b[k];
        match s.0.compare(&t.0) {
            Ordering::Greater => return Ok(Some(s.0.copy()?)),
            Ordering::Less => return Ok(Some(t.0.copy()?)),
            Ordering::Equal => {
                if same_value(ring, &s.1, &t.1) {
                    k += 1;
                } else {
                    return Ok(Some(s.0.copy()?));
                }
            }
        }
    }
    if k < a.len() {
        let s: &(Mono, R::Elem) = &a[k];
        return Ok(Some(s.0.copy()?));
    }
    if k < b.len() {
        let t: &(Mono, R::Elem) = &b[k];
        return Ok(Some(t.0.copy()?));
    }
    Ok(None)
}

fn same_value<R: Ring>(ring: &R, a: &R::Elem, b: &R::Elem) -> bool
    ensures { MatchBool result (R.amount ring.now a.now ≡ R.amount ring.now b.now) (R.amount ring.now a.now ≡ R.amount ring.now b.now → ⊥) }
{
    if ring.value(a) == ring.value(b) {
        true
    } else {
        false
    }
}
