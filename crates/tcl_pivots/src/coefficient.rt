// The coefficient of a monomial in a polynomial, found by halves.

ghost use Rattle.std.specs.Prelude.{◌≡◌, pos, MatchOption};
ghost use Rattle.tcl_poly.specs.Polynomial as p;

use std::cmp::Ordering;
use tcl_poly::{Mono, Poly, terms};
use tcl_ring::Ring;

/// The coefficient of the monomial, where it occurs.
pub(crate) fn coefficient_of<R: Ring>(ring: &R, a: &Poly<R>, mono: &Mono) -> Option<R::Elem>
    requires { p.IsOver (R.modulus_of ring.now) (R.amount ring.now) a.now }
    ensures { MatchOption result (p.coefficient (p.terms_of (R.amount ring.now) a.now) mono.now ≡ pos 0) (λ e. (R.amount ring.now e ≡ p.coefficient (p.terms_of (R.amount ring.now) a.now) mono.now) × (R.amount ring.now e ≡ pos 0 → ⊥)) }
{
    let list = terms(a);
    let _degree = mono.degree();
    let mut low = 0;
    let mut high = list.len();
    while low < high {
        let middle = low + (high - low) / 2;
        let term: &(Mono, R::Elem) = &list[middle];
        match term.0.compare(mono) {
            Ordering::Greater => low = middle + 1,
            Ordering::Equal => return Some(term.1),
            Ordering::Less => high = middle,
        }
    }
    None
}
