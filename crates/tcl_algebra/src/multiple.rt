//! Polynomials less a multiple of the unknown of a line.

ghost use Rattle.std.specs.Prelude.{◌≡◌, ◌+◌, false, unsigned_abs, IfOk};
ghost use Rattle.tcl_ring.specs.Reduction as r;
ghost use Rattle.tcl_poly.specs.Polynomial as p;
ghost use Rattle.tcl_term_poly.specs.TermPolynomial as words;

use std::alloc::{AllocError, Global};
use tcl_poly::{Poly, PolyFault, Unknown, scale, unknown};
use tcl_ring::Ring;
use tcl_term_poly::difference;

/// The unknown of the line of a place.
fn quotient<R: Ring>(alloc: Global, ring: &R, place: u32) -> Result<Poly<R>, AllocError>
    ensures unknown { IfOk result (λ x. p.terms_of (R.amount ring.now) x ≡ p.power_of (r.reduced_by (R.modulus_of ring.now)) (words.quotient_key place) 1) }
    ensures over { IfOk result (λ x. p.IsOver (R.modulus_of ring.now) (R.amount ring.now) x) }
{
    match unknown(alloc, ring, Unknown::Quot(place)) {
        Ok(x) => Ok(x),
        Err(PolyFault::Memory) => Err(AllocError),
        Err(PolyFault::Wide) => unreachable!(),
    }
}

/// The polynomial less `m` times the unknown of the line of a place.
pub(crate) fn less_multiple<R: Ring>(
    alloc: Global,
    ring: &R,
    a: Poly<R>,
    m: i128,
    place: u32,
) -> Result<Poly<R>, AllocError>
    requires over { p.IsOver (R.modulus_of ring.now) (R.amount ring.now) a }
    requires fits { r.is_wide (R.modulus_of ring.now) (p.norm_of (p.terms_of (R.amount ring.now) a) + unsigned_abs m) ≡ false }
    ensures polynomial { IfOk result (λ x. p.terms_of (R.amount ring.now) x ≡ words.less_multiple (r.reduced_by (R.modulus_of ring.now)) (p.terms_of (R.amount ring.now) a) m place) }
    ensures over { IfOk result (λ x. p.IsOver (R.modulus_of ring.now) (R.amount ring.now) x) }
{
    let quotient = quotient(alloc, ring, place)?;
    let factor = match ring.number(m) {
        Ok(factor) => factor,
        Err(_) => unreachable!(),
    };
    match scale(ring, &factor, &quotient) {
        Ok(multiple) => difference(ring, a, &multiple),
        Err(PolyFault::Memory) => Err(AllocError),
        Err(PolyFault::Wide) => unreachable!(),
    }
}
