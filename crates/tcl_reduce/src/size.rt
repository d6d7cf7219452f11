// What a substitution costs, counted before anything is made. Counts stay at their ends where they are greater.

ghost use Rattle.std.specs.Prelude.{◌≡◌, ◌+◌, ◌*◌, ◌^◌, length, min};
ghost use Rattle.tcl_poly.specs.Polynomial as p;
ghost use Rattle.tcl_reduce.specs.Parts.{by_power};
ghost use Rattle.tcl_reduce.specs.Fits.{values_by};
ghost use Rattle.tcl_reduce.specs.Substitution as s;

use tcl_num::{saturating_product, saturating_sum};
use tcl_poly::{Poly, degree, is_zero, norm_of_terms, terms};
use tcl_ring::Ring;

// The magnitude at which norms stop.
pub(crate) const LIMIT: u128 = 1 << 127;

// The number at which degrees and counts of terms stop.
const END: u128 = (1 << 32) - 1;

/// The bound of the norms that the substitution of `d` adds, where the coefficients reach up to the power `top`.
pub(crate) fn bound<R: Ring>(ring: &R, d: &Poly<R>, parts: &[Poly<R>], top: u32) -> u128
    requires { length parts.now ≡ top + 1 }
    ensures { result ≡ min (s.bound_of (p.terms_of (R.amount ring.now) d.now) (values_by (R.amount ring.now) (by_power parts.now)) top) (2 ^ 127) }
{
    let norm = norm_of_terms(ring, terms(d));
    let growth = norm.max(1);
    let last = saturating_sum(1, norm, LIMIT);
    let mut bound = 0;
    let mut power = 1;
    for k in 0..top {
        let part: &Poly<R> = &parts[k as usize + 1];
        let row = row_bound(k as u128 + 1, norm_of_terms(ring, terms(part)), power, last);
        bound = saturating_sum(bound, row, LIMIT);
        power = saturating_product(power, growth, LIMIT);
    }
    bound
}

fn row_bound(k: u128, norm: u128, power: u128, last: u128) -> u128
    ensures { result ≡ min (min (min (k * norm) (2 ^ 127) * power) (2 ^ 127) * last) (2 ^ 127) }
{
    saturating_product(
        saturating_product(saturating_product(k, norm, LIMIT), power, LIMIT),
        last,
        LIMIT,
    )
}

/// The greatest degree that the substitution can make.
pub(crate) fn deepest<R: Ring>(d: &Poly<R>, parts: &[Poly<R>]) -> u32
    ensures { result ≡ min (s.degree_by d.now (by_power parts.now) (length parts.now)) 4294967295 }
{
    let depth = degree(d) as u128;
    let mut deepest = 0;
    for k in 0..parts.len() {
        deepest = row_degree(&parts[k], k as u128, depth).max(deepest);
    }
    deepest as u32
}

fn row_degree<R: Ring>(part: &Poly<R>, k: u128, depth: u128) -> u128
    ensures { result ≡ min (s.if_any part.now (p.degree_of part.now + k * depth)) 4294967295 }
{
    if is_zero(part) {
        return 0;
    }
    saturating_sum(degree(part) as u128, saturating_product(k, depth, END), END)
}

/// The number of terms that the substitution makes, before any are merged.
pub(crate) fn count<R: Ring>(d: &Poly<R>, parts: &[Poly<R>]) -> u32
    ensures { result ≡ min (s.terms_by d.now (by_power parts.now) (length parts.now)) 4294967295 }
{
    let length = terms(d).len() as u128;
    let mut count = 0;
    let mut power = 1;
    for k in 0..parts.len() {
        let part: &Poly<R> = &parts[k];
        let row = saturating_product(terms(part).len() as u128, power, END);
        count = saturating_sum(count, row, END);
        power = saturating_product(power, length, END);
    }
    count as u32
}
