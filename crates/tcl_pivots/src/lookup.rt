// The next kept row whose leading monomial may occur in a polynomial, found by halves on both sides.

ghost use Rattle.std.specs.Prelude.{◌≡◌, ◌<◌, ◌≤◌, [], length};
ghost use Rattle.tcl_ring.specs.Reduction as r;
ghost use Rattle.tcl_poly.specs.Monomial as m;
ghost use Rattle.tcl_poly.specs.Polynomial as p;
ghost use Rattle.tcl_pivots.specs.CofactorLists.{equations_of};
ghost use Rattle.tcl_pivots.specs.Kept.{AreKept};
ghost use Rattle.tcl_pivots.specs.Held.{front_monomial, pivots_shown, pivots_at, AreSorted};
ghost use Rattle.tcl_pivots.specs.Lookup.{AreGreater, AreAbove, AreAbsent};

use crate::Pivot;
use std::cmp::Ordering;
use tcl_poly::{Mono, Poly, terms};
use tcl_ring::Ring;

/// The first place from that one on whose row's leading monomial may occur in the polynomial, or the end of the order.
fn next_place<R: Ring>(
    ring: &R,
    a: &Poly<R>,
    kept: &[Pivot<R>],
    order: &[usize],
    from: usize,
) -> usize
    requires over { p.IsOver (R.modulus_of ring.now) (R.amount ring.now) a.now }
    requires kept { AreKept (r.reduced_by (R.modulus_of ring.now)) (pivots_shown (R.amount ring.now) kept.now) }
    requires sorted { AreSorted (pivots_shown (R.amount ring.now) kept.now) order.now }
    requires from { from < length order.now }
    ensures first { from ≤ result }
    ensures last { result ≤ length order.now }
    ensures absent { AreAbsent (p.terms_of (R.amount ring.now) a.now) (pivots_at (pivots_shown (R.amount ring.now) kept.now) order.now) from result }
{
    let list = terms(a);
    let pivot: &Pivot<R> = &kept[order[from]];
    let at = first_not_above(ring, a, &pivot.row.poly);
    if at == list.len() {
        return order.len();
    }
    let term: &(Mono, R::Elem) = &list[at];
    place_not_above(ring, kept, order, &term.0, from)
}

/// The same from the end of the order too, which is its own next place.
pub(crate) fn seek<R: Ring>(
    ring: &R,
    a: &Poly<R>,
    kept: &[Pivot<R>],
    order: &[usize],
    from: usize,
) -> usize
    requires over { p.IsOver (R.modulus_of ring.now) (R.amount ring.now) a.now }
    requires kept { AreKept (r.reduced_by (R.modulus_of ring.now)) (pivots_shown (R.amount ring.now) kept.now) }
    requires sorted { AreSorted (pivots_shown (R.amount ring.now) kept.now) order.now }
    requires from { from ≤ length order.now }
    ensures first { from ≤ result }
    ensures last { result ≤ length order.now }
    ensures absent { AreAbsent (p.terms_of (R.amount ring.now) a.now) (pivots_at (pivots_shown (R.amount ring.now) kept.now) order.now) from result }
{
    if from < order.len() {
        next_place(ring, a, kept, order, from)
    } else {
        from
    }
}

/// A place of the polynomial's terms before which all are greater than the leading monomial of the other polynomial: the first of
/// those that are not.
fn first_not_above<R: Ring>(ring: &R, a: &Poly<R>, b: &Poly<R>) -> usize
    requires over { p.IsOver (R.modulus_of ring.now) (R.amount ring.now) a.now }
    requires some { b.now ≡ [] → ⊥ }
    ensures last { result ≤ length a.now }
    ensures greater { AreGreater a.now (front_monomial b.now) result }
{
    match terms(b).first() {
        Some(first) => term_not_above(ring, a, &first.0),
        None => unreachable!(),
    }
}

/// The same for a monomial.
fn term_not_above<R: Ring>(ring: &R, a: &Poly<R>, mono: &Mono) -> usize
    requires over { p.IsOver (R.modulus_of ring.now) (R.amount ring.now) a.now }
    ensures last { result ≤ length a.now }
    ensures greater { AreGreater a.now mono.now result }
{
    let list = terms(a);
    let _degree = mono.degree();
    let mut low = 0;
    let mut high = list.len();
    while low < high {
        let middle = low + (high - low) / 2;
        let term: &(Mono, R::Elem) = &list[middle];
        match term.0.compare(mono) {
            Ordering::Greater => low = middle + 1,
            Ordering::Equal => high = middle,
            Ordering::Less => high = middle,
        }
    }
    low
}

/// The first place of the order whose row's leading monomial is not greater than that of the polynomial, or the end of the order.
pub(crate) fn row_not_above<R: Ring>(
    ring: &R,
    kept: &[Pivot<R>],
    order: &[usize],
    a: &Poly<R>,
) -> usize
    requires kept { AreKept (r.reduced_by (R.modulus_of ring.now)) (pivots_shown (R.amount ring.now) kept.now) }
    requires sorted { AreSorted (pivots_shown (R.amount ring.now) kept.now) order.now }
    requires some { a.now ≡ [] → ⊥ }
    ensures last { result ≤ length order.now }
    ensures monomial { m.IsMonomial (front_monomial a.now) }
    ensures above { AreAbove (pivots_at (pivots_shown (R.amount ring.now) kept.now) order.now) (front_monomial a.now) 0 result }
{
    match terms(a).first() {
        Some(first) => {
            let _degree = first.0.degree();
            place_not_above(ring, kept, order, &first.0, 0)
        }
        None => unreachable!(),
    }
}

/// The first place from that one on whose row's leading monomial is not greater than the monomial, or the end of the order.
fn place_not_above<R: Ring>(
    ring: &R,
    kept: &[Pivot<R>],
    order: &[usize],
    mono: &Mono,
    from: usize,
) -> usize
    requires kept { AreKept (r.reduced_by (R.modulus_of ring.now)) (pivots_shown (R.amount ring.now) kept.now) }
    requires sorted { AreSorted (pivots_shown (R.amount ring.now) kept.now) order.now }
    requires from { from ≤ length order.now }
    ensures first { from ≤ result }
    ensures last { result ≤ length order.now }
    ensures above { AreAbove (pivots_at (pivots_shown (R.amount ring.now) kept.now) order.now) mono.now from result }
{
    let _degree = mono.degree();
    let mut low = from;
    let mut high = order.len();
    while low < high {
        let middle = low + (high - low) / 2;
        let pivot: &Pivot<R> = &kept[order[middle]];
        match compare_front(&pivot.row.poly, mono) {
            Ordering::Greater => low = middle + 1,
            Ordering::Equal => high = middle,
            Ordering::Less => high = middle,
        }
    }
    low
}

/// The order of the leading monomial of a polynomial that is not zero, and another monomial.
fn compare_front<R: Ring>(a: &Poly<R>, mono: &Mono) -> Ordering
    requires { a.now ≡ [] → ⊥ }
    ensures { result ≡ m.order (front_monomial a.now) mono.now }
{
    match terms(a).first() {
        Some(first) => first.0.compare(mono),
        None => unreachable!(),
    }
}
