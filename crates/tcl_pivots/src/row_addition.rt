// A row added to the kept rows.

ghost use Rattle.std.specs.Prelude.{◌≡◌, ◌≤◌, [], ◌∷◌, ◌++◌, length, IfOk, OnOk, MatchOption};
ghost use Rattle.std.specs.List.{AllByRecursion};
ghost use Rattle.tcl_ring.specs.Reduction as r;
ghost use Rattle.tcl_poly.specs.Monomial as m;
ghost use Rattle.tcl_poly.specs.Polynomial as p;
ghost use Rattle.tcl_reduce.specs.Row as s;
ghost use Rattle.tcl_pivots.specs.CofactorLists.{equations_of};
ghost use Rattle.tcl_pivots.specs.Kept.{AreKept};
ghost use Rattle.tcl_pivots.specs.RowLaws.{Lacks};
ghost use Rattle.tcl_pivots.specs.RowState.{row_shown, pivot_shown, IsSound};
ghost use Rattle.tcl_pivots.specs.Held.{note_shown, pivots_shown, rows_shown, shown_where, front_monomial, front_coefficient, IsPlace, IsInserted, AreSorted, AreHeld};

use crate::lookup::row_not_above;
use crate::row_reduction::reduce_row;
use crate::{Note, Pivot, Row, Rows};
use std::alloc::{AllocError, Global};
use std::cmp::Ordering;
use tcl_poly::{Poly, terms};
use tcl_ring::Ring;

impl<R: Ring> Rows<R> {
    /// Reduces the row by the kept rows, from the greatest leading monomial down; nothing is left where a step is wide.
    pub fn reduce(
        &self,
        alloc: Global,
        ring: &R,
        equations: &[Poly<R>],
        a: Row<R>,
    ) -> Result<Option<Row<R>>, AllocError>
        requires equations { AllByRecursion (p.IsPolynomial (r.reduced_by (R.modulus_of ring.now))) (equations_of (R.amount ring.now) equations.now) }
        requires row { IsSound (R.modulus_of ring.now) (equations_of (R.amount ring.now) equations.now) (row_shown (R.amount ring.now) a) }
        requires held { AreHeld (R.modulus_of ring.now) (equations_of (R.amount ring.now) equations.now) (R.amount ring.now) self.now }
        ensures reduced { IfOk result (λ o. s.row_by (R.modulus_of ring.now) (equations_of (R.amount ring.now) equations.now) (s.by_leading (rows_shown (R.amount ring.now) self.now).kept) (row_shown (R.amount ring.now) a)
            ≡ shown_where (R.amount ring.now) o) }
        ensures sound { IfOk result (λ o. MatchOption o (Unit {0}) (λ b. IsSound (R.modulus_of ring.now) (equations_of (R.amount ring.now) equations.now) (row_shown (R.amount ring.now) b))) }
    {
        reduce_row(
            alloc,
            ring,
            equations,
            self.kept.as_slice(),
            self.order.as_slice(),
            a,
        )
    }

    /// Reduces the row by the kept rows and keeps what is left, unless that is 0. It is left out, with a note, where a step is
    /// wide or its leading coefficient has no inverse.
    pub fn add_row(
        &mut self,
        alloc: Global,
        ring: &R,
        equations: &[Poly<R>],
        a: Row<R>,
    ) -> Result<(), AllocError>
        requires equations { AllByRecursion (p.IsPolynomial (r.reduced_by (R.modulus_of ring.now))) (equations_of (R.amount ring.now) equations.now) }
        requires row { IsSound (R.modulus_of ring.now) (equations_of (R.amount ring.now) equations.now) (row_shown (R.amount ring.now) a) }
        requires held { AreHeld (R.modulus_of ring.now) (equations_of (R.amount ring.now) equations.now) (R.amount ring.now) self.old }
        ensures added { OnOk result (rows_shown (R.amount ring.now) self.new
            ≡ s.add_row (R.modulus_of ring.now) (equations_of (R.amount ring.now) equations.now) (row_shown (R.amount ring.now) a) (rows_shown (R.amount ring.now) self.old)) }
        ensures held { OnOk result (AreHeld (R.modulus_of ring.now) (equations_of (R.amount ring.now) equations.now) (R.amount ring.now) self.new) }
    {
        let place = a.place;
        match self.reduce(alloc, ring, equations, a)? {
            Some(left) => self.keep(ring, left),
            None => self.push_note(Note::Wide(place)),
        }
    }

    /// Keeps a reduced row whose leading coefficient has an inverse, notes one whose has none, and drops one that is 0.
    fn keep(&mut self, ring: &R, a: Row<R>) -> Result<(), AllocError>
        requires over { p.IsOver (R.modulus_of ring.now) (R.amount ring.now) a.poly }
        requires kept { AreKept (r.reduced_by (R.modulus_of ring.now)) (pivots_shown (R.amount ring.now) self.old.kept) }
        requires sorted { AreSorted (pivots_shown (R.amount ring.now) self.old.kept) self.old.order }
        requires lacks { AllByRecursion (λ q. Lacks (r.reduced_by (R.modulus_of ring.now)) (p.coefficient (p.terms_of (R.amount ring.now) a.poly)) q.row.poly) (pivots_shown (R.amount ring.now) self.old.kept) }
        ensures kept { OnOk result (rows_shown (R.amount ring.now) self.new
            ≡ s.keep (R.modulus_of ring.now) (row_shown (R.amount ring.now) a) (p.terms_of (R.amount ring.now) a.poly) (rows_shown (R.amount ring.now) self.old)) }
        ensures sorted { OnOk result (AreSorted (pivots_shown (R.amount ring.now) self.new.kept) self.new.order) }
    {
        match first_coefficient(&a.poly) {
            None => Ok(()),
            Some(coefficient) => match ring.inverse(&coefficient) {
                Some(inverse) => self.insert(ring, Pivot { row: a, inverse }),
                None => self.push_note(no_inverse(ring, &coefficient)),
            },
        }
    }

    /// Adds a row at the end, and its number to the order.
    fn insert(&mut self, ring: &R, pivot: Pivot<R>) -> Result<(), AllocError>
        requires rows { AreKept (r.reduced_by (R.modulus_of ring.now)) (pivots_shown (R.amount ring.now) self.old.kept) }
        requires sorted { AreSorted (pivots_shown (R.amount ring.now) self.old.kept) self.old.order }
        requires some { pivot.row.poly ≡ [] → ⊥ }
        ensures kept { OnOk result (self.new.kept ≡ self.old.kept ++ pivot ∷ []) }
        ensures notes { OnOk result (self.new.notes ≡ self.old.notes) }
        ensures order { OnOk result (IsInserted (pivots_shown (R.amount ring.now) self.old.kept) self.old.order self.new.order (length self.old.kept) (pivot_shown (R.amount ring.now) pivot)) }
    {
        let place = place_of(
            ring,
            self.kept.as_slice(),
            self.order.as_slice(),
            &pivot.row.poly,
        );
        let number = self.kept.len();
        self.order.insert(place, number)?;
        self.kept.push(pivot)
    }
}

/// The note of a leading coefficient without an inverse.
fn no_inverse<R: Ring>(ring: &R, coefficient: &R::Elem) -> Note
    ensures { note_shown result ≡ s.NoInverse (R.amount ring.now coefficient.now) }
{
    Note::NoInverse(ring.value(coefficient))
}

/// The coefficient in front, where there is one.
fn first_coefficient<R: Ring>(a: &Poly<R>) -> Option<R::Elem>
    ensures { result ≡ front_coefficient a.now }
{
    match terms(a).first() {
        Some(term) => Some(term.1),
        None => None,
    }
}

/// The first place of the order whose row has a lesser leading monomial than the polynomial. The rows with greater ones are
/// passed by halves.
fn place_of<R: Ring>(ring: &R, kept: &[Pivot<R>], order: &[usize], a: &Poly<R>) -> usize
    requires kept { AreKept (r.reduced_by (R.modulus_of ring.now)) (pivots_shown (R.amount ring.now) kept.now) }
    requires sorted { AreSorted (pivots_shown (R.amount ring.now) kept.now) order.now }
    requires some { a.now ≡ [] → ⊥ }
    ensures bound { result ≤ length order.now }
    ensures place { (q : s.Pivot) → s.leading q.row.poly ≡ front_monomial a.now → IsPlace (pivots_shown (R.amount ring.now) kept.now) order.now q result }
{
    let start = row_not_above(ring, kept, order, a);
    let mut i = start;
    while i < order.len() {
        let pivot: &Pivot<R> = &kept[order[i]];
        match compare_leading(a, &pivot.row.poly) {
            Ordering::Less => i += 1,
            Ordering::Equal => i += 1,
            Ordering::Greater => return i,
        }
    }
    i
}

/// The order of the leading monomials of two polynomials that are not zero.
fn compare_leading<R: Ring>(a: &Poly<R>, b: &Poly<R>) -> Ordering
    requires first { a.now ≡ [] → ⊥ }
    requires second { b.now ≡ [] → ⊥ }
    ensures { result ≡ m.order (front_monomial a.now) (front_monomial b.now) }
{
    match terms(a).first() {
        Some(first) => match terms(b).first() {
            Some(second) => first.0.compare(&second.0),
            None => unreachable!(),
        },
        None => unreachable!(),
    }
}
