// A search under way: one product after the other, with a poll before each thousand.

ghost use Rattle.std.specs.Prelude.{◌≡◌, ℕ, ℤ, ◌+◌, ◌<◌, ◌≤◌, ◌∷◌, [], false, ◌==◌, if◌then◌else◌, map, None, IfOk, IfSome, OnOk, OnErr};
ghost use Rattle.std.specs.List.{AllByRecursion};
ghost use Rattle.tcl_ring.specs.Reduction as r;
ghost use Rattle.tcl_poly.specs.Monomial as mono;
ghost use Rattle.tcl_poly.specs.Polynomial as p;
ghost use Rattle.tcl_port.specs.Polling.{counted};
ghost use Rattle.tcl_reduce.specs.Membership as s;
ghost use Rattle.tcl_pivots.specs.CofactorLists.{equations_of};
ghost use Rattle.tcl_pivots.specs.RowState.{row_shown, pivot_shown, IsSound};
ghost use Rattle.tcl_pivots.specs.Held.{rows_shown};
ghost use Rattle.tcl_pivots.specs.TargetState.{target_shown};
ghost use Rattle.tcl_pivots.specs.Held.{note_shown};
ghost use Rattle.tcl_member.specs.Course.{stage_shown, unmarked, turn_of, is_end, IsTurn, IsOn, IsGone};
ghost use Rattle.tcl_member.specs.Answer.{IsMember, IsEndBy, note_where};

use crate::Member;
use crate::multiple::add_multiple;
use std::alloc::{AllocError, Global};
use std::mem;
use tcl_list::Listing;
use tcl_pivots::{Note, Pivot, Rows, Target};
use tcl_poly::{Mono, Poly, is_zero, zero};
use tcl_port::{Poll, Port};
use tcl_ring::Ring;

// The greatest number of products between two polls.
const ROUND: u32 = 1000;

/// What comes after a product.
#[derive(Clone, Copy)]
pub(crate) enum Turn {
    Going,
    // Nothing is left of the claim.
    Zero,
    // As many products were tried as the budget allows.
    Spent,
    // The port answered that the search is not wanted any more.
    Stopped,
}

impl Turn {
    /// Whether the search ends with it.
    pub(crate) fn is_end(&self) -> bool
        ensures { result ≡ is_end self.now }
    {
        match self {
            Turn::Going => false,
            Turn::Zero => true,
            Turn::Spent => true,
            Turn::Stopped => true,
        }
    }
}

/// The rows and what is left of the claim, with the number of products that were tried, and of those that may be before the
/// next poll.
#[derive(Drop)]
pub(crate) struct Search<R: Ring> {
    pub(crate) rows: Rows<R>,
    pub(crate) target: Target<R>,
    pub(crate) tried: u32,
    pub(crate) left: u32,
}

impl<R: Ring> Search<R> {
    /// Tries the product of a kept row with a monomial, and polls the port before, where a round is over.
    pub(crate) fn try_product<P: Port>(
        &mut self,
        alloc: Global,
        ring: &R,
        equations: &[Poly<R>],
        claim: &Poly<R>,
        place: u32,
        budget: u32,
        pivot: &Pivot<R>,
        monomial: &Mono,
        port: &mut P,
    ) -> Result<Turn, AllocError>
        requires equations { AllByRecursion (p.IsPolynomial (r.reduced_by (R.modulus_of ring.now))) (equations_of (R.amount ring.now) equations.now) }
        requires claim { p.IsOver (R.modulus_of ring.now) (R.amount ring.now) claim.now }
        requires pivot { IsSound (R.modulus_of ring.now) (equations_of (R.amount ring.now) equations.now) (row_shown (R.amount ring.now) pivot.now.row) }
        requires some { pivot.now.row.poly ≡ [] → ⊥ }
        requires degree { mono.degree monomial.now + p.degree_of pivot.now.row.poly ≤ 1024 }
        requires on { IsOn (R.modulus_of ring.now) (R.amount ring.now) (equations_of (R.amount ring.now) equations.now) (p.terms_of (R.amount ring.now) claim.now) self.old }
        requires below { self.old.tried < budget }
        ensures gone { IfOk result (λ turn. IsGone (R.modulus_of ring.now) (R.amount ring.now) (equations_of (R.amount ring.now) equations.now) (p.terms_of (R.amount ring.now) claim.now) place budget ((pivot_shown (R.amount ring.now) pivot.now, monomial.now) ∷ []) self.old self.new (P.polls port.old) (P.polls port.new) (P.cancels port.old) (P.cancels port.new) turn) }
        ensures memory { OnErr result (P.cancels port.new ≡ P.cancels port.old) }
    {
        let Some(allowed) = products_allowed(port, self.left) else {
            return Ok(Turn::Stopped);
        };
        self.left = allowed - 1;
        self.add_product(alloc, ring, equations, claim, place, pivot, monomial)?;
        self.tried += 1;
        Ok(self.turn(budget))
    }

    /// Adds the product of a kept row with a monomial as a row, and reduces the claim again where one was added.
    fn add_product(
        &mut self,
        alloc: Global,
        ring: &R,
        equations: &[Poly<R>],
        claim: &Poly<R>,
        place: u32,
        pivot: &Pivot<R>,
        monomial: &Mono,
    ) -> Result<(), AllocError>
        requires equations { AllByRecursion (p.IsPolynomial (r.reduced_by (R.modulus_of ring.now))) (equations_of (R.amount ring.now) equations.now) }
        requires claim { p.IsOver (R.modulus_of ring.now) (R.amount ring.now) claim.now }
        requires pivot { IsSound (R.modulus_of ring.now) (equations_of (R.amount ring.now) equations.now) (row_shown (R.amount ring.now) pivot.now.row) }
        requires some { pivot.now.row.poly ≡ [] → ⊥ }
        requires degree { mono.degree monomial.now + p.degree_of pivot.now.row.poly ≤ 1024 }
        requires on { IsOn (R.modulus_of ring.now) (R.amount ring.now) (equations_of (R.amount ring.now) equations.now) (p.terms_of (R.amount ring.now) claim.now) self.old }
        ensures advanced { OnOk result (stage_shown (R.amount ring.now) self.new
            ≡ unmarked (s.stage_by (R.modulus_of ring.now) (equations_of (R.amount ring.now) equations.now) (p.norm_of (p.terms_of (R.amount ring.now) claim.now)) place (pivot_shown (R.amount ring.now) pivot.now, monomial.now) (stage_shown (R.amount ring.now) self.old))) }
        ensures on { OnOk result (IsOn (R.modulus_of ring.now) (R.amount ring.now) (equations_of (R.amount ring.now) equations.now) (p.terms_of (R.amount ring.now) claim.now) self.new) }
        ensures tried { self.new.tried ≡ self.old.tried }
        ensures left { self.new.left ≡ self.old.left }
    {
        let count = self.rows.kept().len();
        add_multiple(alloc, ring, equations, pivot, monomial, &mut self.rows)?;
        if self.rows.kept().len() == count {
            return Ok(());
        }
        self.settle(alloc, ring, equations, claim, place)
    }

    /// Reduces what is left of the claim by all kept rows.
    pub(crate) fn settle(
        &mut self,
        alloc: Global,
        ring: &R,
        equations: &[Poly<R>],
        claim: &Poly<R>,
        place: u32,
    ) -> Result<(), AllocError>
        requires equations { AllByRecursion (p.IsPolynomial (r.reduced_by (R.modulus_of ring.now))) (equations_of (R.amount ring.now) equations.now) }
        requires claim { p.IsOver (R.modulus_of ring.now) (R.amount ring.now) claim.now }
        requires on { IsOn (R.modulus_of ring.now) (R.amount ring.now) (equations_of (R.amount ring.now) equations.now) (p.terms_of (R.amount ring.now) claim.now) self.old }
        ensures settled { OnOk result (stage_shown (R.amount ring.now) self.new
            ≡ unmarked (s.stage_of (R.modulus_of ring.now) (equations_of (R.amount ring.now) equations.now) (p.norm_of (p.terms_of (R.amount ring.now) claim.now)) place (rows_shown (R.amount ring.now) self.old.rows) (target_shown (R.amount ring.now) false self.old.target))) }
        ensures on { OnOk result (IsOn (R.modulus_of ring.now) (R.amount ring.now) (equations_of (R.amount ring.now) equations.now) (p.terms_of (R.amount ring.now) claim.now) self.new) }
        ensures tried { self.new.tried ≡ self.old.tried }
        ensures left { self.new.left ≡ self.old.left }
    {
        let none = Target {
            poly: zero(alloc),
            cofactors: Listing::new(alloc),
        };
        let target = mem::replace(&mut self.target, none);
        let settled = self
            .rows
            .settle(alloc, ring, equations, claim, place, target)?;
        self.target = settled;
        Ok(())
    }

    /// The answer where the search ended so; `left` is what plain reduction left of the claim.
    pub(crate) fn into_member(self, turn: Turn, budget: u32, left: Poly<R>) -> Member<R>
        ensures answer { (value : R.Elem → ℤ) (found : s.Found) → IsTurn budget found (s.Open (s.first_note (rows_shown value self.rows).notes)) (target_shown value false self.target) turn →
            IsMember value budget (p.terms_of value left) found result }
        ensures end { IsEndBy self.target turn result }
    {
        let Search {
            rows,
            target,
            tried: _,
            left: _,
        } = self;
        match turn {
            Turn::Going => Member::Rest(left, first_note(rows.notes())),
            Turn::Zero => {
                let Target { poly: _, cofactors } = target;
                Member::Cofactors(cofactors)
            }
            Turn::Spent => Member::Spent(budget),
            Turn::Stopped => Member::Stopped,
        }
    }

    /// What comes after the products that were tried.
    fn turn(&self, budget: u32) -> Turn
        ensures { (value : R.Elem → ℤ) → result ≡ turn_of (s.is_nothing (p.terms_of value self.now.target.poly)) self.now.tried budget }
    {
        if is_zero(&self.target.poly) {
            Turn::Zero
        } else if self.tried == budget {
            Turn::Spent
        } else {
            Turn::Going
        }
    }
}

/// The first note, where there is one.
fn first_note(notes: &[Note]) -> Option<Note>
    ensures { note_where result ≡ s.first_note (map note_shown notes.now) }
{
    match notes.first() {
        Some(note) => Some(*note),
        None => None,
    }
}

/// How many products are allowed before the next poll, where `left` are left of a round; none where the port answers that the
/// search is not wanted any more.
fn products_allowed<P: Port>(port: &mut P, left: u32) -> Option<u32>
    ensures polls { P.polls port.new ≡ (if left == 0 then counted (P.polls port.old) else P.polls port.old) }
    ensures go { IfSome result (λ allowed. (allowed ≡ (if left == 0 then 1000 else left)) × (P.cancels port.new ≡ P.cancels port.old)) }
    ensures stop { result ≡ None → (left ≡ 0) × (P.cancels port.new ≡ counted (P.cancels port.old)) }
{
    if left > 0 {
        return Some(left);
    }
    match port.poll() {
        Poll::Go => Some(ROUND),
        Poll::Cancelled => None,
    }
}
