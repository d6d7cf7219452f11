// The products of kept rows with monomials, in their order: by the degree of the monomial, then by row, then from the least
// monomial up. None is listed before it is tried.

ghost use Rattle.std.specs.Prelude.{◌≡◌, ℕ, ◌+◌, ◌<◌, ◌≤◌, ◌∷◌, ◌++◌, [], length, drop, slice_index_or, IfOk, OnErr};
ghost use Rattle.std.specs.List.{AllByRecursion};
ghost use Rattle.tcl_ring.specs.Reduction as r;
ghost use Rattle.tcl_poly.specs.Monomial as mono;
ghost use Rattle.tcl_poly.specs.Polynomial as p;
ghost use Rattle.tcl_poly.specs.Unknown.{key_of};
ghost use Rattle.tcl_reduce.specs.Multiple as multiple;
ghost use Rattle.tcl_pivots.specs.CofactorLists.{equations_of};
ghost use Rattle.tcl_pivots.specs.RowState.{row_shown, pivot_shown, IsSound};
ghost use Rattle.tcl_pivots.specs.Held.{pivots_shown};
ghost use Rattle.tcl_member.specs.Course.{keys_in, products_by, AreKeys, AreTried, IsLater, IsOn, IsGone, IsRun};

use crate::search::{Search, Turn};
use std::alloc::{AllocError, Global};
use tcl_pivots::Pivot;
use tcl_poly::{Mono, Poly, Unknown, degree, is_zero};
use tcl_port::Port;
use tcl_ring::Ring;

impl<R: Ring> Search<R> {
    /// Reduces what is left of the claim by all kept rows, and goes on with the products of those rows as long as something is
    /// left.
    pub(crate) fn run<P: Port>(
        &mut self,
        alloc: Global,
        ring: &R,
        equations: &[Poly<R>],
        claim: &Poly<R>,
        place: u32,
        budget: u32,
        pivots: &[Pivot<R>],
        unknowns: &[Unknown],
        limit: u32,
        port: &mut P,
    ) -> Result<Turn, AllocError>
        requires equations { AllByRecursion (p.IsPolynomial (r.reduced_by (R.modulus_of ring.now))) (equations_of (R.amount ring.now) equations.now) }
        requires claim { p.IsOver (R.modulus_of ring.now) (R.amount ring.now) claim.now }
        requires pivots { AreTried (R.modulus_of ring.now) (equations_of (R.amount ring.now) equations.now) (pivots_shown (R.amount ring.now) pivots.now) }
        requires keys { AreKeys 0 (keys_in unknowns.now) }
        requires limit { limit ≤ 1024 }
        requires on { IsOn (R.modulus_of ring.now) (R.amount ring.now) (equations_of (R.amount ring.now) equations.now) (p.terms_of (R.amount ring.now) claim.now) self.old }
        requires tried { self.old.tried ≡ 0 }
        requires left { self.old.left ≡ 0 }
        requires budget { 1 ≤ budget }
        ensures run { IfOk result (λ turn. IsRun (R.modulus_of ring.now) (R.amount ring.now) (equations_of (R.amount ring.now) equations.now) (p.terms_of (R.amount ring.now) claim.now) place budget (multiple.multiples_to (keys_in unknowns.now) limit (pivots_shown (R.amount ring.now) pivots.now) limit) self.old self.new (P.polls port.old) (P.polls port.new) (P.cancels port.old) (P.cancels port.new) turn) }
        ensures memory { OnErr result (P.cancels port.new ≡ P.cancels port.old) }
    {
        self.settle(alloc, ring, equations, claim, place)?;
        if is_zero(&self.target.poly) {
            return Ok(Turn::Zero);
        }
        self.try_products(
            alloc, ring, equations, claim, place, budget, pivots, unknowns, limit, port,
        )
    }

    /// Tries the products of all rows with monomials of degrees from 1 up to the limit, as far as the degrees of row and
    /// monomial add to at most the limit.
    pub(crate) fn try_products<P: Port>(
        &mut self,
        alloc: Global,
        ring: &R,
        equations: &[Poly<R>],
        claim: &Poly<R>,
        place: u32,
        budget: u32,
        pivots: &[Pivot<R>],
        unknowns: &[Unknown],
        limit: u32,
        port: &mut P,
    ) -> Result<Turn, AllocError>
        requires equations { AllByRecursion (p.IsPolynomial (r.reduced_by (R.modulus_of ring.now))) (equations_of (R.amount ring.now) equations.now) }
        requires claim { p.IsOver (R.modulus_of ring.now) (R.amount ring.now) claim.now }
        requires pivots { AreTried (R.modulus_of ring.now) (equations_of (R.amount ring.now) equations.now) (pivots_shown (R.amount ring.now) pivots.now) }
        requires keys { AreKeys 0 (keys_in unknowns.now) }
        requires limit { limit ≤ 1024 }
        requires on { IsOn (R.modulus_of ring.now) (R.amount ring.now) (equations_of (R.amount ring.now) equations.now) (p.terms_of (R.amount ring.now) claim.now) self.old }
        requires below { self.old.tried < budget }
        ensures gone { IfOk result (λ turn. IsGone (R.modulus_of ring.now) (R.amount ring.now) (equations_of (R.amount ring.now) equations.now) (p.terms_of (R.amount ring.now) claim.now) place budget (multiple.multiples_to (keys_in unknowns.now) limit (pivots_shown (R.amount ring.now) pivots.now) limit) self.old self.new (P.polls port.old) (P.polls port.new) (P.cancels port.old) (P.cancels port.new) turn) }
        ensures memory { OnErr result (P.cancels port.new ≡ P.cancels port.old) }
    {
        for lower in 0..limit {
            let turn = self.try_degree(
                alloc,
                ring,
                equations,
                claim,
                place,
                budget,
                pivots,
                unknowns,
                lower + 1,
                limit,
                port,
            )?;
            if turn.is_end() {
                return Ok(turn);
            }
        }
        Ok(Turn::Going)
    }

    /// Tries the products of all rows with monomials of that degree.
    fn try_degree<P: Port>(
        &mut self,
        alloc: Global,
        ring: &R,
        equations: &[Poly<R>],
        claim: &Poly<R>,
        place: u32,
        budget: u32,
        pivots: &[Pivot<R>],
        unknowns: &[Unknown],
        by: u32,
        limit: u32,
        port: &mut P,
    ) -> Result<Turn, AllocError>
        requires equations { AllByRecursion (p.IsPolynomial (r.reduced_by (R.modulus_of ring.now))) (equations_of (R.amount ring.now) equations.now) }
        requires claim { p.IsOver (R.modulus_of ring.now) (R.amount ring.now) claim.now }
        requires pivots { AreTried (R.modulus_of ring.now) (equations_of (R.amount ring.now) equations.now) (pivots_shown (R.amount ring.now) pivots.now) }
        requires keys { AreKeys 0 (keys_in unknowns.now) }
        requires limit { limit ≤ 1024 }
        requires by { by ≤ limit }
        requires on { IsOn (R.modulus_of ring.now) (R.amount ring.now) (equations_of (R.amount ring.now) equations.now) (p.terms_of (R.amount ring.now) claim.now) self.old }
        requires below { self.old.tried < budget }
        ensures gone { IfOk result (λ turn. IsGone (R.modulus_of ring.now) (R.amount ring.now) (equations_of (R.amount ring.now) equations.now) (p.terms_of (R.amount ring.now) claim.now) place budget (multiple.multiples_at (keys_in unknowns.now) limit by (pivots_shown (R.amount ring.now) pivots.now)) self.old self.new (P.polls port.old) (P.polls port.new) (P.cancels port.old) (P.cancels port.new) turn) }
        ensures memory { OnErr result (P.cancels port.new ≡ P.cancels port.old) }
    {
        let mut i = 0;
        while i < pivots.len() {
            let pivot: &Pivot<R> = &pivots[i];
            let turn = self.try_row(
                alloc, ring, equations, claim, place, budget, pivot, unknowns, by, limit, port,
            )?;
            if turn.is_end() {
                return Ok(turn);
            }
            i += 1;
        }
        Ok(Turn::Going)
    }

    /// Tries the products of one row with monomials of that degree, unless the degrees add to more than the limit.
    fn try_row<P: Port>(
        &mut self,
        alloc: Global,
        ring: &R,
        equations: &[Poly<R>],
        claim: &Poly<R>,
        place: u32,
        budget: u32,
        pivot: &Pivot<R>,
        unknowns: &[Unknown],
        by: u32,
        limit: u32,
        port: &mut P,
    ) -> Result<Turn, AllocError>
        requires equations { AllByRecursion (p.IsPolynomial (r.reduced_by (R.modulus_of ring.now))) (equations_of (R.amount ring.now) equations.now) }
        requires claim { p.IsOver (R.modulus_of ring.now) (R.amount ring.now) claim.now }
        requires pivot { IsSound (R.modulus_of ring.now) (equations_of (R.amount ring.now) equations.now) (row_shown (R.amount ring.now) pivot.now.row) }
        requires some { pivot.now.row.poly ≡ [] → ⊥ }
        requires keys { AreKeys 0 (keys_in unknowns.now) }
        requires limit { limit ≤ 1024 }
        requires on { IsOn (R.modulus_of ring.now) (R.amount ring.now) (equations_of (R.amount ring.now) equations.now) (p.terms_of (R.amount ring.now) claim.now) self.old }
        requires below { self.old.tried < budget }
        ensures gone { IfOk result (λ turn. IsGone (R.modulus_of ring.now) (R.amount ring.now) (equations_of (R.amount ring.now) equations.now) (p.terms_of (R.amount ring.now) claim.now) place budget (multiple.multiples_at (keys_in unknowns.now) limit by (pivot_shown (R.amount ring.now) pivot.now ∷ [])) self.old self.new (P.polls port.old) (P.polls port.new) (P.cancels port.old) (P.cancels port.new) turn) }
        ensures memory { OnErr result (P.cancels port.new ≡ P.cancels port.old) }
    {
        if degree(&pivot.row.poly) as u64 + by as u64 > limit as u64 {
            return Ok(Turn::Going);
        }
        let front = Mono::new(alloc);
        self.try_monomials(
            alloc, ring, equations, claim, place, budget, pivot, unknowns, 0, by, &front, port,
        )
    }

    /// Tries the products of a row with the monomials that begin with `front` and have that degree beside it, over the
    /// unknowns from a place on.
    fn try_monomials<P: Port>(
        &mut self,
        alloc: Global,
        ring: &R,
        equations: &[Poly<R>],
        claim: &Poly<R>,
        place: u32,
        budget: u32,
        pivot: &Pivot<R>,
        unknowns: &[Unknown],
        from: usize,
        by: u32,
        front: &Mono,
        port: &mut P,
    ) -> Result<Turn, AllocError>
        requires equations { AllByRecursion (p.IsPolynomial (r.reduced_by (R.modulus_of ring.now))) (equations_of (R.amount ring.now) equations.now) }
        requires claim { p.IsOver (R.modulus_of ring.now) (R.amount ring.now) claim.now }
        requires pivot { IsSound (R.modulus_of ring.now) (equations_of (R.amount ring.now) equations.now) (row_shown (R.amount ring.now) pivot.now.row) }
        requires some { pivot.now.row.poly ≡ [] → ⊥ }
        requires keys { AreKeys 0 (keys_in unknowns.now) }
        requires from { from ≤ length unknowns.now }
        requires later { (k : ℕ) → from ≤ k → k < length unknowns.now → IsLater front.now (slice_index_or (keys_in unknowns.now) k 0) }
        requires degree { mono.degree front.now + by + p.degree_of pivot.now.row.poly ≤ 1024 }
        requires on { IsOn (R.modulus_of ring.now) (R.amount ring.now) (equations_of (R.amount ring.now) equations.now) (p.terms_of (R.amount ring.now) claim.now) self.old }
        requires below { self.old.tried < budget }
        ensures gone { IfOk result (λ turn. IsGone (R.modulus_of ring.now) (R.amount ring.now) (equations_of (R.amount ring.now) equations.now) (p.terms_of (R.amount ring.now) claim.now) place budget (products_by (pivot_shown (R.amount ring.now) pivot.now) front.now (multiple.monomials_over (drop from (keys_in unknowns.now)) by)) self.old self.new (P.polls port.old) (P.polls port.new) (P.cancels port.old) (P.cancels port.new) turn) }
        ensures memory { OnErr result (P.cancels port.new ≡ P.cancels port.old) }
    {
        if by == 0 {
            return self.try_product(
                alloc, ring, equations, claim, place, budget, pivot, front, port,
            );
        }
        let mut j = unknowns.len();
        'unknowns: while j > from {
            j -= 1;
            'powers: for lower in 0..by {
                let power = with_power(front, unknowns[j], lower + 1)?;
                let turn = self.try_monomials(
                    alloc,
                    ring,
                    equations,
                    claim,
                    place,
                    budget,
                    pivot,
                    unknowns,
                    j + 1,
                    by - lower - 1,
                    &power,
                    port,
                )?;
                if turn.is_end() {
                    return Ok(turn);
                }
            }
        }
        Ok(Turn::Going)
    }
}

/// The monomial times a power of a later unknown.
fn with_power(front: &Mono, unknown: Unknown, exponent: u32) -> Result<Mono, AllocError>
    requires later { mono.IsMonomial (front.now ++ (key_of unknown, exponent) ∷ []) }
    requires narrow { mono.degree front.now + exponent < 4294967296 }
    ensures { IfOk result (λ m. m ≡ front.now ++ (key_of unknown, exponent) ∷ []) }
{
    let mut power = front.copy()?;
    power.push(unknown, exponent)?;
    Ok(power)
}
