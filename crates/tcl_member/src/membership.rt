// The membership search for a claim.

ghost use Rattle.std.specs.List.{AllByRecursion};
ghost use Rattle.std.specs.Prelude.{◌≡◌, ℕ, ◌≤◌, length, List, false, IfOk, OnErr};
ghost use Rattle.tcl_ring.specs.Reduction as r;
ghost use Rattle.tcl_poly.specs.Polynomial as p;
ghost use Rattle.tcl_reduce.specs.Answer.{definitions_of, numbered};
ghost use Rattle.tcl_reduce.specs.Remainder.{pairs_of};
ghost use Rattle.tcl_reduce.specs.Reduction.{reduced_of};
ghost use Rattle.tcl_reduce.specs.Reduction.Reduced.{Done};
ghost use Rattle.tcl_reduce.specs.Membership.{found_of};
ghost use Rattle.tcl_pivots.specs.CofactorLists.{equations_of};
ghost use Rattle.tcl_pivots.specs.Aim.{IsAimed};
ghost use Rattle.tcl_member.specs.Fit.{AreFit, LeavesRest, AreKnown};
ghost use Rattle.tcl_pivots.specs.Held.{rows_shown, AreHeld};
ghost use Rattle.tcl_reduce.specs.Row as s;
ghost use Rattle.tcl_member.specs.Answer.{IsMember, IsShownBy, IsStopped, IsPolled};
ghost use Rattle.tcl_member.specs.Ended.{IsEnded};

use crate::Member;
use crate::begin::{copy_pivots, rows_of};
use crate::search::Search;
use crate::unknowns::unknowns_of;
use std::alloc::{AllocError, Global};
use tcl_pivots::{Rows, Target};
use tcl_poly::{Cofactors, Poly, degree};
use tcl_port::Port;
use tcl_reduce::{Equations, Plain, plain};
use tcl_ring::Ring;

/// Searches for constants and products by which what plain reduction leaves of the claim is a combination of the equations.
///
/// The rows are the plain remainders of the equations after the definitions, each reduced by those before it. Then the claim's
/// remainder is reduced by them; and as long as something is left, products of these rows with monomials are added as rows, one
/// by one, by the degree of the monomial, then by row, then from the least monomial up, as far as the degrees of row and
/// monomial add to at most that of the claim's remainder. At most `budget` products are tried; the port is polled before the
/// first and before each further 1,000. Rows are reduced as those of Macaulay matrices are (Lazard, EUROCAL 1983).
///
/// `f` is the claim's polynomial. The equations are such that each row can be held: over the integers every norm is below
/// 2^127, as in polynomials that are made from terms, and no variable is defined by itself.
pub fn member<R: Ring + Copy, P: Port>(
    alloc: Global,
    ring: &R,
    equations: &Equations<R>,
    f: &Poly<R>,
    budget: u32,
    port: &mut P,
) -> Member<R>
    requires ring { ring.now ≡ equations.now.ring }
    requires claim { f.now ≡ equations.now.claim }
    requires fit { AreFit (R.modulus_of ring.now) (equations_of (R.amount ring.now) equations.now.list) (length equations.now.defs) }
    requires left { LeavesRest (reduced_of (R.modulus_of ring.now) (definitions_of (R.amount ring.now) equations.now.defs) (p.terms_of (R.amount ring.now) f.now)) }
    requires budget { 1 ≤ budget }
    ensures found { (rest : p.Polynomial) (cofactors : List (ℕ × p.Polynomial)) (spent : ℕ) →
        reduced_of (R.modulus_of ring.now) (definitions_of (R.amount ring.now) equations.now.defs) (p.terms_of (R.amount ring.now) f.now) ≡ Done rest cofactors spent →
        IsMember (R.amount ring.now) budget rest
        (found_of (R.modulus_of ring.now) (definitions_of (R.amount ring.now) equations.now.defs) (equations_of (R.amount ring.now) equations.now.list) equations.now.places (p.terms_of (R.amount ring.now) f.now) equations.now.claim_place budget rest cofactors) result }
    ensures shown { IsShownBy (R.modulus_of ring.now) (R.amount ring.now) equations.now.list (p.terms_of (R.amount ring.now) f.now) result }
    ensures polled { IsPolled (P.polls port.old) (P.polls port.new) result }
    ensures stopped { IsStopped (P.cancels port.old) (P.cancels port.new) result }
{
    let _list = equations.list();
    match plain(alloc, ring, equations.defs(), f) {
        Plain::Rest(rest, cofactors, _) => {
            match search(alloc, equations, rest, cofactors, budget, port) {
                Ok(member) => member,
                Err(_) => Member::Memory,
            }
        }
        Plain::Memory => Member::Memory,
        Plain::Zero(_, _) => unreachable!(),
        Plain::Wide(_) => unreachable!(),
        Plain::Large(_, _) => unreachable!(),
    }
}

/// The search, where plain reduction left something of the claim, with these cofactors.
fn search<R: Ring + Copy, P: Port>(
    alloc: Global,
    equations: &Equations<R>,
    rest: Poly<R>,
    cofactors: Cofactors<R>,
    budget: u32,
    port: &mut P,
) -> Result<Member<R>, AllocError>
    requires known { AreKnown (R.modulus_of equations.now.ring) (R.amount equations.now.ring) equations.now.defs equations.now.list }
    requires aimed { IsAimed (R.modulus_of equations.now.ring) (equations_of (R.amount equations.now.ring) equations.now.list) (p.terms_of (R.amount equations.now.ring) equations.now.claim) (record { poly = p.terms_of (R.amount equations.now.ring) rest; cofactors = pairs_of (R.amount equations.now.ring) (numbered cofactors); noted = false }) }
    requires shallow { p.degree_of rest ≤ 1024 }
    requires budget { 1 ≤ budget }
    ensures ended { IfOk result (λ o. IsEnded (R.modulus_of equations.now.ring) (R.amount equations.now.ring) equations.now.list (p.terms_of (R.amount equations.now.ring) equations.now.claim) equations.now.claim_place budget (s.rows_of (R.modulus_of equations.now.ring) (definitions_of (R.amount equations.now.ring) equations.now.defs) (equations_of (R.amount equations.now.ring) equations.now.list) equations.now.places) (p.terms_of (R.amount equations.now.ring) rest) (pairs_of (R.amount equations.now.ring) (numbered cofactors)) (P.polls port.old) (P.polls port.new) (P.cancels port.old) (P.cancels port.new) o) }
    ensures memory { OnErr result (P.cancels port.new ≡ P.cancels port.old) }
{
    let ring = equations.ring();
    let list = equations.list();
    let rows = rows_of(alloc, ring, equations.defs(), list, equations)?;
    search_rows(
        alloc,
        ring,
        list,
        equations.claim(),
        equations.claim_place(),
        rows,
        rest,
        cofactors,
        budget,
        port,
    )
}

/// The search with the rows of the equations.
fn search_rows<R: Ring, P: Port>(
    alloc: Global,
    ring: &R,
    equations: &[Poly<R>],
    claim: &Poly<R>,
    place: u32,
    rows: Rows<R>,
    rest: Poly<R>,
    cofactors: Cofactors<R>,
    budget: u32,
    port: &mut P,
) -> Result<Member<R>, AllocError>
    requires equations { AllByRecursion (p.IsPolynomial (r.reduced_by (R.modulus_of ring.now))) (equations_of (R.amount ring.now) equations.now) }
    requires claim { p.IsOver (R.modulus_of ring.now) (R.amount ring.now) claim.now }
    requires held { AreHeld (R.modulus_of ring.now) (equations_of (R.amount ring.now) equations.now) (R.amount ring.now) rows }
    requires aimed { IsAimed (R.modulus_of ring.now) (equations_of (R.amount ring.now) equations.now) (p.terms_of (R.amount ring.now) claim.now) (record { poly = p.terms_of (R.amount ring.now) rest; cofactors = pairs_of (R.amount ring.now) (numbered cofactors); noted = false }) }
    requires shallow { p.degree_of rest ≤ 1024 }
    requires budget { 1 ≤ budget }
    ensures ended { IfOk result (λ o. IsEnded (R.modulus_of ring.now) (R.amount ring.now) equations.now (p.terms_of (R.amount ring.now) claim.now) place budget (rows_shown (R.amount ring.now) rows) (p.terms_of (R.amount ring.now) rest) (pairs_of (R.amount ring.now) (numbered cofactors)) (P.polls port.old) (P.polls port.new) (P.cancels port.old) (P.cancels port.new) o) }
    ensures memory { OnErr result (P.cancels port.new ≡ P.cancels port.old) }
{
    let pivots = copy_pivots(alloc, rows.kept())?;
    let unknowns = unknowns_of(alloc, pivots.as_slice(), &rest)?;
    let left = rest.copy()?;
    let limit = degree(&rest);
    let mut search = Search {
        rows,
        target: Target {
            poly: rest,
            cofactors,
        },
        tried: 0,
        left: 0,
    };
    let turn = search.run(
        alloc,
        ring,
        equations,
        claim,
        place,
        budget,
        pivots.as_slice(),
        unknowns.as_slice(),
        limit,
        port,
    )?;
    Ok(search.into_member(turn, budget, left))
}
