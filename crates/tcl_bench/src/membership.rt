// The membership search over the integers.

ghost use Rattle.std.specs.Prelude.{◌≡◌, None, length, IsTrue, IfOk, OnOk};
ghost use Rattle.tcl_poly.specs.Polynomial as p;
ghost use Rattle.tcl_poly.specs.Combination.{AreOver};
ghost use Rattle.tcl_reduce.specs.Equated.{AreShallow};
ghost use Rattle.tcl_reduce.specs.Answer.{definitions_of};
ghost use Rattle.tcl_reduce.specs.Reduction.{reduced_of};
ghost use Rattle.tcl_member.specs.Fit.{LeavesRest};

use crate::searching::Patient;
use std::alloc::{AllocError, Global};
use tcl_list::Listing;
use tcl_member::{Member, are_fit, member};
use tcl_poly::{Cofactors, Poly, PolyFault, Unknown, add, degree, mul, number, power, terms};
use tcl_reduce::{Defs, Equations, Plain, plain};
use tcl_ring::Whole;

/// Searches for x0^d - xn^d as a combination of products of the n differences of a variable and the next one, and says how the
/// search ended and how many polls there were. At most `budget` products are tried.
pub(crate) fn membership_text(
    alloc: Global,
    count: u32,
    exponent: u32,
    budget: u32,
) -> Result<String, AllocError> {
    match chain_of(alloc, count, exponent) {
        Ok(equations) => search_text(alloc, &equations, budget),
        Err(PolyFault::Wide) => String::from_str(alloc, "no equations\n"),
        Err(PolyFault::Memory) => Err(AllocError),
    }
}

/// How the search for the claim ends, where the equations fit and plain reduction leaves something of the claim.
fn search_text(
    alloc: Global,
    equations: &Equations<Whole>,
    budget: u32,
) -> Result<String, AllocError> {
    let ring = equations.ring();
    let list = equations.list();
    let definitions = equations.defs().len();
    if definitions > list.len() || !are_fit(ring, list, definitions) {
        return String::from_str(alloc, "no search\n");
    }
    if !leaves_rest(alloc, equations) {
        return String::from_str(alloc, "nothing left\n");
    }
    let claim = equations.claim();
    let mut port = Patient { polls: 0 };
    let answer = member(alloc, ring, equations, claim, budget.max(1), &mut port);
    end_text(alloc, &answer, port.polls)
}

/// Whether plain reduction leaves something of the claim.
fn leaves_rest(alloc: Global, equations: &Equations<Whole>) -> bool
    ensures { IsTrue result → LeavesRest (reduced_of None (definitions_of (λ n. n) equations.now.defs) (p.terms_of (λ n. n) equations.now.claim)) }
{
    match plain(alloc, equations.ring(), equations.defs(), equations.claim()) {
        Plain::Rest(_, _, _) => true,
        _ => false,
    }
}

/// The end as a text.
fn end_text(alloc: Global, answer: &Member<Whole>, polls: u64) -> Result<String, AllocError> {
    match answer {
        Member::Cofactors(cofactors) => {
            let size = size_of(cofactors);
            format!(in alloc;
                "cofactors {} terms {size} polls {polls}\n",
                cofactors.len()
            )
        }
        Member::Spent(count) => format!(in alloc; "spent {count} polls {polls}\n"),
        Member::Rest(rest, _) => { format!(in alloc; "rest {} polls {polls}\n", terms(rest).len()) }
        Member::Stopped => String::from_str(alloc, "stopped\n"),
        Member::Memory => Err(AllocError),
    }
}

/// The terms of all cofactors.
fn size_of(cofactors: &Cofactors<Whole>) -> usize {
    let mut size = 0_usize;
    for cofactor in cofactors.as_slice() {
        size = size.saturating_add(terms(&cofactor.poly).len());
    }
    size
}

/// The equations of so many variables that are equal in turn, and the claim that the first and the last have equal powers.
fn chain_of(alloc: Global, count: u32, exponent: u32) -> Result<Equations<Whole>, PolyFault> {
    let list = differences(alloc, count)?;
    let claim = difference(alloc, 0, count, exponent)?;
    equations_for(alloc, list, claim)
}

/// The differences of a variable and the next one.
fn differences(alloc: Global, count: u32) -> Result<Listing<Poly<Whole>>, PolyFault>
    ensures over { IfOk result (λ list. AreOver None (λ n. n) list) }
    ensures shallow { IfOk result (λ list. AreShallow list) }
{
    let mut list = Listing::new(alloc);
    for k in 0..count {
        let equation = difference(alloc, k, k.saturating_add(1), 1)?;
        push_equation(&mut list, equation)?;
    }
    Ok(list)
}

/// Adds an equation at the end.
fn push_equation(list: &mut Listing<Poly<Whole>>, equation: Poly<Whole>) -> Result<(), PolyFault>
    requires over { AreOver None (λ n. n) list.old }
    requires shallow { AreShallow list.old }
    requires equation { p.IsOver None (λ n. n) equation }
    ensures over { OnOk result (AreOver None (λ n. n) list.new) }
    ensures shallow { OnOk result (AreShallow list.new) }
{
    if degree(&equation) > 1024 {
        return Err(PolyFault::Wide);
    }
    list.push(equation)?;
    Ok(())
}

/// The difference of the powers of two variables.
fn difference(
    alloc: Global,
    first: u32,
    second: u32,
    exponent: u32,
) -> Result<Poly<Whole>, PolyFault>
    ensures { IfOk result (λ d. p.IsOver None (λ n. n) d) }
{
    let x = power(alloc, &Whole, Unknown::Var(first), exponent)?;
    let y = power(alloc, &Whole, Unknown::Var(second), exponent)?;
    let less = number(alloc, &Whole, -1)?;
    let opposite = multiply(&less, &y)?;
    add(&Whole, &x, &opposite)
}

/// The product, of a degree of at most 1,024.
fn multiply(a: &Poly<Whole>, b: &Poly<Whole>) -> Result<Poly<Whole>, PolyFault>
    requires first { p.IsOver None (λ n. n) a.now }
    requires second { p.IsOver None (λ n. n) b.now }
    ensures { IfOk result (λ d. p.IsOver None (λ n. n) d) }
{
    if degree(a) > 1024 || degree(b) > 1024 - degree(a) {
        return Err(PolyFault::Wide);
    }
    mul(&Whole, a, b)
}

/// The equations, each at its own place, and the claim at the place after them.
fn equations_for(
    alloc: Global,
    list: Listing<Poly<Whole>>,
    claim: Poly<Whole>,
) -> Result<Equations<Whole>, PolyFault>
    requires over { AreOver None (λ n. n) list }
    requires shallow { AreShallow list }
    requires claim { p.IsOver None (λ n. n) claim }
{
    if degree(&claim) > 1024 || list.len() > 1024 {
        return Err(PolyFault::Wide);
    }
    let count = list.len() as u32;
    let places = places_of(alloc, count)?;
    Ok(Equations::of(Whole, list, places, Defs::new(alloc), claim, count))
}

/// The places from 0 on.
fn places_of(alloc: Global, count: u32) -> Result<Listing<u32>, AllocError>
    ensures { IfOk result (λ places. length places ≡ count) }
{
    let mut places = Listing::new(alloc);
    for k in 0..count {
        places.push(k)?;
    }
    Ok(places)
}
