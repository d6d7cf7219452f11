// Random searches against a reference.

ghost use Rattle.std.specs.Prelude.{IfOk};
ghost use Rattle.tcl_poly.specs.Polynomial.{IsOver};

use crate::answers::answer;
use crate::counter::Counter;
use crate::dice::Dice;
use crate::expectation::agree;
use crate::expected::EXPECTED;
use crate::making::{equations_for, push_equation};
use crate::polynomials::{coefficient, multiply, polynomial, term};
use std::alloc::Global;
use std::test::Fail;
use tcl_list::Listing;
use tcl_poly::{Poly, add, number};
use tcl_reduce::{Defs, Equations};
use tcl_ring::{Residue, Ring, Whole};

/// A term times the first polynomial and a constant times the last.
fn combination<R: Ring>(
    alloc: Global,
    ring: &R,
    dice: &mut Dice,
    modulus: u32,
    first: &Poly<R>,
    last: &Poly<R>,
) -> Result<Poly<R>, Fail>
    requires first { IsOver (R.modulus_of ring.now) (R.amount ring.now) first.now }
    requires last { IsOver (R.modulus_of ring.now) (R.amount ring.now) last.now }
    ensures { IfOk result (λ p. IsOver (R.modulus_of ring.now) (R.amount ring.now) p) }
{
    let factor = term(alloc, ring, dice, modulus, 1)?;
    let constant = number(alloc, ring, coefficient(dice, modulus))?;
    let left = multiply(ring, &factor, first)?;
    let right = multiply(ring, &constant, last)?;
    Ok(add(ring, &left, &right)?)
}

/// Up to four random equations and a claim that is a random one or, for odd seeds, a combination of the first and the last.
fn random_equations<R: Ring + Copy>(
    alloc: Global,
    ring: R,
    dice: &mut Dice,
    modulus: u32,
    combined: bool,
) -> Result<Equations<R>, Fail> {
    let more = dice.below(4);
    let defs = Defs::new(alloc);
    let mut list = Listing::new(alloc);
    let first = polynomial(alloc, &ring, dice, modulus, 3, 1)?;
    let mut last = first.copy()?;
    push_equation(&ring, &defs, &mut list, first.copy()?)?;
    for _k in 0..more {
        last = polynomial(alloc, &ring, dice, modulus, 3, 1)?;
        push_equation(&ring, &defs, &mut list, last.copy()?)?;
    }
    let claim = if combined {
        combination(alloc, &ring, dice, modulus, &first, &last)?
    } else {
        polynomial(alloc, &ring, dice, modulus, 4, 2)?
    };
    equations_for(alloc, ring, defs, list, claim)
}

/// The answer for random equations and a budget of up to 20.
fn random_answer<R: Ring + Copy>(
    alloc: Global,
    ring: R,
    seed: u64,
    modulus: u32,
) -> Result<String, Fail> {
    let mut dice = Dice::new(seed);
    let equations = random_equations(alloc, ring, &mut dice, modulus, seed % 2 == 1)?;
    let budget = dice.below(20).saturating_add(1);
    answer(alloc, &equations, budget, &mut Counter::new(0))
}

/// The answer over the integers, or modulo 2 to 12, in turn.
fn answer_of_seed(alloc: Global, seed: u64) -> Result<String, Fail> {
    let which = (seed % 12) as u32;
    if which == 0 {
        return random_answer(alloc, Whole, seed, 0);
    }
    let modulus = which + 1;
    let ring = Residue {
        modulus: modulus as u128,
    };
    random_answer(alloc, ring, seed, modulus)
}

#[test]
fn random_searches(rt: HostRuntime) -> Result<(), Fail> {
    let alloc = rt.alloc();
    let mut seed: u64 = 0;
    for line in EXPECTED.lines() {
        let text = answer_of_seed(alloc, seed)?;
        agree(&rt, text.as_str(), line);
        seed = seed.saturating_add(1);
    }
    Ok(())
}
