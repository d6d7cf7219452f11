// Narrow facts: an assignment of the free bits, given as a cube, meets the clauses exactly where the walk through all
// assignments finds that it denies the claim and meets the hypotheses.

use crate::expected::holds;
use crate::facts::{clauses_of, is_in_order, whole_fact};
use crate::forms::{form_of_text, parts_of, program_of};
use crate::whole_rows::ROWS;
use std::alloc::{AllocError, Global};
use std::test::Fail;
use tcl_cnf::Cnf;
use tcl_enum::{Ended, enumerate};
use tcl_goals::{Bit, BitLit, Cube, Fact, Lemmas, free_bits};
use tcl_lang::Ssa;
use tcl_list::Listing;
use tcl_port::{Poll, Port};
use tcl_sat::{Found, search};

// A port that never cancels.
#[derive(Drop)]
struct Patient {
    polls: u64,
}

impl Port for Patient {
    ghost polls = { λ p. p.polls };

    ghost cancels = { λ _. 0 };

    fn poll(&mut self) -> Poll {
        self.polls = self.polls.saturating_add(1);
        Poll::Go
    }
}

// Bit k has the value of bit k of the number.
fn cube_of(alloc: Global, bits: &[Bit], number: u32) -> Result<Cube, AllocError> {
    let mut cube = Cube::new(alloc);
    let mut left = number;
    for bit in bits {
        cube.push(BitLit {
            var: bit.var,
            bit: bit.bit,
            value: left % 2 == 1,
        })?;
        left /= 2;
    }
    Ok(cube)
}

// Whether some values meet the clauses.
fn can_be_met(alloc: Global, cnf: &Cnf) -> Result<bool, Fail> {
    let mut port = Patient { polls: 0 };
    match search(alloc, cnf, 1000, 1000, &mut port)? {
        Found::Model(_) => Ok(true),
        Found::Refutes(_) => Ok(false),
        Found::Spent(_) | Found::Stopped => Err("an endless search")?,
    }
}

// Whether an assignment denies the fact.
fn can_be_denied(alloc: Global, form: &Ssa, fact: &Fact, lemmas: &Lemmas) -> Result<bool, Fail> {
    if !is_in_order(form, fact, lemmas) {
        return Err("a fact out of order")?;
    }
    if free_bits(alloc, form, lemmas, fact)?.len() > 20 {
        return Err("a wide fact")?;
    }
    let ended = enumerate(alloc, form, fact, lemmas);
    match &ended {
        Ended::All => Ok(false),
        Ended::Fails(_) => Ok(true),
        Ended::Wide | Ended::Memory => Err("no walk")?,
    }
}

// Whether the assignment meets the clauses where it denies the fact, and not where it does not.
fn agrees(alloc: Global, form: &Ssa, lemmas: &Lemmas, goal: u32, cube: Cube) -> Result<bool, Fail> {
    let mut fact = whole_fact(alloc, form, goal)?;
    fact.cube = cube;
    let is_denied = can_be_denied(alloc, form, &fact, lemmas)?;
    match clauses_of(alloc, form, &fact, lemmas)? {
        Ok(cnf) => Ok(can_be_met(alloc, &cnf)? == is_denied),
        Err(_) => Err("too many clauses")?,
    }
}

// Whether the assignment of this number agrees.
fn agrees_at(
    alloc: Global,
    form: &Ssa,
    lemmas: &Lemmas,
    goal: u32,
    bits: &[Bit],
    number: u32,
) -> Result<bool, Fail> {
    let cube = cube_of(alloc, bits, number)?;
    agrees(alloc, form, lemmas, goal, cube)
}

// The free bits of a goal's whole fact.
fn bits_of(alloc: Global, form: &Ssa, lemmas: &Lemmas, goal: u32) -> Result<Listing<Bit>, Fail> {
    let fact = whole_fact(alloc, form, goal)?;
    Ok(free_bits(alloc, form, lemmas, &fact)?)
}

// Whether the first 64 assignments of a goal's free bits agree.
fn all_agree(alloc: Global, form: &Ssa, goal: u32) -> Result<bool, Fail> {
    let lemmas = Lemmas::new(alloc);
    let bits = bits_of(alloc, form, &lemmas, goal)?;
    for number in 0..count_of(bits.len()) {
        if !agrees_at(alloc, form, &lemmas, goal, bits.as_slice(), number)? {
            return Ok(false);
        }
    }
    Ok(true)
}

// How many assignments of so many bits are tried.
fn count_of(bits: usize) -> u32 {
    if bits < 6 { 1u32 << bits } else { 64 }
}

fn row_agrees(alloc: Global, lines: &str, goal: u32) -> Result<bool, Fail> {
    let program = program_of(alloc, lines)?;
    let form = form_of_text(alloc, program.as_str())?;
    all_agree(alloc, &form, goal)
}

#[test]
fn assignments_meet_the_clauses_that_they_deny(rt: HostRuntime) -> Result<(), Fail> {
    for row in ROWS.lines() {
        let (goal, lines, _) = parts_of(row)?;
        let agree = row_agrees(rt.alloc(), lines, goal)?;
        holds(&rt, lines, agree);
    }
    Ok(())
}
