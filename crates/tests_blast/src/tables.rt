// The clauses of facts, clause by clause.

ghost use Rattle.std.specs.Prelude.{◌≡◌};
ghost use Rattle.tcl_goals.specs.LemmaList.{next_number};

use crate::expected::agree;
use crate::facts::{Row, clauses_of, fact_of, lemma_of, text_of, whole_fact};
use crate::forms::{form_of_text, parts_of, program_of};
use crate::{lifted_rows, part_rows, whole_rows};
use std::alloc::Global;
use std::test::Fail;
use tcl_goals::{Claim, Cube, Fact, Hyp, Hyps, Lemmas, Numbered, Uses};
use tcl_lang::Ssa;

// The lemmas of level 1 that rows cite, by their numbers.
const LEMMAS: &[(u32, &[(u32, u32, bool)])] = &[
    (7, &[(2, 0, true), (0, 1, false)]),
    (9, &[(1, 1, true)]),
    (12, &[]),
    (13, &[(0, 0, true), (0, 0, false)]),
    (15, &[(0, 0, true), (0, 0, true)]),
];

// A number above those of all these lemmas.
#[tactic(auto, unfolding(tcl_goals::specs::LemmaList::next_number))]
fn next_number(lemmas: &[Numbered]) -> u64
    ensures { result ≡ next_number lemmas.now }
{
    let mut next = 0;
    let mut k = lemmas.len();
    while k > 0 {
        k -= 1;
        next = (lemmas[k].number as u64 + 1).max(next);
    }
    next
}

fn lemmas_of(alloc: Global) -> Result<Lemmas, Fail> {
    let mut lemmas = Lemmas::new(alloc);
    for (number, bits) in LEMMAS {
        let lemma = lemma_of(alloc, 1, bits)?;
        if next_number(lemmas.items().as_slice()) > *number as u64 {
            return Err("numbers that fall")?;
        }
        lemmas.push(*number, lemma)?;
    }
    Ok(lemmas)
}

// The text of a fact's clauses.
fn clauses_text(alloc: Global, form: &Ssa, fact: &Fact, lemmas: &Lemmas) -> Result<String, Fail> {
    match clauses_of(alloc, form, fact, lemmas)? {
        Ok(cnf) => Ok(text_of(alloc, &cnf)?),
        Err(_) => Err("too many clauses")?,
    }
}

fn whole_text(alloc: Global, program: &str, goal: u32) -> Result<String, Fail> {
    let form = form_of_text(alloc, program)?;
    let fact = whole_fact(alloc, &form, goal)?;
    clauses_text(alloc, &form, &fact, &Lemmas::new(alloc))
}

// The text of the clauses of goal 0 with one hypothesis.
fn one_line_text(alloc: Global, form: &Ssa, place: u32) -> Result<String, Fail> {
    let mut hyps = Hyps::new(alloc);
    hyps.push(Hyp::Line(place))?;
    let fact = Fact {
        claim: Claim::Goal(0),
        hyps,
        cube: Cube::new(alloc),
        uses: Uses::new(alloc),
    };
    clauses_text(alloc, form, &fact, &Lemmas::new(alloc))
}

// The text of the clauses of the whole fact of a row's goal.
fn row_text(alloc: Global, lines: &str, goal: u32) -> Result<String, Fail> {
    let program = program_of(alloc, lines)?;
    whole_text(alloc, program.as_str(), goal)
}

#[test]
fn instructions_and_range_lines(rt: HostRuntime) -> Result<(), Fail> {
    for row in whole_rows::ROWS.lines() {
        let (goal, lines, clauses) = parts_of(row)?;
        let text = row_text(rt.alloc(), lines, goal)?;
        agree(&rt, lines, text.as_str(), clauses);
    }
    Ok(())
}

#[test]
fn equations_fix_bits(rt: HostRuntime) -> Result<(), Fail> {
    let all = whole_text(rt.alloc(), lifted_rows::PROGRAM, 0)?;
    agree(&rt, "all equations", all.as_str(), lifted_rows::ALL);
    Ok(())
}

#[test]
fn equations_alone_fix_bits(rt: HostRuntime) -> Result<(), Fail> {
    let form = form_of_text(rt.alloc(), lifted_rows::PROGRAM)?;
    for (place, clauses) in lifted_rows::ROWS {
        let text = one_line_text(rt.alloc(), &form, *place)?;
        agree(&rt, "an equation", text.as_str(), clauses);
    }
    Ok(())
}

// The text of the clauses of a row's fact.
fn fact_text(alloc: Global, form: &Ssa, row: &Row, lemmas: &Lemmas) -> Result<String, Fail> {
    let fact = fact_of(alloc, row)?;
    clauses_text(alloc, form, &fact, lemmas)
}

#[test]
fn parts_stand_in_their_order(rt: HostRuntime) -> Result<(), Fail> {
    let form = form_of_text(rt.alloc(), part_rows::PROGRAM)?;
    let lemmas = lemmas_of(rt.alloc())?;
    for row in part_rows::ROWS {
        let text = fact_text(rt.alloc(), &form, row, &lemmas)?;
        agree(&rt, "a fact", text.as_str(), row.clauses);
    }
    Ok(())
}
