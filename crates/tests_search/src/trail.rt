// Propagation over several levels, and back.

use crate::dice::Dice;
use crate::plain_trail::PlainTrail;
use std::alloc::{AllocError, Global};
use std::test::Fail;
use tcl_cnf::{Clause, Cnf, Lit};
use tcl_trail::{Step, Trail};

/// What is done to a trail.
#[derive(Clone, Copy)]
enum Call {
    AddEmpty,
    // Adds the clause of this literal alone.
    AddUnit(u32),
    Assume(u32),
    Propagate,
    BackTo(u32),
}

/// The clause of the literals of these numbers, or none where one is another's negation. Literal 2v is variable v.
fn clause_of(alloc: Global, numbers: &[u32]) -> Result<Option<Clause>, AllocError> {
    let mut lits = Vec::new(alloc);
    for number in numbers {
        lits.push(Lit::from_number(*number))?;
    }
    Clause::from_lits(alloc, &lits)
}

/// The clauses of these numbers, with no literal true.
fn trail_of(alloc: Global, clauses: &[&[u32]]) -> Result<Trail, AllocError> {
    let mut cnf = Cnf::new(alloc);
    for numbers in clauses {
        if let Some(clause) = clause_of(alloc, *numbers)? {
            cnf.push(clause)?;
        }
    }
    Trail::new(alloc, &cnf)
}

fn add(alloc: Global, trail: &mut Trail, numbers: &[u32]) -> Result<(), AllocError> {
    if let Some(clause) = clause_of(alloc, numbers)? {
        trail.add(&clause)?;
    }
    Ok(())
}

/// Assumes the literal, if it may be assumed. The answer is whether it may.
fn assume(trail: &mut Trail, lit: Lit) -> bool {
    if lit.variable() < trail.variables() && trail.value(lit).is_none() {
        trail.assume(lit);
        return true;
    }
    false
}

/// Makes the calls in turn. The answer is that of the last propagation.
fn make(alloc: Global, trail: &mut Trail, calls: &[Call]) -> Result<Step, AllocError> {
    let mut last = Step::Quiet;
    for call in calls {
        match *call {
            Call::AddEmpty => add(alloc, trail, &[])?,
            Call::AddUnit(number) => add(alloc, trail, &[number])?,
            Call::Assume(number) => {
                assume(trail, Lit::from_number(number));
            }
            Call::Propagate => last = trail.propagate(),
            Call::BackTo(level) => trail.back_to(level),
        }
    }
    Ok(last)
}

/// The number, the level and the reason of a true literal.
type Entry = (u32, u32, Option<u32>);

/// Whether the true literals are these, and all others have no value or are false.
fn has_entries(trail: &Trail, entries: &[Entry]) -> bool {
    if trail.len() as usize != entries.len() || trail.is_empty() != entries.is_empty() {
        return false;
    }
    for k in 0..trail.len() {
        match entries.get(k as usize) {
            Some(entry) if has_entry(trail, k, *entry) => {}
            _ => return false,
        }
    }
    (0..trail.variables()).all(|variable| has_value(trail, variable) == names(entries, variable))
}

fn has_value(trail: &Trail, variable: u32) -> bool {
    trail
        .value(Lit::from_number(variable.wrapping_mul(2)))
        .is_some()
}

/// Whether one of the literals is of this variable.
fn names(entries: &[Entry], variable: u32) -> bool {
    entries
        .iter()
        .any(|entry| Lit::from_number(entry.0).variable() == variable)
}

fn has_entry(trail: &Trail, k: u32, entry: Entry) -> bool {
    let (number, level, reason) = entry;
    let lit = Lit::from_number(number);
    k < trail.len()
        && trail.at(k).number() == number
        && trail.level_of(lit) == level
        && trail.reason_at(k) == reason
        && trail.reason(lit) == reason
        && trail.value(lit) == Some(true)
        && trail.value(lit.negation()) == Some(false)
}

// Six variables a to f: a gives b, b gives c, c and d give e, e and a give f.
const CHAIN: &[&[u32]] = &[&[9, 1, 10], &[5, 7, 8], &[3, 4], &[1, 2]];

// Four clauses on a, b and c that no values meet: a or b, a or not b, not a or c, not a or not c.
const ALL_SIGNS: &[&[u32]] = &[&[0, 2], &[0, 3], &[1, 4], &[1, 5]];

// Clauses, calls, what the last propagation answers, and the literals that are true in the end.
const ROWS: &[(&[&[u32]], &[Call], Step, &[Entry])] = &[
    (CHAIN, &[Call::Propagate], Step::Quiet, &[]),
    (
        CHAIN,
        &[
            Call::Assume(0),
            Call::Propagate,
            Call::Assume(6),
            Call::Propagate,
            Call::BackTo(2),
        ],
        Step::Quiet,
        &[
            (0, 1, None),
            (2, 1, Some(3)),
            (4, 1, Some(2)),
            (6, 2, None),
            (8, 2, Some(1)),
            (10, 2, Some(0)),
        ],
    ),
    (
        CHAIN,
        &[
            Call::Assume(0),
            Call::Propagate,
            Call::Assume(6),
            Call::Propagate,
            Call::BackTo(1),
        ],
        Step::Quiet,
        &[(0, 1, None), (2, 1, Some(3)), (4, 1, Some(2))],
    ),
    (
        CHAIN,
        &[Call::Assume(0), Call::Propagate, Call::BackTo(0)],
        Step::Quiet,
        &[],
    ),
    (
        ALL_SIGNS,
        &[Call::Propagate, Call::Assume(1), Call::Propagate],
        Step::Conflict(1),
        &[(1, 1, None), (2, 1, Some(0))],
    ),
    // The clause of a alone is added behind a conflict.
    (
        ALL_SIGNS,
        &[
            Call::Assume(1),
            Call::Propagate,
            Call::BackTo(0),
            Call::AddUnit(0),
            Call::Propagate,
        ],
        Step::Conflict(3),
        &[(0, 0, Some(4)), (4, 0, Some(2))],
    ),
    // A unit clause names a new variable, and an empty clause is false at once.
    (&[], &[Call::Propagate], Step::Quiet, &[]),
    (
        &[],
        &[Call::AddUnit(7), Call::Propagate],
        Step::Quiet,
        &[(7, 0, Some(0))],
    ),
    (
        &[],
        &[Call::AddUnit(7), Call::AddEmpty, Call::Propagate],
        Step::Conflict(1),
        &[(7, 0, Some(0))],
    ),
];

/// The first row that does not come out as the table says, if there is one.
fn first_wrong(alloc: Global) -> Result<Option<usize>, AllocError> {
    for (k, (clauses, calls, step, entries)) in ROWS.iter().enumerate() {
        if !comes_out(alloc, *clauses, *calls, *step, *entries)? {
            return Ok(Some(k));
        }
    }
    Ok(None)
}

fn comes_out(
    alloc: Global,
    clauses: &[&[u32]],
    calls: &[Call],
    step: Step,
    entries: &[Entry],
) -> Result<bool, AllocError> {
    let mut trail = trail_of(alloc, clauses)?;
    let last = make(alloc, &mut trail, calls)?;
    Ok(last == step && has_entries(&trail, entries))
}

#[test]
fn clauses_make_literals_true_up_to_a_false_clause(rt: HostRuntime) -> Result<(), Fail> {
    let alloc = rt.alloc();
    assert_eq!(rt; first_wrong(alloc)?, None);
    Ok(())
}

/// How many variables the random clauses have.
const VARIABLES: u32 = 9;

/// What a list of random calls to a watched trail and to a plain one came to.
#[derive(Clone, Copy)]
enum Outcome {
    // All calls were made.
    Agreed,
    // A clause was false with nothing assumed.
    Ended,
    Differed,
}

/// A clause of up to four random literals, unless one is another's negation.
fn random_clause(alloc: Global, dice: &mut Dice) -> Result<Option<Clause>, AllocError> {
    let mut lits = Vec::new(alloc);
    for _lit in 0..dice.below(4).saturating_add(1) {
        lits.push(random_lit(dice))?;
    }
    Clause::from_lits(alloc, &lits)
}

fn random_lit(dice: &mut Dice) -> Lit {
    Lit::from_number(dice.below(2 * VARIABLES))
}

fn add_random(
    alloc: Global,
    trail: &mut Trail,
    plain: &mut PlainTrail,
    dice: &mut Dice,
) -> Result<(), AllocError> {
    if let Some(clause) = random_clause(alloc, dice)? {
        trail.add(&clause)?;
        plain.add(clause)?;
    }
    Ok(())
}

fn assume_random(
    trail: &mut Trail,
    plain: &mut PlainTrail,
    dice: &mut Dice,
) -> Result<(), AllocError> {
    let lit = random_lit(dice);
    if assume(trail, lit) {
        plain.assume(lit)?;
    }
    Ok(())
}

/// Propagates in both. Where a clause is false, both go back by a level.
fn propagate_both(trail: &mut Trail, plain: &mut PlainTrail) -> Result<Outcome, AllocError> {
    let quiet = plain.propagate()?;
    if (trail.propagate() == Step::Quiet) != quiet {
        return Ok(Outcome::Differed);
    }
    let levels = plain.levels();
    if quiet {
        Ok(Outcome::Agreed)
    } else if levels == 0 {
        Ok(Outcome::Ended)
    } else {
        back_to(trail, plain, levels - 1);
        Ok(Outcome::Agreed)
    }
}

fn back_to(trail: &mut Trail, plain: &mut PlainTrail, level: u32) {
    trail.back_to(level);
    plain.back_to(level);
}

/// Whether both have the same true literals, at the same levels, and the reason at a place is that of its literal.
fn agree(trail: &Trail, plain: &PlainTrail) -> bool {
    if trail.len() as usize != plain.len() {
        return false;
    }
    for k in 0..trail.len() {
        let lit = trail.at(k);
        if !plain.is_true(lit)
            || trail.level_of(lit) != plain.level_of(lit)
            || trail.reason_at(k) != trail.reason(lit)
        {
            return false;
        }
    }
    true
}

/// Makes a random call to both.
fn make_random(
    alloc: Global,
    trail: &mut Trail,
    plain: &mut PlainTrail,
    dice: &mut Dice,
) -> Result<Outcome, AllocError> {
    match dice.below(8) {
        0..=2 => add_random(alloc, trail, plain, dice)?,
        3..=4 => assume_random(trail, plain, dice)?,
        5..=6 => return propagate_both(trail, plain),
        _ => back_to(trail, plain, dice.below(4)),
    }
    Ok(Outcome::Agreed)
}

/// Makes random calls to both, up to the first one after which they differ.
fn make_calls(
    alloc: Global,
    trail: &mut Trail,
    plain: &mut PlainTrail,
    seed: u64,
) -> Result<Outcome, AllocError> {
    let mut dice = Dice::new(seed);
    for _call in 0..50 {
        match make_random(alloc, trail, plain, &mut dice)? {
            Outcome::Agreed => {}
            Outcome::Ended => return Ok(Outcome::Ended),
            Outcome::Differed => return Ok(Outcome::Differed),
        }
        if !agree(trail, plain) {
            return Ok(Outcome::Differed);
        }
    }
    Ok(Outcome::Agreed)
}

fn outcome_of(alloc: Global, seed: u64) -> Result<Outcome, AllocError> {
    let mut trail = trail_of(alloc, &[])?;
    let mut plain = PlainTrail::new(alloc);
    make_calls(alloc, &mut trail, &mut plain, seed)
}

/// Of so many lists of random calls, how many end with a clause that is false with nothing assumed, and in how many the
/// trails differ.
fn ended_and_differed(alloc: Global, lists: u64) -> Result<(u32, u32), AllocError> {
    let mut ended = 0_u32;
    let mut differed = 0_u32;
    for seed in 0..lists {
        match outcome_of(alloc, seed)? {
            Outcome::Agreed => {}
            Outcome::Ended => ended = ended.saturating_add(1),
            Outcome::Differed => differed = differed.saturating_add(1),
        }
    }
    Ok((ended, differed))
}

// Calls in any order do what they do to a trail that scans all clauses, but for the choice of the false clause.
#[test]
fn random_calls_do_what_plain_scans_do(rt: HostRuntime) -> Result<(), Fail> {
    let alloc = rt.alloc();
    let (ended, differed) = ended_and_differed(alloc, 2000)?;
    assert_eq!(rt; differed, 0);
    assert!(rt; ended > 100 && ended < 1900, "{ended} lists end");
    Ok(())
}
