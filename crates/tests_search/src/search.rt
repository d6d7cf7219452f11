// Searches whose answers are known: equal words, pigeons in holes, and small formulas against all assignments.

use crate::dice::Dice;
use std::alloc::{AllocError, Global};
use std::test::Fail;
use tcl_cnf::{Bits, Clause, Cnf, Lit, Log, LogAnswer, check_log};
use tcl_port::{Poll, Port};
use tcl_sat::{Found, search};

/// A port that counts polls, and cancels at one of them.
#[derive(Drop)]
struct Counter {
    polls: u64,
    cancels: u64,
    cancel_at: u64,
}

impl Port for Counter {
    ghost polls = { λ p. p.polls };

    ghost cancels = { λ p. p.cancels };

    fn poll(&mut self) -> Poll {
        self.polls = self.polls.saturating_add(1);
        if self.polls == self.cancel_at {
            self.cancels = self.cancels.saturating_add(1);
            Poll::Cancelled
        } else {
            Poll::Go
        }
    }
}

/// An answer without its evidence.
#[derive(Clone, Copy, PartialEq, Eq, Debug)]
enum Answer {
    Refutes,
    Model,
    Spent,
    Stopped,
    // The checker of logs does not find a refutation, or the model does not make each clause true.
    Wrong,
}

/// What a search came to: its answer, how many clauses it derived, and how often it polled.
#[derive(Clone, Copy)]
struct Outcome {
    answer: Answer,
    derived: usize,
    polls: u64,
}

/// Searches with this budget and round, at least 1 each, and cancels at the poll of this number, counted from 1.
fn outcome_of(
    alloc: Global,
    cnf: &Cnf,
    budget: u32,
    round: u32,
    cancel_at: u64,
) -> Result<Outcome, AllocError> {
    let mut port = Counter {
        polls: 0,
        cancels: 0,
        cancel_at,
    };
    let found = search(alloc, cnf, budget.max(1), round.max(1), &mut port)?;
    let (answer, derived) = answer_of(alloc, cnf, found)?;
    Ok(Outcome {
        answer,
        derived,
        polls: port.polls,
    })
}

fn answer_of(alloc: Global, cnf: &Cnf, found: Found) -> Result<(Answer, usize), AllocError> {
    match found {
        Found::Refutes(log) => {
            let derived = derived_in(&log);
            Ok((answer_of_log(alloc, cnf, log)?, derived))
        }
        Found::Model(bits) => Ok((answer_of_model(cnf, &bits), 0)),
        Found::Spent(log) => Ok((Answer::Spent, derived_in(&log))),
        Found::Stopped => Ok((Answer::Stopped, 0)),
    }
}

fn derived_in(log: &Log) -> usize {
    log.len().saturating_sub(log.given())
}

fn answer_of_log(alloc: Global, cnf: &Cnf, log: Log) -> Result<Answer, AllocError> {
    let lines = log.seal();
    if check_log(alloc, cnf, &lines)? == LogAnswer::Refutes {
        Ok(Answer::Refutes)
    } else {
        Ok(Answer::Wrong)
    }
}

fn answer_of_model(cnf: &Cnf, bits: &Bits) -> Answer {
    if (0..cnf.len()).all(|k| is_met(cnf.at(k), bits)) {
        Answer::Model
    } else {
        Answer::Wrong
    }
}

/// Whether the bits make some literal of the clause true.
fn is_met(clause: &Clause, bits: &Bits) -> bool {
    clause.lits().iter().any(|lit| has_bit(bits, *lit))
}

fn has_bit(bits: &Bits, lit: Lit) -> bool {
    let variable = lit.variable() as usize;
    variable < bits.len() && *bits.at(variable) != lit.is_negated()
}

/// Appends the clause of the literals of these numbers, unless it is always true. Literal 2v is variable v.
fn add(alloc: Global, cnf: &mut Cnf, numbers: &[u32]) -> Result<(), AllocError> {
    let mut lits = Vec::new(alloc);
    for number in numbers {
        lits.push(Lit::from_number(*number))?;
    }
    if let Some(clause) = Clause::from_lits(alloc, &lits)? {
        cnf.push(clause)?;
    }
    Ok(())
}

/// Formulas whose answers are known.
#[derive(Clone, Copy)]
enum Known {
    // Those of a table, by place.
    Small(usize),
    // So many pigeons, each in one of so many holes, and no two in one.
    Pigeons(u32, u32),
    // The same of all variables but the first, which makes each clause true.
    Loosened(u32, u32),
    // `x = x` for a word of 32 bits, denied.
    SameWord,
    // `x & y = y & x` for words of 32 bits, denied.
    SwappedWords,
}

// No clause; an empty clause; one that propagation alone makes false.
const SMALL: &[&[&[u32]]] = &[&[], &[&[2], &[]], &[&[0, 2], &[1], &[3, 4], &[5]]];

fn formula_of(alloc: Global, known: Known) -> Result<Cnf, AllocError> {
    let mut cnf = Cnf::new(alloc);
    match known {
        Known::Small(place) => add_small(alloc, &mut cnf, place)?,
        Known::Pigeons(count, holes) => add_pigeons(alloc, &mut cnf, count, holes)?,
        Known::Loosened(count, holes) => {
            let mut pigeons = Cnf::new(alloc);
            add_pigeons(alloc, &mut pigeons, count, holes)?;
            add_loosened(alloc, &mut cnf, &pigeons)?;
        }
        Known::SameWord => add_same_word(alloc, &mut cnf)?,
        Known::SwappedWords => add_swapped_words(alloc, &mut cnf)?,
    }
    Ok(cnf)
}

fn add_small(alloc: Global, cnf: &mut Cnf, place: usize) -> Result<(), AllocError> {
    if let Some(clauses) = SMALL.get(place) {
        for numbers in *clauses {
            add(alloc, cnf, *numbers)?;
        }
    }
    Ok(())
}

/// Variable `pigeon * holes + hole` says that the pigeon sits in that hole.
fn add_pigeons(alloc: Global, cnf: &mut Cnf, count: u32, holes: u32) -> Result<(), AllocError> {
    for pigeon in 0..count {
        add_somewhere(alloc, cnf, pigeon, holes)?;
        for other in 0..pigeon {
            add_apart(alloc, cnf, pigeon, other, holes)?;
        }
    }
    Ok(())
}

fn add_somewhere(alloc: Global, cnf: &mut Cnf, pigeon: u32, holes: u32) -> Result<(), AllocError> {
    let mut numbers = Vec::new(alloc);
    for hole in 0..holes {
        numbers.push(sits(pigeon, hole, holes))?;
    }
    add(alloc, cnf, &numbers)
}

fn add_apart(
    alloc: Global,
    cnf: &mut Cnf,
    pigeon: u32,
    other: u32,
    holes: u32,
) -> Result<(), AllocError> {
    for hole in 0..holes {
        add(
            alloc,
            cnf,
            &[sits(pigeon, hole, holes) | 1, sits(other, hole, holes) | 1],
        )?;
    }
    Ok(())
}

fn sits(pigeon: u32, hole: u32, holes: u32) -> u32 {
    pigeon
        .wrapping_mul(holes)
        .wrapping_add(hole)
        .wrapping_mul(2)
}

/// Appends the clauses with the variables one higher, each loosened by variable 0.
fn add_loosened(alloc: Global, cnf: &mut Cnf, clauses: &Cnf) -> Result<(), AllocError> {
    for k in 0..clauses.len() {
        let mut lits = Vec::new(alloc);
        lits.push(Lit::from_number(0))?;
        for lit in clauses.at(k).lits() {
            lits.push(Lit::from_number(lit.number().wrapping_add(2)))?;
        }
        if let Some(clause) = Clause::from_lits(alloc, &lits)? {
            cnf.push(clause)?;
        }
    }
    Ok(())
}

/// Appends the clauses of `gate = a and b`.
fn add_and(alloc: Global, cnf: &mut Cnf, gate: u32, a: u32, b: u32) -> Result<(), AllocError> {
    add(alloc, cnf, &[a, gate ^ 1])?;
    add(alloc, cnf, &[b, gate ^ 1])?;
    add(alloc, cnf, &[a ^ 1, b ^ 1, gate])
}

/// Appends the clauses of `gate = a xor b`.
fn add_xor(alloc: Global, cnf: &mut Cnf, gate: u32, a: u32, b: u32) -> Result<(), AllocError> {
    add(alloc, cnf, &[a, b, gate ^ 1])?;
    add(alloc, cnf, &[a ^ 1, b ^ 1, gate ^ 1])?;
    add(alloc, cnf, &[a ^ 1, b, gate])?;
    add(alloc, cnf, &[a, b ^ 1, gate])
}

/// The literal of this bit of a word whose bits begin with this literal.
fn bit_of(word: u32, bit: u32) -> u32 {
    word.wrapping_add(bit.wrapping_mul(2))
}

/// Appends that some of 32 pairs of bits differ. The gates are numbered from literal `gate` on, two for each pair.
/// Variable 0 is true.
fn add_unequal(alloc: Global, cnf: &mut Cnf, a: u32, b: u32, gate: u32) -> Result<(), AllocError> {
    let mut equal = 0;
    for bit in 0..32_u32 {
        let differ = bit_of(gate, bit.wrapping_mul(2));
        let next = differ ^ 2;
        add_xor(alloc, cnf, differ, bit_of(a, bit), bit_of(b, bit))?;
        add_and(alloc, cnf, next, equal, differ ^ 1)?;
        equal = next;
    }
    add(alloc, cnf, &[equal ^ 1])
}

fn add_same_word(alloc: Global, cnf: &mut Cnf) -> Result<(), AllocError> {
    add(alloc, cnf, &[0])?;
    add_unequal(alloc, cnf, 2, 2, 68)
}

fn add_swapped_words(alloc: Global, cnf: &mut Cnf) -> Result<(), AllocError> {
    add(alloc, cnf, &[0])?;
    for bit in 0..32_u32 {
        let (x, y) = (bit_of(2, bit), bit_of(66, bit));
        add_and(alloc, cnf, bit_of(130, bit), x, y)?;
        add_and(alloc, cnf, bit_of(194, bit), y, x)?;
    }
    add_unequal(alloc, cnf, 130, 194, 260)
}

const KNOWN: &[(Known, Answer)] = &[
    (Known::SameWord, Answer::Refutes),
    (Known::SwappedWords, Answer::Refutes),
    (Known::Pigeons(4, 3), Answer::Refutes),
    (Known::Pigeons(3, 3), Answer::Model),
    (Known::Pigeons(7, 6), Answer::Refutes),
    (Known::Small(0), Answer::Model),
    (Known::Small(1), Answer::Refutes),
    (Known::Small(2), Answer::Refutes),
];

/// The outcome for a formula, with this budget and round and a port that cancels at this poll.
fn outcome_for(
    alloc: Global,
    known: Known,
    budget: u32,
    round: u32,
    cancel_at: u64,
) -> Result<Outcome, AllocError> {
    let cnf = formula_of(alloc, known)?;
    outcome_of(alloc, &cnf, budget, round, cancel_at)
}

#[test]
fn formulas_have_their_known_answers(rt: HostRuntime) -> Result<(), Fail> {
    let alloc = rt.alloc();
    for (k, (known, answer)) in KNOWN.iter().enumerate() {
        let outcome = outcome_for(alloc, *known, 2000, 100, 0)?;
        assert_eq!(rt; outcome.answer, *answer, "formula {k}");
        let most = outcome.polls.saturating_mul(100);
        assert!(rt; outcome.derived as u64 <= most, "formula {k}");
    }
    Ok(())
}

/// Whether some values of so many variables make every clause true.
fn has_model(cnf: &Cnf, variables: u32) -> bool {
    (0..1_u32.wrapping_shl(variables)).any(|values| are_true(cnf, values))
}

fn are_true(cnf: &Cnf, values: u32) -> bool {
    (0..cnf.len()).all(|k| is_true(cnf.at(k), values))
}

/// Whether some literal is true where variable v has the bit of this number.
fn is_true(clause: &Clause, values: u32) -> bool {
    clause.lits().iter().any(|lit| (values.wrapping_shr(lit.variable()) & 1 == 1)
        != lit.is_negated())
}

/// Three random literals of the first variables for each clause.
fn add_random(
    alloc: Global,
    cnf: &mut Cnf,
    seed: u64,
    variables: u32,
    clauses: u32,
) -> Result<(), AllocError> {
    let mut dice = Dice::new(seed);
    let literals = variables.wrapping_mul(2);
    for _clause in 0..clauses {
        let (a, b) = (dice.below(literals), dice.below(literals));
        add(alloc, cnf, &[a, b, dice.below(literals)])?;
    }
    Ok(())
}

/// The answer for a random formula, and whether it has a model.
fn random_answer(alloc: Global, seed: u64) -> Result<(Answer, bool), AllocError> {
    let variables = 3 + (seed % 4) as u32;
    let mut cnf = Cnf::new(alloc);
    add_random(alloc, &mut cnf, seed, variables, 5 * variables)?;
    let outcome = outcome_of(alloc, &cnf, 1000, 7, 0)?;
    Ok((outcome.answer, has_model(&cnf, variables)))
}

#[test]
fn random_formulas_have_a_model_or_are_refuted(rt: HostRuntime) -> Result<(), Fail> {
    let alloc = rt.alloc();
    let mut refuted = 0_u32;
    for seed in 0..300_u64 {
        match random_answer(alloc, seed)? {
            (Answer::Model, true) => {}
            (Answer::Refutes, false) => refuted = refuted.saturating_add(1),
            _ => assert!(rt; false, "formula {seed}"),
        }
    }
    assert!(rt; refuted > 50 && refuted < 250, "{refuted} refuted");
    Ok(())
}

// Seven pigeons in six holes: budget, round and the poll at which the port cancels; then the answer, how many clauses are
// derived, and how often the port is polled.
const BOUNDS: &[(u32, u32, u64, Answer, usize, u64)] = &[
    (1, 1, 0, Answer::Spent, 1, 1),
    (10, 3, 0, Answer::Spent, 10, 4),
    (10, 3, 1, Answer::Stopped, 0, 1),
    (10, 3, 2, Answer::Stopped, 0, 2),
    (10, 10, 2, Answer::Spent, 10, 1),
];

#[test]
fn searches_end_at_their_bounds(rt: HostRuntime) -> Result<(), Fail> {
    let alloc = rt.alloc();
    for (budget, round, cancel_at, answer, derived, polls) in BOUNDS {
        let outcome = outcome_for(alloc, Known::Pigeons(7, 6), *budget, *round, *cancel_at)?;
        assert_eq!(rt; outcome.answer, *answer, "budget {budget}, round {round}");
        assert_eq!(rt; outcome.derived, *derived, "budget {budget}, round {round}");
        assert_eq!(rt; outcome.polls, *polls, "budget {budget}, round {round}");
    }
    Ok(())
}

// A search for a model polls before each round of conflicts, and once where there is none: with rounds of one conflict the
// polls tell how many conflicts there were. The search has to find out that eight pigeons do not sit in seven holes.
#[test]
fn each_round_of_conflicts_is_polled(rt: HostRuntime) -> Result<(), Fail> {
    let alloc = rt.alloc();
    let conflicts = polls_of(alloc, 1)?.saturating_sub(1);
    assert!(rt; conflicts >= 1000, "{conflicts} conflicts");
    for round in [3, 100, 1000] {
        let rounds = conflicts.checked_div(round as u64).unwrap_or(0);
        assert_eq!(rt;
            polls_of(alloc, round)?,
            rounds.saturating_add(1),
            "round {round}"
        );
    }
    Ok(())
}

/// How often a search for a model polls, with this round, or 0 where it does not find one.
fn polls_of(alloc: Global, round: u32) -> Result<u64, AllocError> {
    let outcome = outcome_for(alloc, Known::Loosened(8, 7), 100_000, round, 0)?;
    if outcome.answer == Answer::Model {
        Ok(outcome.polls)
    } else {
        Ok(0)
    }
}
