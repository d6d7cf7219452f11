// Clauses, logs of chains, and the checker of logs.

use crate::expected::holds;
use std::alloc::{AllocError, Global};
use std::process::Abort;
use std::test::Fail;
use tcl_cnf::{Clause, Cnf, Lit, Log, LogAnswer, LogFault, LogLines, check_log};
use tcl_list::{Copies, Listing, Same};

fn formula(alloc: Global, clauses: &[&[u32]]) -> Result<Cnf, AllocError> {
    let mut cnf = Cnf::new(alloc);
    for numbers in clauses {
        let mut lits = Vec::new(alloc);
        for number in *numbers {
            lits.push(Lit::from_number(*number))?;
        }
        if let Some(clause) = Clause::from_lits(alloc, &lits)? {
            cnf.push(clause)?;
        }
    }
    Ok(cnf)
}

fn log_lines(alloc: Global, chains: &[&[u32]]) -> Result<LogLines, AllocError> {
    let mut lines = LogLines::new(alloc);
    for chain in chains {
        lines.push(*chain)?;
    }
    Ok(lines)
}

// The clauses of `x = x` for one bit x, denied. Variable 1 is x, 2 is `xor(x, x)` and 3 is `and(true, -2)`. By hand:
// 5 resolved with 0 gives {3, 2}, with {-2} gives {3}, with {-3} gives the empty clause.
const SAME_BIT: &[&[u32]] = &[&[0], &[5, 2], &[5, 3], &[7, 0], &[7, 5], &[6, 1, 4], &[7]];

// All four clauses over variables 0 and 1.
const ALL_SIGNS: &[&[u32]] = &[&[0, 2], &[0, 3], &[1, 2], &[1, 3]];

fn same_bit(alloc: Global) -> Result<Cnf, AllocError> {
    formula(alloc, SAME_BIT)
}

fn all_signs(alloc: Global) -> Result<Cnf, AllocError> {
    formula(alloc, ALL_SIGNS)
}

// Logs over the clauses of `x = x`, with their answers.
const SAME_BIT_LOGS: &[(&str, &[&[u32]], LogAnswer)] = &[
    (
        "a refutation",
        &[&[1, 2], &[5, 0, 7, 6]],
        LogAnswer::Refutes,
    ),
    // Clauses 1 and 3 have no literal and its negation.
    ("no clash", &[&[1, 3], &[5, 0, 7, 6]], LogAnswer::BadLine(0)),
];

// Logs over the clauses of all signs, with their answers.
const ALL_SIGNS_LOGS: &[(&str, &[&[u32]], LogAnswer)] = &[
    // Derived by hand: {x}, {-x}, empty.
    (
        "a refutation",
        &[&[0, 1], &[2, 3], &[4, 5]],
        LogAnswer::Refutes,
    ),
    ("no end", &[&[0, 1], &[2, 3]], LogAnswer::NoEnd),
    ("no line", &[], LogAnswer::NoEnd),
    // {0} and {0}.
    (
        "the last chain lacks its clash",
        &[&[0, 1], &[4, 0]],
        LogAnswer::BadLine(1),
    ),
    ("two clashes at once", &[&[0, 3]], LogAnswer::BadLine(0)),
    (
        "the number of the new clause",
        &[&[4]],
        LogAnswer::BadLine(0),
    ),
    ("an empty chain", &[&[]], LogAnswer::BadLine(0)),
];

// Whether a log over the clauses is answered so.
fn is_answered(
    alloc: Global,
    cnf: &Cnf,
    chains: &[&[u32]],
    answer: LogAnswer,
) -> Result<bool, AllocError> {
    let lines = log_lines(alloc, chains)?;
    Ok(check_log(alloc, cnf, &lines)? == answer)
}

// The logs over the clauses are answered as the table says.
fn expect_answers(
    rt: &impl Abort,
    alloc: Global,
    cnf: &Cnf,
    logs: &[(&str, &[&[u32]], LogAnswer)],
) -> Result<(), AllocError> {
    for (what, chains, answer) in logs {
        let is_so = is_answered(alloc, cnf, *chains, *answer)?;
        holds(rt, what, is_so);
    }
    Ok(())
}

#[test]
fn logs_over_the_clauses_of_one_bit(rt: HostRuntime) -> Result<(), Fail> {
    let cnf = same_bit(rt.alloc())?;
    Ok(expect_answers(&rt, rt.alloc(), &cnf, SAME_BIT_LOGS)?)
}

#[test]
fn logs_over_the_clauses_of_all_signs(rt: HostRuntime) -> Result<(), Fail> {
    let cnf = all_signs(rt.alloc())?;
    Ok(expect_answers(&rt, rt.alloc(), &cnf, ALL_SIGNS_LOGS)?)
}

// Chains over the clauses of all signs, in turn, with their answers: clauses 4 to 6 are {x}, {-x} and the empty clause.
const STEPS: &[(&[u32], Result<u32, LogFault>)] = &[
    (&[0, 3], Err(LogFault::Bad)),
    (&[0, 1], Ok(4)),
    (&[0, 7], Err(LogFault::Bad)),
    (&[2, 3], Ok(5)),
    (&[4, 5], Ok(6)),
];

// Takes the steps up to step `end`, and answers the first that is not answered as the table says, if there is one.
fn first_step_wrong(log: &mut Log, end: usize) -> Option<usize> {
    for (k, (chain, answer)) in STEPS.iter().take(end).enumerate() {
        if log.resolve(*chain) != *answer {
            return Some(k);
        }
    }
    None
}

// What a log shows of itself.
#[derive(Clone, Copy, PartialEq, Eq)]
struct Shown {
    wrong: Option<usize>,
    given: usize,
    len: usize,
    is_refutation: bool,
    has_second_literal: bool,
}

fn shown_by(log: &Log, wrong: Option<usize>) -> Shown {
    Shown {
        wrong,
        given: log.given(),
        len: log.len(),
        is_refutation: log.is_refutation(),
        has_second_literal: log.len() > 5 && log.clause(5).has(Lit::from_number(1)),
    }
}

// What a log shows after the first steps.
fn after_steps(alloc: Global, end: usize) -> Result<Shown, AllocError> {
    let mut log = Log::begin(all_signs(alloc)?);
    let wrong = first_step_wrong(&mut log, end);
    Ok(shown_by(&log, wrong))
}

fn shown_by_copy(log: &Log, wrong: Option<usize>) -> Result<Shown, AllocError> {
    let copy = log.copy()?;
    Ok(shown_by(&copy, wrong))
}

// What its copy shows.
fn copied_after_steps(alloc: Global, end: usize) -> Result<Shown, AllocError> {
    let mut log = Log::begin(all_signs(alloc)?);
    let wrong = first_step_wrong(&mut log, end);
    shown_by_copy(&log, wrong)
}

// A log of all signs that has no wrong step.
fn without_wrong(len: usize, is_refutation: bool) -> Shown {
    Shown {
        wrong: None,
        given: 4,
        len,
        is_refutation,
        has_second_literal: true,
    }
}

#[test]
fn a_log_adds_chains(rt: HostRuntime) -> Result<(), Fail> {
    let before = after_steps(rt.alloc(), 4)?;
    holds(&rt, "before the end", before == without_wrong(6, false));
    let end = after_steps(rt.alloc(), 5)?;
    holds(&rt, "at the end", end == without_wrong(7, true));
    let copied = copied_after_steps(rt.alloc(), 5)?;
    holds(&rt, "the copy", copied == without_wrong(7, true));
    Ok(())
}

// The chains of the log after all steps.
fn sealed(alloc: Global) -> Result<LogLines, AllocError> {
    let mut log = Log::begin(all_signs(alloc)?);
    let _ = first_step_wrong(&mut log, STEPS.len());
    Ok(log.seal())
}

fn are_refuting(alloc: Global, lines: &LogLines) -> Result<bool, AllocError> {
    let cnf = all_signs(alloc)?;
    Ok(check_log(alloc, &cnf, lines)? == LogAnswer::Refutes)
}

fn are_three_with(lines: &LogLines, k: usize, chain: &[u32]) -> bool {
    lines.len() == 3 && k < lines.len() && lines.at(k) == chain
}

fn are_copied(lines: &LogLines) -> Result<bool, AllocError> {
    let copy = lines.copy()?;
    Ok(are_three_with(&copy, 2, &[4, 5]))
}

#[test]
fn a_log_gives_its_chains_back(rt: HostRuntime) -> Result<(), Fail> {
    let lines = sealed(rt.alloc())?;
    let refute = are_refuting(rt.alloc(), &lines)?;
    holds(&rt, "a refutation", refute);
    holds(&rt, "the second chain", are_three_with(&lines, 1, &[2, 3]));
    let copied = are_copied(&lines)?;
    holds(&rt, "the third chain of the copy", copied);
    Ok(())
}

// Literals in any order, and the clause that they make, if there is one.
const CLAUSES: &[(&[u32], Option<&[u32]>)] = &[
    (&[7, 2, 4], Some(&[2, 4, 7])),
    (&[4, 4, 0], Some(&[0, 4])),
    (&[], Some(&[])),
    (&[6, 1, 7], None),
    (&[0, 1], None),
    (
        &[23, 9, 17, 9, 2, 30, 4, 12, 17, 6, 0, 23],
        Some(&[0, 2, 4, 6, 9, 12, 17, 23, 30]),
    ),
    (&[23, 9, 17, 2, 30, 4, 12, 6, 0, 16], None),
];

// Whether the literals make this clause, or none.
fn make(alloc: Global, numbers: &[u32], sorted: Option<&[u32]>) -> Result<bool, AllocError> {
    let cnf = formula(alloc, &[numbers])?;
    match sorted {
        None => Ok(cnf.len() == 0),
        Some(sorted) => {
            if cnf.len() != 1 {
                return Ok(false);
            }
            let clause = cnf.at(0).copy()?;
            Ok(clause.same(cnf.at(0)) && has_in_order(&clause, sorted))
        }
    }
}

// Whether the clause's literals are these, in this order.
fn has_in_order(clause: &Clause, numbers: &[u32]) -> bool {
    clause.len() == numbers.len()
        && clause
            .lits()
            .iter()
            .zip(numbers)
            .all(|(lit, number)| lit.number() == *number)
        && numbers
            .iter()
            .all(|number| clause.has(Lit::from_number(*number)))
}

fn expect_case(rt: &impl Abort, k: usize, is_so: bool) {
    assert!(rt; is_so, "case {k}");
}

#[test]
fn literals_in_any_order_make_a_clause(rt: HostRuntime) -> Result<(), Fail> {
    for (k, (numbers, sorted)) in CLAUSES.iter().enumerate() {
        let is_so = make(rt.alloc(), *numbers, *sorted)?;
        expect_case(&rt, k, is_so);
    }
    Ok(())
}

// The clauses of all signs, and those of one bit behind them.
fn both_formulas(alloc: Global) -> Result<Cnf, AllocError> {
    let mut cnf = all_signs(alloc)?;
    cnf.append(same_bit(alloc)?)?;
    Ok(cnf)
}

#[test]
fn formulas_stand_behind_each_other(rt: HostRuntime) -> Result<(), Fail> {
    let cnf = both_formulas(rt.alloc())?;
    let is_so = cnf.len() == 11 && has_in_order(cnf.at(9), &[1, 4, 6]);
    holds(&rt, "a clause of the second formula", is_so);
    Ok(())
}

// The literals 3 to 8.
fn literals(alloc: Global) -> Result<Listing<Lit>, AllocError> {
    let mut lits = Listing::new(alloc);
    for number in 3..9 {
        lits.push(Lit::from_number(number))?;
    }
    Ok(lits)
}

fn is_copied(alloc: Global) -> Result<bool, AllocError> {
    let lits = literals(alloc)?;
    let copy = lits.copy_in(alloc)?;
    Ok(copy.same(&lits))
}

// Negates the third literal, where there is one.
fn negate_third(lits: &mut Listing<Lit>) -> bool {
    if lits.len() <= 2 {
        return false;
    }
    lits.set(2, Lit::from_number(4));
    true
}

fn differs_by_a_literal(alloc: Global) -> Result<bool, AllocError> {
    let lits = literals(alloc)?;
    let mut other = lits.copy()?;
    Ok(negate_third(&mut other) && !other.same(&lits))
}

fn differs_by_its_length(alloc: Global) -> Result<bool, AllocError> {
    let lits = literals(alloc)?;
    let mut other = lits.copy()?;
    other.truncate(2);
    Ok(!other.same(&lits))
}

#[test]
fn lists_of_literals_are_copied_and_compared(rt: HostRuntime) -> Result<(), Fail> {
    let copied = is_copied(rt.alloc())?;
    holds(&rt, "the copy", copied);
    let negated = differs_by_a_literal(rt.alloc())?;
    holds(&rt, "one literal is negated", negated);
    let shorter = differs_by_its_length(rt.alloc())?;
    holds(&rt, "a shorter list", shorter);
    Ok(())
}
