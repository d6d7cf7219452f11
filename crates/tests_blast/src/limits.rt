// Counts of clauses, and facts of too many. The reference, a second implementation, made the counts of the table, and those
// that the parts of the long programs add.

use crate::expected::holds;
use crate::facts::{clauses_of, whole_fact};
use crate::forms::form_of_text;
use std::alloc::{AllocError, Global};
use std::process::Abort;
use std::test::Fail;
use tcl_goals::{Fact, Lemmas};
use tcl_lang::Ssa;

// A program, a goal, and the count of the clauses of its whole fact.
const COUNTS: &[(&str, u32, usize)] = &[
    (
        "in u32 x\npre rng x <= 3@u32\ncut rng x <= 10@u32\nassert rng x <= 5@u32\nend",
        0,
        385,
    ),
    (
        "in u32 x\npre rng x <= 3@u32\ncut rng x <= 10@u32\nassert rng x <= 5@u32\nend",
        1,
        578,
    ),
    (
        "in u32 x\npre alg x*x = 4\nassert rng x = 2@u32\nend",
        0,
        226,
    ),
    ("in u1 a\nassert rng a * a = a\nend", 0, 12),
    ("in u8 a\nassert rng a * a = a\nend", 0, 558),
    (
        "in u32 a\nin u32 b\nmull u32 h l a b\nassert rng true\nend",
        0,
        34_466,
    ),
    (
        "in u64 a\nin u64 b\nmull u64 h l a b\nassert rng true\nend",
        0,
        138_562,
    ),
];

// The count of the clauses of a fact, or that of clauses that are too many.
fn count_in(alloc: Global, form: &Ssa, fact: &Fact) -> Result<Result<usize, u32>, Fail> {
    match clauses_of(alloc, form, fact, &Lemmas::new(alloc))? {
        Ok(cnf) => Ok(Ok(cnf.len())),
        Err(count) => Ok(Err(count)),
    }
}

// The same of a goal's whole fact.
fn count_at(alloc: Global, form: &Ssa, goal: u32) -> Result<Result<usize, u32>, Fail> {
    let fact = whole_fact(alloc, form, goal)?;
    count_in(alloc, form, &fact)
}

fn count_of(alloc: Global, program: &str, goal: u32) -> Result<Result<usize, u32>, Fail> {
    let form = form_of_text(alloc, program)?;
    count_at(alloc, &form, goal)
}

// A goal of a product of so many factors of 64 bits: 34,914 clauses for two of them, and 34,464 for each further one. Each of
// the sums before it adds 1,217, and each other line one.
fn long_program(alloc: Global, factors: u32, sums: u32, others: u32) -> Result<String, AllocError> {
    let mut text = String::new(alloc);
    write!(text, "in u64 a\n")?;
    for _ in 0..sums {
        write!(text, "pre rng a + a = a\n")?;
    }
    for _ in 0..others {
        write!(text, "pre rng true\n")?;
    }
    write!(text, "assert rng a")?;
    for _ in 1..factors {
        write!(text, " * a")?;
    }
    write!(text, " = a\nend")?;
    Ok(text)
}

fn expect_count(rt: &impl Abort, program: &str, found: Result<usize, u32>, wanted: usize) {
    assert!(rt; found == Ok(wanted), "{wanted} clauses of {program}");
}

#[test]
fn counts_of_clauses(rt: HostRuntime) -> Result<(), Fail> {
    for (program, goal, count) in COUNTS {
        let found = count_of(rt.alloc(), program, *goal)?;
        expect_count(&rt, program, found, *count);
    }
    Ok(())
}

fn count_of_long(
    alloc: Global,
    factors: u32,
    sums: u32,
    others: u32,
) -> Result<Result<usize, u32>, Fail> {
    let program = long_program(alloc, factors, sums, others)?;
    count_of(alloc, program.as_str(), 0)
}

#[test]
fn as_many_clauses_as_there_may_be(rt: HostRuntime) -> Result<(), Fail> {
    let found = count_of_long(rt.alloc(), 122, 19, 587)?;
    expect_count(&rt, "the longest", found, 4_194_304);
    Ok(())
}

#[test]
fn one_clause_too_many(rt: HostRuntime) -> Result<(), Fail> {
    let found = count_of_long(rt.alloc(), 122, 19, 588)?;
    holds(&rt, "one clause too many", found == Err(4_194_305));
    Ok(())
}

#[test]
fn far_too_many_clauses(rt: HostRuntime) -> Result<(), Fail> {
    let found = count_of_long(rt.alloc(), 4_000, 0, 0)?;
    holds(&rt, "far too many clauses", found == Err(4_194_305));
    Ok(())
}
