// Typing: the first ill-typed line of a text by its number, with its first reason. A second implementation of the
// language, the reference, made the tables by its commands `check` and `run`.

mod instructions;
mod predicates;
mod programs;
mod runs;

use crate::expected::agree;
use std::alloc::{AllocError, Global};
use std::process::Abort;
use std::test::Fail;
use tcl_lang::{Line, Parsed, Reason};
use tcl_parse::parse;
use tcl_types::{TypeFault, Types, check, reason_at};

fn word_of(reason: Option<Reason>) -> &'static str {
    match reason {
        None => "fine",
        Some(Reason::Kind) => "kind",
        Some(Reason::Amount) => "amount",
        Some(Reason::Undefined) => "undefined",
        Some(Reason::Literal) => "literal",
        Some(Reason::Mismatch) => "mismatch",
        Some(Reason::Repeated) => "repeated",
        Some(Reason::Modulus) => "modulus",
    }
}

// `fine`, or the number of the first ill-typed line and its first reason.
fn outcome(alloc: Global, parsed: Parsed) -> Result<String, Fail> {
    match check(alloc, parsed) {
        Ok(_) => Ok(String::from_str(alloc, "fine")?),
        Err(TypeFault::Ill(number, reason)) => {
            Ok(format!(in alloc; "{number} {}", word_of(Some(reason)))?)
        }
        Err(TypeFault::Memory) => Err("out of memory")?,
    }
}

// The types of the names that all rows have in common.
fn types_of_names(alloc: Global) -> Result<Types, Fail> {
    let text = format!(in alloc; "{}end", instructions::NAMES)?;
    let parsed = parse(alloc, text.as_bytes())?;
    let mut types = Types::new(alloc, 26)?;
    for line in parsed.program().lines().as_slice() {
        if let Line::Input(ty, name) = line {
            types.set(*name, *ty);
        }
    }
    Ok(types)
}

// The first reason of the last line.
fn last_reason(types: &Types, parsed: &Parsed) -> &'static str {
    match parsed.program().lines().as_slice().last() {
        Some(line) => word_of(reason_at(types, line)),
        None => "no line",
    }
}

// The last line's reason by its types, and the outcome of its text.
fn reasons_of(alloc: Global, types: &Types, line: &str) -> Result<(&'static str, String), Fail> {
    let text = format!(in alloc; "{}{line}\nend", instructions::NAMES)?;
    let parsed = parse(alloc, text.as_bytes())?;
    let reason = last_reason(types, &parsed);
    Ok((reason, outcome(alloc, parsed)?))
}

// The row is a reason and a line, which stands in line 15 of a text behind the names.
fn expect_row(rt: &impl Abort, alloc: Global, types: &Types, row: &str) -> Result<(), Fail> {
    let (reason, line) = row.split_once(": ").ok_or("no reason")?;
    let (last, found) = reasons_of(alloc, types, line)?;
    agree(rt, line, last, reason);
    let word = found.as_str();
    agree(rt, line, word.strip_prefix("15 ").unwrap_or(word), reason);
    Ok(())
}

const TABLES: &[&str] = &[
    instructions::INPUTS,
    instructions::COPIES,
    instructions::SUMS,
    instructions::PRODUCTS,
    instructions::PARTS,
    instructions::CHOICES,
    predicates::EQUATIONS,
    predicates::WORDS,
];

#[test]
fn reasons_of_lines(rt: HostRuntime) -> Result<(), Fail> {
    let types = types_of_names(rt.alloc())?;
    for rows in TABLES {
        for row in rows.lines() {
            expect_row(&rt, rt.alloc(), &types, row)?;
        }
    }
    Ok(())
}

fn outcome_of_text(alloc: Global, text: &str) -> Result<String, Fail> {
    outcome(alloc, parse(alloc, text.as_bytes())?)
}

fn push_line(text: &mut String, row: &str) -> Result<(), AllocError> {
    text.push_str(row)?;
    text.push_str("\n")
}

fn ended_outcome(alloc: Global, text: &mut String) -> Result<String, Fail> {
    text.push_str("end")?;
    outcome_of_text(alloc, text.as_str())
}

// An empty line counts, and says nothing.
#[test]
fn outcomes_of_programs(rt: HostRuntime) -> Result<(), Fail> {
    let mut text = String::new(rt.alloc());
    for row in programs::PROGRAMS.lines() {
        if let Some(expected) = row.strip_prefix("end: ") {
            let found = ended_outcome(rt.alloc(), &mut text)?;
            agree(&rt, text.as_str(), found.as_str(), expected);
            text.clear();
        } else {
            push_line(&mut text, row)?;
        }
    }
    Ok(())
}

fn push_summand(text: &mut String, k: u32) -> Result<(), AllocError> {
    write!(text, " + n{k}")
}

// The sum of the first 2,000 names.
fn push_sum(text: &mut String) -> Result<(), AllocError> {
    text.push_str("n0")?;
    for k in 1..2000_u32 {
        push_summand(text, k)?;
    }
    Ok(())
}

fn push_equation(text: &mut String, start: &str) -> Result<(), AllocError> {
    text.push_str(start)?;
    push_sum(text)?;
    text.push_str(" = ")?;
    push_sum(text)?;
    text.push_str("\n")
}

fn push_input(text: &mut String, k: u32) -> Result<(), AllocError> {
    write!(text, "in u64 n{k}\n")
}

fn push_step(text: &mut String, k: u32) -> Result<(), AllocError> {
    write!(
        text,
        "xor u64 n{} n{k} n{}\n",
        k.saturating_add(4096),
        k.saturating_add(4095)
    )
}

fn push_inputs(text: &mut String) -> Result<(), AllocError> {
    for k in 0..4096_u32 {
        push_input(text, k)?;
    }
    Ok(())
}

fn push_steps(text: &mut String) -> Result<(), AllocError> {
    for k in 0..4096_u32 {
        push_step(text, k)?;
    }
    Ok(())
}

// 4,096 inputs, 4,096 instructions, and predicates with nearly 4,096 operators each.
fn long_text(alloc: Global) -> Result<String, AllocError> {
    let mut text = String::new(alloc);
    push_inputs(&mut text)?;
    push_steps(&mut text)?;
    for _ in 0..12 {
        push_equation(&mut text, "assert rng ")?;
        push_equation(&mut text, "assert alg ")?;
    }
    Ok(text)
}

// The same with these lines.
fn long_text_with(alloc: Global, lines: &str) -> Result<String, AllocError> {
    let mut text = long_text(alloc)?;
    text.push_str(lines)?;
    Ok(text)
}

// The same with a sum that has another type than the number.
fn long_text_of_two_types(alloc: Global) -> Result<String, AllocError> {
    let mut text = long_text_with(alloc, "assert rng ")?;
    push_sum(&mut text)?;
    text.push_str(" = 0@u1\nend")?;
    Ok(text)
}

#[test]
fn programs_at_the_limits(rt: HostRuntime) -> Result<(), Fail> {
    let text = long_text_with(rt.alloc(), "end")?;
    let found = outcome_of_text(rt.alloc(), text.as_str())?;
    agree(&rt, "the longest", found.as_str(), "fine");
    Ok(())
}

#[test]
fn two_types_at_the_limits(rt: HostRuntime) -> Result<(), Fail> {
    let text = long_text_of_two_types(rt.alloc())?;
    let found = outcome_of_text(rt.alloc(), text.as_str())?;
    agree(&rt, "the last line", found.as_str(), "8217 mismatch");
    Ok(())
}
