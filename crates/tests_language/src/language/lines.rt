// What the lines of a program answer of themselves. The names are a, b, c, d, e, numbered from 0 in this order; the rest
// was read off the text by hand.

ghost use Rattle.std.specs.Prelude.{◌<◌, ◌^◌, IfOk};
ghost use Rattle.tcl_lang.specs.Limit as limit;

use crate::expected::{agree, holds};
use std::alloc::{AllocError, Global};
use std::test::Fail;
use tcl_lang::{Input, Line, Parsed, definitions_before};
use tcl_list::{Copies, Same};
use tcl_parse::parse;

const TEXT: &[u8] = b"\
in u8 a
in u8 b
pre alg a + b * 2 = 10 mod 5
nondet u8 c
adds u8 d e a c
mov u8 e 3@u8
assert rng a + e < 3@u8 && b = b
assume alg d = 0
cut rng true
cut alg e - e**2 = a
post alg c = c
end
";

// For each line its part, the names that it reads, those that it defines, the name of the value that it takes, and whether
// it is an `in` line or states an algebraic predicate.
const ANSWERS: &str = "\
0 reads defines 0 takes 0 input
0 reads defines 1 takes 1 input
1 reads 0 1 defines algebraic
2 reads defines 2 takes 2
2 reads 0 2 defines 3 4
2 reads defines 4
2 reads 0 4 1 1 defines
2 reads 3 defines algebraic
2 reads defines
2 reads 4 4 0 defines algebraic
3 reads 2 2 defines algebraic
";

fn write_word(text: &mut String, word: &str, name: u32) -> Result<(), AllocError> {
    write!(text, "{word} {name}")
}

fn write_used(text: &mut String, line: &Line) -> Result<(), AllocError> {
    for k in 0..8 {
        if let Some(name) = line.used_name(k) {
            write_word(text, "", name)?;
        }
    }
    Ok(())
}

fn write_defined(text: &mut String, line: &Line) -> Result<(), AllocError> {
    for k in 0..line.defined_count() {
        if let Some(name) = line.defined_name(k) {
            write_word(text, "", name)?;
        }
    }
    Ok(())
}

fn write_kind(text: &mut String, line: &Line) -> Result<(), AllocError> {
    if line.is_input() {
        text.push_str(" input\n")
    } else if line.is_algebraic() {
        text.push_str(" algebraic\n")
    } else {
        text.push_str("\n")
    }
}

fn write_stage(text: &mut String, stage: u32) -> Result<(), AllocError> {
    write!(text, "{stage} reads")
}

fn write_line(text: &mut String, line: &Line) -> Result<(), AllocError> {
    write_stage(text, line.stage())?;
    write_used(text, line)?;
    text.push_str(" defines")?;
    write_defined(text, line)?;
    if let Some(name) = line.taken_name() {
        write_word(text, " takes", name)?;
    }
    write_kind(text, line)
}

fn program(alloc: Global) -> Result<Parsed, Fail>
    ensures { IfOk result (λ p. limit.KeepsLimits p.program.lines) }
{
    Ok(parse(alloc, TEXT).ok().ok_or("no program")?)
}

fn answers(alloc: Global, lines: &[Line]) -> Result<String, AllocError> {
    let mut text = String::new(alloc);
    for line in lines {
        write_line(&mut text, line)?;
    }
    Ok(text)
}

#[test]
fn words_of_lines(rt: HostRuntime) -> Result<(), Fail> {
    let parsed = program(rt.alloc())?;
    let text = answers(rt.alloc(), parsed.program().lines().as_slice())?;
    agree(&rt, "words of lines", text.as_str(), ANSWERS);
    Ok(())
}

// The numbers of the first variables of the lines, and of the end.
fn are_definitions(lines: &[Line], expected: &[u32]) -> bool
    requires { limit.definition_count lines.now < 2 ^ 32 }
{
    if expected.len() != lines.len() + 1 {
        return false;
    }
    for place in 0..expected.len() {
        if place > lines.len() || definitions_before(lines, place) != expected[place] {
            return false;
        }
    }
    true
}

#[test]
fn definitions_before_lines(rt: HostRuntime) -> Result<(), Fail> {
    let parsed = program(rt.alloc())?;
    let expected = &[0, 1, 2, 2, 3, 5, 6, 6, 6, 6, 6, 6];
    let is_so = are_definitions(parsed.program().lines().as_slice(), expected);
    holds(&rt, "the numbers of definitions", is_so);
    Ok(())
}

fn reads(line: &Line, name: u32) -> bool {
    for k in 0..8 {
        if line.used_name(k) == Some(name) {
            return true;
        }
    }
    false
}

// A line uses the names that it reads, and no other.
fn uses_what_it_reads(line: &Line) -> bool {
    for name in 0..6u32 {
        if line.uses(name) != reads(line, name) {
            return false;
        }
    }
    true
}

#[test]
fn uses_of_names(rt: HostRuntime) -> Result<(), Fail> {
    let parsed = program(rt.alloc())?;
    for line in parsed.program().lines().as_slice() {
        holds(&rt, "the names of a line", uses_what_it_reads(line));
    }
    Ok(())
}

// Whether the line with a copy of its own predicate is the line, or it has none.
fn is_itself(alloc: Global, line: &Line) -> Result<bool, AllocError> {
    match line.predicate() {
        Some(pred) => Ok(line.with_predicate(pred.copy_in(alloc)?).same(line)),
        None => Ok(true),
    }
}

// A line with a copy of its own predicate is the line; with that of another it is of its own kind.
fn are_themselves(alloc: Global, lines: &[Line]) -> Result<bool, AllocError> {
    for line in lines {
        if !is_itself(alloc, line)? {
            return Ok(false);
        }
    }
    Ok(true)
}

#[test]
fn lines_with_their_predicates(rt: HostRuntime) -> Result<(), Fail> {
    let parsed = program(rt.alloc())?;
    let is_so = are_themselves(rt.alloc(), parsed.program().lines().as_slice())?;
    holds(&rt, "the same lines", is_so);
    Ok(())
}

// Whether a copy has the same program and the same places.
fn is_copied(parsed: &Parsed) -> Result<bool, AllocError> {
    let copy = parsed.copy()?;
    Ok(copy.program().same(parsed.program()) && copy.places().same(parsed.places()))
}

#[test]
fn copies_are_equal(rt: HostRuntime) -> Result<(), Fail> {
    let parsed = program(rt.alloc())?;
    let is_so = is_copied(&parsed)?;
    holds(&rt, "the program and its places", is_so);
    Ok(())
}

// Inputs and lines may be shared by threads.
fn is_shared<T: Send + Sync>() {}

#[test]
fn inputs_and_lines_are_shared(_rt: HostRuntime) {
    is_shared::<Input>();
    is_shared::<Line>();
}
