// Runs of well typed programs that define a name again, at another type.

ghost use Rattle.std.specs.Prelude.{◌≡◌, length, IfOk, IsTrue};
ghost use Rattle.tcl_lang.specs.Run.{Fits, taken_types};

use super::programs::RUNS;
use super::push_line;
use crate::expected::agree;
use std::alloc::{AllocError, Global};
use std::test::Fail;
use tcl_lang::{Line, Typed, Word, in_type, run, well_typed_programs_run};
use tcl_parse::parse;
use tcl_types::check;

// Whether the input has one value for each that the lines take, in its type.
fn fits(lines: &[Line], input: &[i128]) -> bool
    ensures { IsTrue result → Fits (taken_types lines.now) input.now }
{
    let mut at = 0;
    for k in 0..lines.len() {
        if let Some(ty) = lines[k].taken_type() {
            if input.len() <= at || !ty.is_ty() || !in_type(ty, input[at]) {
                return false;
            }
            at += 1;
        }
    }
    at == input.len()
}

fn run_typed(
    alloc: Global,
    typed: &Typed,
    input: &[i128],
) -> Result<Option<Vec<Word>>, AllocError> {
    well_typed_programs_run();
    let program = typed.program();
    let names = program.names().len();
    let lines = program.lines().as_slice();
    if !fits(lines, input) {
        return Ok(None);
    }
    Ok(Some(run(alloc, names, lines, input)?))
}

fn read_input(alloc: Global, text: &str) -> Result<Vec<i128>, Fail> {
    let mut input = Vec::new(alloc);
    for word in text.split_whitespace() {
        input.push(word.parse::<i128>()?)?;
    }
    Ok(input)
}

fn push_word(text: &mut String, word: &Word) -> Result<(), AllocError> {
    let space = if text.is_empty() { "" } else { " " };
    let sign = if word.ty.signed { 's' } else { 'u' };
    write!(text, "{space}{}@{sign}{}", word.value, word.ty.width)
}

// The words as literals, in the order of the names.
fn written(alloc: Global, store: &[Word]) -> Result<String, AllocError> {
    let mut text = String::new(alloc);
    for word in store {
        push_word(&mut text, word)?;
    }
    Ok(text)
}

fn outcome(alloc: Global, text: &str, input: &str) -> Result<String, Fail> {
    let typed = check(alloc, parse(alloc, text.as_bytes())?)?;
    let input = read_input(alloc, input)?;
    let store = run_typed(alloc, &typed, &input)?.ok_or("no input")?;
    Ok(written(alloc, &store)?)
}

fn ended_outcome(alloc: Global, text: &mut String, input: &str) -> Result<String, Fail> {
    text.push_str("end")?;
    outcome(alloc, text.as_str(), input)
}

// The lines of programs one after the other; each ends with an input and what the names then hold.
#[test]
fn redefinitions(rt: HostRuntime) -> Result<(), Fail> {
    let mut text = String::new(rt.alloc());
    for row in RUNS.lines() {
        if let Some(rest) = row.strip_prefix("run ") {
            let (input, expected) = rest.split_once(": ").ok_or("no outcome")?;
            let found = ended_outcome(rt.alloc(), &mut text, input)?;
            agree(&rt, row, found.as_str(), expected);
            text.clear();
        } else {
            push_line(&mut text, row)?;
        }
    }
    Ok(())
}
