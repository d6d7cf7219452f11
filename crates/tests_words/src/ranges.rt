// Random range predicates at random operands: the values of their gates against the truth of their lines in a run.

ghost use Rattle.std.specs.Prelude.{◌≡◌, ◌≤◌, IfOk, IfSome, OnOk, length, map};
ghost use Rattle.tcl_lang.specs.Values.{AreValues};
ghost use Rattle.tcl_words.specs.Ranges.{AllWithin};

use crate::bits::{evaluate, free_word, number, read};
use crate::random::{INPUTS, Source, predicate};
use std::alloc::{AllocError, Global};
use std::process::Abort;
use std::test::Fail;
use tcl_circuits::Lits;
use tcl_cnf::Lit;
use tcl_exec::{fits, holds, run};
use tcl_gates::Gates;
use tcl_lang::{Input, Line, Pred, Ssa, Trace, Truth};
use tcl_parse::parse;
use tcl_ssa::ssa;
use tcl_types::check;
use tcl_words::{Words, range};

// How many programs are tried, how many lines each has beside its inputs, and at how many operands.
const PROGRAMS: u32 = 8;

const LINES: u32 = 25;

const TRIALS: u32 = 16;

// A program of random range lines.
fn program(alloc: Global, source: &mut Source) -> Result<String, AllocError> {
    let mut text = String::from_str(alloc, INPUTS)?;
    for _ in 0..LINES {
        text.push_str("assert rng ")?;
        text.push_str(predicate(alloc, source)?.as_str())?;
        text.push_str("\n")?;
    }
    text.push_str("end\n")?;
    Ok(text)
}

pub(crate) fn found_form(alloc: Global, text: &str) -> Option<Ssa> {
    let parsed = parse(alloc, text.as_bytes()).ok()?;
    let typed = check(alloc, parsed).ok()?;
    ssa(alloc, &typed).ok()
}

// A word of free bits for each variable.
#[tactic(auto, using(crate::proofs::WordLists::all_within_none, crate::proofs::WordLists::all_within_push, crate::proofs::WordLists::widths_push, tcl_words::proofs::Parts::all_within_grown))]
pub(crate) fn free_words(alloc: Global, gates: &mut Gates, form: &Ssa) -> Result<Words, AllocError>
    ensures within { IfOk result (λ words. AllWithin (length gates.new) words) }
    ensures widths { IfOk result (λ words. map length words ≡ map (λ v. v.ty.width) form.now.variables) }
    ensures count { IfOk result (λ words. length words ≡ length form.now.variables) }
{
    let mut words = Words::new(alloc);
    let variables = form.variables().as_slice();
    for variable in variables {
        let word = free_word(alloc, gates, variable.ty.width)?;
        words.push(word)?;
    }
    Ok(words)
}

// The literal of a range line; of another line that of the constant.
fn lit_of(
    alloc: Global,
    gates: &mut Gates,
    words: &Words,
    form: &Ssa,
    line: &Line,
) -> Result<Lit, AllocError>
    requires { AllWithin (length gates.old) words.now }
    ensures { OnOk result (length gates.old ≤ length gates.new) }
{
    match line.predicate() {
        Some(Pred::Rng(pred)) => range(alloc, gates, words, form, pred),
        _ => Ok(Lit::of(0)),
    }
}

// The literals of all lines.
#[tactic(auto, using(tcl_words::proofs::Parts::all_within_grown))]
fn lits_of(alloc: Global, gates: &mut Gates, words: &Words, form: &Ssa) -> Result<Lits, AllocError>
    requires { AllWithin (length gates.old) words.now }
{
    let mut lits = Lits::new(alloc);
    for line in form.lines().as_slice() {
        lits.push(lit_of(alloc, gates, words, form, line)?)?;
    }
    Ok(lits)
}

// The inputs that the words show.
fn input_of(alloc: Global, bits: &[bool], words: &Words, form: &Ssa) -> Result<Input, AllocError> {
    let mut input = Input::new(alloc);
    let variables = form.variables().as_slice();
    for (word, variable) in words.as_slice().iter().zip(variables) {
        input.push(number(bits, word.as_slice(), variable.ty.signed))?;
    }
    Ok(input)
}

// The values of the variables in the run from the inputs that the words show.
fn found_trace(alloc: Global, bits: &[bool], words: &Words, form: &Ssa) -> Option<Trace>
    ensures { IfSome result (λ trace. AreValues form.now.variables trace) }
{
    let input = input_of(alloc, bits, words, form).ok()?;
    if fits(form, &input) {
        run(alloc, form, &input).ok()
    } else {
        None
    }
}

// The first place at which the literal has another value than the line.
fn first_difference(form: &Ssa, values: &[i128], bits: &[bool], lits: &[Lit]) -> Option<u32>
    requires { AreValues form.now.variables values.now }
{
    let mut place = 0u32;
    for lit in lits {
        let is_true = matches!(holds(form, values, place), Truth::Yes);
        if is_true != read(bits, *lit) {
            return Some(place);
        }
        place = place.wrapping_add(1);
    }
    None
}

// Whether all literals have the values of their lines where the free bits are those of the number.
fn agree(
    alloc: Global,
    gates: &Gates,
    words: &Words,
    lits: &Lits,
    form: &Ssa,
    free: u32,
) -> Result<bool, AllocError> {
    let bits = evaluate(alloc, gates, free)?;
    match found_trace(alloc, &bits, words, form) {
        Some(trace) => {
            Ok(first_difference(form, trace.as_slice(), &bits, lits.as_slice()).is_none())
        }
        None => Ok(false),
    }
}

// Whether the gates of the form agree with it at random operands.
fn is_shown(alloc: Global, source: &mut Source, form: &Ssa) -> Result<bool, AllocError> {
    let mut gates = Gates::new(alloc);
    let words = free_words(alloc, &mut gates, form)?;
    let lits = lits_of(alloc, &mut gates, &words, form)?;
    let mut all = true;
    for _ in 0..TRIALS {
        // The types have eleven bits together.
        all = agree(alloc, &gates, &words, &lits, form, source.below(2048))? && all;
    }
    Ok(all)
}

fn is_program_shown(alloc: Global, source: &mut Source, text: &str) -> Result<bool, AllocError> {
    match found_form(alloc, text) {
        Some(form) => is_shown(alloc, source, &form),
        None => Ok(false),
    }
}

#[test]
fn random_range_lines(rt: HostRuntime) -> Result<(), Fail> {
    let alloc = rt.alloc();
    let mut source = Source { state: 1 };
    for k in 0..PROGRAMS {
        let text = program(alloc, &mut source)?;
        let shown = is_program_shown(alloc, &mut source, text.as_str())?;
        assert!(&rt; shown, "program {k}: {text}");
    }
    Ok(())
}
