//! What comes of a piece, as a text.

use crate::counter::Counter;
use std::alloc::{AllocError, Global};
use tcl_board::Outcome;
use tcl_goals::{BitLit, Cause, Claim, Fact, Shown};
use tcl_kernel::Proof;
use tcl_lang::{Input, Truth};
use tcl_port::{At, What};

/// The values of an input.
fn write_input(text: &mut String, input: &Input) -> Result<(), AllocError> {
    for value in input.as_slice() {
        write!(&mut *text, " {value}")?;
    }
    Ok(())
}

/// The bits of a clause.
fn write_bits(text: &mut String, bits: &[BitLit]) -> Result<(), AllocError> {
    for bit in bits {
        write!(&mut *text, " {}.{}", bit.var, bit.bit)?;
        text.push_str(if bit.value { "=1" } else { "=0" })?;
    }
    Ok(())
}

/// The claim of a fact, and how many lines it rests on.
fn write_fact(text: &mut String, fact: &Fact) -> Result<(), AllocError> {
    match &fact.claim {
        Claim::Goal(goal) => write!(&mut *text, " goal {goal}")?,
        Claim::Lemma(lemma) => {
            write!(&mut *text, " lemma of level {}:", lemma.level)?;
            write_bits(text, lemma.clause.as_slice())?;
        }
    }
    write!(&mut *text, " by {} lines", fact.hyps.len())
}

/// What is shown.
fn write_shown(text: &mut String, shown: &Shown) -> Result<(), AllocError> {
    match shown {
        Shown::Fact(fact) => write_fact(text, fact),
        Shown::Breaks(goal, input) => {
            write!(&mut *text, " break of goal {goal}:")?;
            write_input(text, input)
        }
    }
}

/// A place.
fn write_place(text: &mut String, at: At) -> Result<(), AllocError> {
    match at {
        At::Claim => text.push_str(" claim"),
        At::Line(line) => write!(text, " line {line}"),
    }
}

/// A size.
fn word_of(what: What) -> &'static str {
    match what {
        What::Clauses => "clauses",
        What::Degree => "degree",
        What::Terms => "terms",
    }
}

/// A truth.
fn word_of_truth(truth: Truth) -> &'static str {
    match truth {
        Truth::Yes => "yes",
        Truth::No => "no",
        Truth::Wide => "wide",
    }
}

/// A cause.
fn write_cause(text: &mut String, cause: &Cause) -> Result<(), AllocError> {
    match cause {
        Cause::Model => text.push_str(" model"),
        Cause::Steps(count) => write!(text, " steps {count}"),
        Cause::Width(at) => {
            text.push_str(" width")?;
            write_place(text, *at)
        }
        Cause::Size(what, count) => write!(text, " size {} {count}", word_of(*what)),
        Cause::Rest(_, _) => text.push_str(" rest"),
        Cause::Stray(line, truth, input) => {
            write!(
                &mut *text,
                " stray at line {line}, {}:",
                word_of_truth(*truth)
            )?;
            write_input(text, input)
        }
        Cause::Later => text.push_str(" later"),
    }
}

/// What comes of a piece, and how many polls the port has counted. The only error is that memory has run out.
pub fn text_of_given(
    alloc: Global,
    given: &Option<Outcome<Proof>>,
    port: &Counter,
) -> Result<String, AllocError> {
    let mut text = String::new(alloc);
    match given {
        None => text.push_str("nothing")?,
        Some(Outcome::Shown(proof)) => {
            text.push_str("shown")?;
            write_shown(&mut text, proof.shown())?;
        }
        Some(Outcome::Lemma(proof)) => {
            text.push_str("given")?;
            write_shown(&mut text, proof.shown())?;
        }
        Some(Outcome::Ended(cause)) => {
            text.push_str("ended")?;
            write_cause(&mut text, cause)?;
        }
    }
    write!(&mut text, ", {} polls", port.polls)?;
    Ok(text)
}
