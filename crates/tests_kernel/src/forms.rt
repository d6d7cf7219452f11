// The form of a text, an input of values, and the word of an answer.

use std::alloc::{AllocError, Global};
use std::test::Fail;
use tcl_kernel::{Answer, Reason};
use tcl_lang::{Input, Ssa};
use tcl_parse::parse;
use tcl_ssa::ssa;
use tcl_types::check;

// The form of a text.
pub(crate) fn form_of_text(alloc: Global, text: &str) -> Result<Ssa, Fail> {
    let parsed = parse(alloc, text.as_bytes())?;
    match check(alloc, parsed) {
        Ok(typed) => Ok(ssa(alloc, &typed)?),
        Err(_) => Err("an ill-typed program")?,
    }
}

// The input of these values.
pub(crate) fn input_of(alloc: Global, values: &[i128]) -> Result<Input, AllocError> {
    let mut input = Input::new(alloc);
    for value in values {
        input.push(*value)?;
    }
    Ok(input)
}

// The word of an answer: `proof`, or that of the reason.
pub(crate) fn word_of(answer: &Answer) -> &'static str {
    match answer {
        Answer::Proof(_) => "proof",
        Answer::Bad(reason) => word_of_reason(*reason),
        Answer::Memory => "memory",
    }
}

fn word_of_reason(reason: Reason) -> &'static str {
    match reason {
        Reason::Claim => "claim",
        Reason::Hyp => "hyp",
        Reason::Order => "order",
        Reason::Uses => "uses",
        Reason::Cube => "cube",
        Reason::Bounds => "bounds",
        Reason::Enum => "enum",
        Reason::Break => "break",
        Reason::LogSize => "log size",
        Reason::Log(_) => "log",
        Reason::LogEnd => "log end",
        Reason::Cofactors => "cofactors",
        Reason::Wide => "wide",
        Reason::Cases => "cases",
    }
}
