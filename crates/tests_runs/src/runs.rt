// Runs of forms, and values as text.

ghost use Rattle.std.specs.Prelude.{IfOk, IfSome};
ghost use Rattle.tcl_lang.specs.Values.{AreValues};

use std::alloc::{AllocError, Global};
use std::test::Fail;
use tcl_exec::{fits, run};
use tcl_lang::{Input, Ssa, Trace};

fn input_of(alloc: Global, numbers: &[i128]) -> Result<Input, AllocError> {
    let mut input = Input::new(alloc);
    for number in numbers {
        input.push(*number)?;
    }
    Ok(input)
}

// The values of all variables in the run from these numbers, if they fit.
pub(crate) fn found_trace(alloc: Global, form: &Ssa, numbers: &[i128]) -> Option<Trace>
    ensures { IfSome result (λ trace. AreValues form.now.variables trace) }
{
    let input = input_of(alloc, numbers).ok()?;
    if fits(form, &input) {
        run(alloc, form, &input).ok()
    } else {
        None
    }
}

// The values of all variables in the run from these numbers.
pub(crate) fn trace_of(alloc: Global, form: &Ssa, numbers: &[i128]) -> Result<Trace, Fail>
    ensures { IfOk result (λ trace. AreValues form.now.variables trace) }
{
    match found_trace(alloc, form, numbers) {
        Some(trace) => Ok(trace),
        None => Err("the input does not fit")?,
    }
}

// Numbers as text, with a space in front of each.
pub(crate) fn told(alloc: Global, values: &[i128]) -> Result<String, AllocError> {
    let mut text = String::new(alloc);
    for value in values {
        write!(&mut text, " {value}")?;
    }
    Ok(text)
}
