//! The input of an assignment that denies a fact.

ghost use Rattle.std.specs.Prelude.{◌≡◌, ◌++◌, IfOk, OnOk, OnErr};
ghost use Rattle.tcl_worker.specs.Inputs as inputs;

use std::alloc::{AllocError, Global};
use tcl_enum::FreeValue;
use tcl_lang::{Input, Lines};

/// The value of a variable among free ones, 0 where it is not there.
#[tactic(auto, unfolding(crate::specs::Inputs::looked_up))]
fn looked_up(free: &[FreeValue], variable: u32) -> i128
    ensures { result ≡ inputs.looked_up free.now variable }
{
    for k in 0..free.len() {
        if free[k].var == variable {
            return free[k].value;
        }
    }
    0
}

/// Adds the value of a variable, if there is one.
fn add_value(input: &mut Input, free: &[FreeValue], variable: Option<u32>) -> Result<(), AllocError>
    ensures ok { OnOk result (input.new ≡ input.old ++ inputs.value_of free.now variable) }
{
    match variable {
        None => Ok(()),
        Some(variable) => input.push(looked_up(free, variable)),
    }
}

/// The input that gives the lines the values of these free variables, and 0 to all others.
#[tactic(auto, using(crate::proofs::InputLines::input_more))]
pub(crate) fn input_of(
    alloc: Global,
    free: &[FreeValue],
    lines: &Lines,
) -> Result<Input, AllocError>
    ensures { IfOk result (λ input. input ≡ inputs.input_of free.now lines.now) }
{
    let mut input = Input::new(alloc);
    for k in 0..lines.len() {
        add_value(&mut input, free, lines.at(k).taken_name())?;
    }
    Ok(input)
}
