//! The run from an input.

ghost use Rattle.std.specs.Prelude.{◌≡◌, IfOk, length, pos, replicate, slice_index_or};
ghost use Rattle.tcl_lang.specs.Run.{Fits, taken_types};
ghost use Rattle.tcl_lang.specs.Values as words;

use crate::steps::pass;
use std::alloc::{AllocError, Global};
use tcl_lang::{Input, Ssa, Trace};

/// The values of all variables at the end of the run from the input, each in its type. `Err` is that memory has run out.
pub fn run(alloc: Global, ssa: &Ssa, input: &Input) -> Result<Trace, AllocError>
    requires { Fits (taken_types ssa.now.lines) input.now }
    ensures trace { IfOk result (λ trace. trace ≡ words.trace_of ssa.now input.now) }
    ensures typed { IfOk result (λ trace. words.AreValues ssa.now.variables trace) }
{
    let count = ssa.variables().len();
    let mut values = vec![in alloc; 0i128; count]?;
    run_in(ssa, input.as_slice(), &mut values);
    Ok(Trace::from_vec(values))
}

/// The same in values that are all 0 before it.
fn run_in(ssa: &Ssa, input: &[i128], values: &mut [i128])
    requires fits { Fits (taken_types ssa.now.lines) input.now }
    requires begins { values.old ≡ replicate (length ssa.now.variables) (pos 0) }
    ensures { values.new ≡ words.trace_of ssa.now input.now }
{
    let lines = ssa.lines();
    let mut taken = 0;
    for k in 0..lines.len() {
        let line = lines.at(k);
        pass(values, line, next_value(input, taken));
        if line.taken_type().is_some() {
            taken += 1;
        }
    }
}

/// The value of the input that is taken next, or 0 where there is none.
fn next_value(input: &[i128], taken: usize) -> i128
    ensures { result ≡ slice_index_or input.now taken (pos 0) }
{
    match input.get(taken) {
        Some(value) => *value,
        None => 0,
    }
}
