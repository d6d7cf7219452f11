//! The values of one assignment, over those of another.

ghost use Rattle.std.specs.Prelude.{◌≡◌, ◌/◌, ◌^◌, ◌≤◌, ◌++◌, All, IfOk, drop, length, slice_get, slice_set};
ghost use Rattle.tcl_lang.specs.Types.{IsTy};
ghost use Rattle.tcl_lang.specs.Values.{AreValues};
ghost use Rattle.tcl_goals.specs.Free.{width_in};
ghost use Rattle.tcl_enum.specs.Patterns as patterns;

use crate::ended::{FreeValue, FreeValues};
use std::alloc::{AllocError, Global};
use tcl_exec::step;
use tcl_lang::{Ssa, Variable, wrap};

/// Gives the free variables their values in assignment `n`. The last has the lowest bits of `n`.
#[tactic(auto, unfolding(crate::specs::Patterns::bit_count, crate::specs::Patterns::values_numbered), using(crate::proofs::FreeBits::fewer_bits))]
pub(crate) fn give(variables: &[Variable], free: &[u32], n: u32, values: &mut [i128])
    requires words { All (λ x. IsTy x.ty) variables.now }
    requires few { patterns.bit_count variables.now free.now ≤ 20 }
    ensures { values.new ≡ patterns.given (patterns.values_numbered variables.now free.now n) values.old }
{
    let mut shift = 0;
    let mut k = free.len();
    while k > 0 {
        k -= 1;
        set(values, free[k], value_with(variables, free[k], n >> shift));
        shift += width_of(variables, free[k]);
    }
}

/// The free variables with their values in assignment `n`. The only error is that memory has run out.
#[tactic(auto, unfolding(crate::specs::Patterns::bit_count, crate::specs::Patterns::values_numbered), using(crate::proofs::FreeBits::fewer_bits))]
pub(crate) fn free_values(
    alloc: Global,
    variables: &[Variable],
    free: &[u32],
    n: u32,
) -> Result<FreeValues, AllocError>
    requires words { All (λ x. IsTy x.ty) variables.now }
    requires few { patterns.bit_count variables.now free.now ≤ 20 }
    ensures { IfOk result (λ values. values ≡ patterns.values_numbered variables.now free.now n) }
{
    let mut shift = bit_count(variables, free);
    let mut values = FreeValues::new(alloc);
    for k in 0..free.len() {
        shift -= width_of(variables, free[k]);
        values.push(FreeValue {
            var: free[k],
            value: value_with(variables, free[k], n >> shift),
        })?;
    }
    Ok(values)
}

/// How many bits these variables have.
#[tactic(auto, unfolding(crate::specs::Patterns::bit_count), using(crate::proofs::FreeBits::fewer_bits))]
fn bit_count(variables: &[Variable], free: &[u32]) -> u32
    requires { patterns.bit_count variables.now free.now ≤ 20 }
    ensures { result ≡ patterns.bit_count variables.now free.now }
{
    let mut count = 0;
    let mut k = free.len();
    while k > 0 {
        k -= 1;
        count += width_of(variables, free[k]);
    }
    count
}

/// Computes used instructions anew, in this order.
pub(crate) fn recompute(ssa: &Ssa, uses: &[u32], values: &mut [i128])
    requires { AreValues ssa.now.variables values.old }
    ensures values { values.new ≡ patterns.recomputed_all ssa.now.lines uses.now values.old }
    ensures typed { AreValues ssa.now.variables values.new }
{
    for k in 0..uses.len() {
        step(ssa, uses[k], values);
    }
}

/// Gives a variable a value, where there is such a variable.
fn set(values: &mut [i128], variable: u32, value: i128)
    ensures { values.new ≡ slice_set values.old variable value }
{
    let variable = variable as usize;
    if variable < values.len() {
        values[variable] = value;
    }
}

/// The value of a variable whose lowest bits are those of `n`.
fn value_with(variables: &[Variable], variable: u32, n: u32) -> i128
    requires { All (λ x. IsTy x.ty) variables.now }
    ensures { result ≡ patterns.value_with (slice_get variables.now variable) n }
{
    match variables.get(variable as usize) {
        Some(variable) => wrap(variable.ty, n as i128),
        None => 0,
    }
}

/// The width of a variable; 0 where there is none.
fn width_of(variables: &[Variable], variable: u32) -> u32
    ensures { result ≡ width_in (slice_get variables.now variable) }
{
    match variables.get(variable as usize) {
        Some(variable) => variable.ty.width,
        None => 0,
    }
}
