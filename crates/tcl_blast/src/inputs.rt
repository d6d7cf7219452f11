//! The input of which a model of the clauses tells.

ghost use Rattle.std.specs.Prelude.{◌≡◌, ◌≤◌, ◌^◌, ◌++◌, pos, All, IfOk, OnOk, length, replicate, slice_get, slice_set};
ghost use Rattle.tcl_bits.specs.Value.{bit_value, unsigned_value};
ghost use Rattle.tcl_cnf.specs.Literal as literals;
ghost use Rattle.tcl_lang.specs.Types.{IsTy};
ghost use Rattle.tcl_lang.specs.Run.{Fits, taken_types};
ghost use Rattle.tcl_lang.specs.Values as plain;
ghost use Rattle.tcl_goals.specs.Free.{width_in};
ghost use Rattle.tcl_slice.specs.Runs.{input_from};
ghost use Rattle.tcl_blast.specs.FreeBits as free_bits;
ghost use Rattle.tcl_blast.specs.Inputs as inputs;

use std::alloc::{AllocError, Global};
use tcl_cnf::Bits;
use tcl_goals::{Fact, Lemmas, free_variables};
use tcl_lang::{Input, Line, Ssa, Variable, wrap};
use tcl_list::Listing;

/// The input that the bits of a model of the fact's clauses give: each line that takes a value takes the number of the free
/// bits of its variable, and 0 where its variable is not free in the fact. A bit that is not listed is not set.
///
/// The only error is that memory has run out.
pub fn input_of(
    alloc: Global,
    ssa: &Ssa,
    fact: &Fact,
    lemmas: &Lemmas,
    bits: &Bits,
) -> Result<Input, AllocError>
    ensures input { IfOk result (λ input. input ≡ inputs.input_of ssa.now lemmas.now.items fact.now bits.now) }
    ensures fits { IfOk result (λ input. Fits (taken_types ssa.now.lines) input) }
{
    let values = free_values(alloc, ssa, fact, lemmas, bits.as_slice())?;
    let input = taken_values(alloc, ssa.lines().as_slice(), values.as_slice())?;
    Ok(input)
}

/// The values of the variables by their free bits.
fn free_values(
    alloc: Global,
    ssa: &Ssa,
    fact: &Fact,
    lemmas: &Lemmas,
    bits: &[bool],
) -> Result<Listing<i128>, AllocError>
    ensures { IfOk result (λ values. values ≡ inputs.free_values ssa.now lemmas.now.items fact.now bits.now) }
{
    let free = free_variables(alloc, ssa, lemmas, fact)?;
    let mut values = zeros(alloc, ssa.variables().len())?;
    give(
        ssa.variables().as_slice(),
        bits,
        free.as_slice(),
        &mut values,
    );
    Ok(values)
}

/// As many values, each 0.
fn zeros(alloc: Global, count: usize) -> Result<Listing<i128>, AllocError>
    ensures { IfOk result (λ values. values ≡ replicate count (pos 0)) }
{
    Ok(Listing::from_vec(vec![in alloc; 0i128; count]?))
}

/// Gives free variables the values of their bits, the first of which is bit 1.
#[tactic(auto, unfolding(crate::specs::FreeBits::given_from))]
fn give(variables: &[Variable], bits: &[bool], free: &[u32], values: &mut Listing<i128>)
    requires words { All (λ x. IsTy x.ty) variables.now }
    requires few { length free.now ≤ 2 ^ 32 }
    ensures { values.new ≡ free_bits.given_from variables.now bits.now 1 free.now values.old }
{
    let mut first = 1;
    for k in 0..free.len() {
        set(values, free[k], value_from(variables, free[k], bits, first));
        first += width_of(variables, free[k]) as usize;
    }
}

/// Gives a variable a value, where there is such a variable.
fn set(values: &mut Listing<i128>, variable: u32, value: i128)
    ensures { values.new ≡ slice_set values.old variable value }
{
    let variable = variable as usize;
    if variable < values.len() {
        values.set(variable, value);
    }
}

/// The width of a variable, 0 where there is none.
fn width_of(variables: &[Variable], variable: u32) -> u32
    requires { All (λ x. IsTy x.ty) variables.now }
    ensures width { result ≡ width_in (slice_get variables.now variable) }
    ensures small { result ≤ 64 }
{
    match variables.get(variable as usize) {
        Some(variable) => variable.ty.width,
        None => 0,
    }
}

/// The value of a variable that has these bits from `first` on.
fn value_from(variables: &[Variable], variable: u32, bits: &[bool], first: usize) -> i128
    requires words { All (λ x. IsTy x.ty) variables.now }
    requires few { first ≤ 2 ^ 40 }
    ensures { result ≡ free_bits.value_from (slice_get variables.now variable) bits.now first }
{
    match variables.get(variable as usize) {
        Some(variable) => wrap(
            variable.ty,
            number_of(bits, first, variable.ty.width) as i128,
        ),
        None => 0,
    }
}

/// The number of as many bits from `first` on, the lowest first.
#[tactic(auto, unfolding(crate::specs::FreeBits::bits_from))]
fn number_of(bits: &[bool], first: usize, width: u32) -> u64
    requires narrow { width ≤ 64 }
    requires few { first ≤ 2 ^ 40 }
    ensures { result ≡ unsigned_value (free_bits.bits_from bits.now first width) }
{
    let mut number = 0;
    let mut left = width as usize;
    while left > 0 {
        left -= 1;
        number = 2 * number + bit_at(bits, first + left);
    }
    number
}

/// Whether a bit is set, as a number; one that is not listed is not.
fn bit_at(bits: &[bool], k: usize) -> u64
    ensures { result ≡ bit_value (literals.value_at bits.now k) }
{
    match bits.get(k) {
        Some(true) => 1,
        _ => 0,
    }
}

/// The input that gives the lines the values of their variables.
#[tactic(auto, using(crate::proofs::TakenValues::input_more))]
fn taken_values(alloc: Global, lines: &[Line], values: &[i128]) -> Result<Input, AllocError>
    ensures { IfOk result (λ input. input ≡ input_from lines.now values.now) }
{
    let mut input = Input::new(alloc);
    for k in 0..lines.len() {
        add_value(&mut input, values, lines[k].taken_name())?;
    }
    Ok(input)
}

/// Adds the value of a variable, if there is one.
fn add_value(input: &mut Input, values: &[i128], variable: Option<u32>) -> Result<(), AllocError>
    ensures ok { OnOk result (input.new ≡ input.old ++ free_bits.taken_value values.now variable) }
{
    match variable {
        None => Ok(()),
        Some(variable) => input.push(value_at(values, variable)),
    }
}

/// The value of a variable, 0 where there is none.
fn value_at(values: &[i128], variable: u32) -> i128
    ensures { result ≡ plain.value_at values.now variable }
{
    match values.get(variable as usize) {
        Some(value) => *value,
        None => 0,
    }
}
