// A program of ten instructions over all values of its two inputs.

ghost use Rattle.std.specs.Prelude.{◌≡◌, ◌≤◌, All, IfSome, IsTrue, slice_get, slice_set};
ghost use Rattle.tcl_lang.specs.Types.{IsTy};
ghost use Rattle.tcl_lang.specs.Values.{AreValues};
ghost use Rattle.tcl_goals.specs.Order.{InOrder};
ghost use Rattle.tcl_enum.specs.Patterns as patterns;

use std::alloc::{AllocError, Global};
use tcl_enum::{Ended, enumerate};
use tcl_exec::{fits, run, step};
use tcl_goals::{
    Claim, Cube, Fact, Hyps, Lemmas, Uses, are_ordered, are_uses, free_bits, has_claim, has_hyps,
    is_cube,
};
use tcl_lang::{Input, Ssa, Trace, Variable, wrap};
use tcl_parse::parse;
use tcl_ssa::ssa;
use tcl_types::check;

// The places of the instructions.
const FIRST: u32 = 2;

const END: u32 = 12;

// The variable that the last instruction defines.
const LAST: usize = 13;

/// Goes through the values of two inputs of so many bits each, and says the sum of the last results.
pub(crate) fn walk_text(alloc: Global, width: u32) -> Result<String, AllocError> {
    match form_of(alloc, width) {
        Some(form) => walked_text(alloc, &form, width),
        None => String::from_str(alloc, "no program\n"),
    }
}

/// Asks for a claim on the last result in all assignments of the same inputs, and says the answer.
pub(crate) fn enumerate_text(alloc: Global, width: u32) -> Result<String, AllocError> {
    match form_of(alloc, width) {
        Some(form) => answer_text(alloc, &form),
        None => String::from_str(alloc, "no program\n"),
    }
}

fn program_text(alloc: Global, width: u32) -> Result<String, AllocError> {
    let mut text = String::new(alloc);
    for name in ["a", "b"] {
        write!(&mut text, "in u{width} {name}\n")?;
    }
    for (op, words) in STEPS {
        write!(&mut text, "{op} u{width} {words}\n")?;
    }
    write!(&mut text, "assert rng 0@u{width} <= n\nend\n")?;
    Ok(text)
}

const STEPS: &[(&str, &str)] = &[
    ("add", "c a b"),
    ("mul", "d a c"),
    ("xor", "e c d"),
    ("sub", "f e b"),
    ("and", "g f a"),
    ("or", "h g c"),
    ("not", "i h"),
    ("mull", "j k i d"),
    ("adds", "l m j k"),
    ("cmov", "n l m e"),
];

/// The form of the program; none where a word cannot be of so many bits.
fn form_of(alloc: Global, width: u32) -> Option<Ssa> {
    let text = program_text(alloc, width).ok()?;
    let parsed = parse(alloc, text.as_bytes()).ok()?;
    let typed = check(alloc, parsed).ok()?;
    ssa(alloc, &typed).ok()
}

/// The values of all variables in the run from two zeros.
fn zeros(alloc: Global, form: &Ssa) -> Option<Trace>
    ensures { IfSome result (λ trace. AreValues form.now.variables trace) }
{
    let mut input = Input::new(alloc);
    input.push(0).ok()?;
    input.push(0).ok()?;
    if fits(form, &input) {
        run(alloc, form, &input).ok()
    } else {
        None
    }
}

fn walked_text(alloc: Global, form: &Ssa, width: u32) -> Result<String, AllocError> {
    match zeros(alloc, form) {
        Some(trace) => {
            let sum = sum_of_walk(form, &mut trace.into_vec(), width.min(15));
            format!(in alloc; "sum {sum}\n")
        }
        None => String::from_str(alloc, "no run\n"),
    }
}

/// The sum of the last results over all values of the two inputs.
fn sum_of_walk(form: &Ssa, values: &mut [i128], width: u32) -> u64
    requires typed { AreValues form.now.variables values.old }
    requires width { width ≤ 15 }
{
    let mut sum = 0_u64;
    for n in 0..1_u32 << (2 * width) {
        let last = last_result(form, values, n >> width, n % (1_u32 << width));
        sum = sum.wrapping_add(last);
    }
    sum
}

/// The last result where the two inputs have these values.
fn last_result(form: &Ssa, values: &mut [i128], first: u32, second: u32) -> u64
    requires { AreValues form.now.variables values.old }
    ensures { AreValues form.now.variables values.new }
{
    give(form.variables().as_slice(), values, 0, first);
    give(form.variables().as_slice(), values, 1, second);
    for place in FIRST..END {
        step(form, place, values);
    }
    match values.get(LAST) {
        Some(value) => u64::try_from(*value).unwrap_or(0),
        None => 0,
    }
}

/// Gives a variable the value whose lowest bits are those of a number.
fn give(variables: &[Variable], values: &mut [i128], variable: u32, n: u32)
    requires types { All (λ x. IsTy x.ty) variables.now }
    requires typed { AreValues variables.now values.old }
    ensures { AreValues variables.now values.new }
{
    let value = value_with(variables, variable, n);
    set(values, variable, value);
}

fn set(values: &mut [i128], variable: u32, value: i128)
    ensures { values.new ≡ slice_set values.old variable value }
{
    let variable = variable as usize;
    if variable < values.len() {
        values[variable] = value;
    }
}

fn value_with(variables: &[Variable], variable: u32, n: u32) -> i128
    requires { All (λ x. IsTy x.ty) variables.now }
    ensures { result ≡ patterns.value_with (slice_get variables.now variable) n }
{
    match variables.get(variable as usize) {
        Some(variable) => wrap(variable.ty, n as i128),
        None => 0,
    }
}

/// The greatest goal of the program, which is its claim.
fn last_goal(form: &Ssa) -> u32 {
    let mut last = 0;
    for goal in 0..END {
        if has_claim(form, &Claim::Goal(goal)) {
            last = goal;
        }
    }
    last
}

/// The fact that the last goal follows by all instructions.
fn fact_of(alloc: Global, form: &Ssa) -> Result<Fact, AllocError> {
    let mut uses = Uses::new(alloc);
    for place in FIRST..END {
        uses.push(place)?;
    }
    Ok(Fact {
        claim: Claim::Goal(last_goal(form)),
        hyps: Hyps::new(alloc),
        cube: Cube::new(alloc),
        uses,
    })
}

/// Whether the fact is in order.
fn is_in_order(form: &Ssa, fact: &Fact, lemmas: &Lemmas) -> bool
    ensures { IsTrue result → InOrder form.now lemmas.now.items fact.now }
{
    has_claim(form, &fact.claim)
        && has_hyps(form, lemmas, &fact.hyps)
        && are_ordered(form, lemmas, &fact.claim, &fact.hyps)
        && are_uses(form, &fact.claim, &fact.uses)
        && is_cube(form, &fact.claim, &fact.cube)
}

fn answer_text(alloc: Global, form: &Ssa) -> Result<String, AllocError> {
    let fact = fact_of(alloc, form)?;
    let lemmas = Lemmas::new(alloc);
    if !is_in_order(form, &fact, &lemmas) {
        return String::from_str(alloc, "no fact\n");
    }
    let bits = free_bits(alloc, form, &lemmas, &fact)?.len();
    if bits > 20 {
        return format!(in alloc; "bits {bits}\n");
    }
    let name = name_of(&enumerate(alloc, form, &fact, &lemmas));
    format!(in alloc; "{name} bits {bits}\n")
}

fn name_of(ended: &Ended) -> &'static str {
    match ended {
        Ended::All => "all",
        Ended::Fails(_) => "fails",
        Ended::Wide => "wide",
        Ended::Memory => "memory",
    }
}
