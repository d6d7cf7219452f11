// The truth of lines at the ends of what 128 bits can tell. The truths come from integers of python3.

ghost use Rattle.tcl_lang.specs.Values.{AreValues};

use crate::forms::found_form;
use crate::runs::found_trace;
use std::alloc::{AllocError, Global};
use std::process::Abort;
use std::test::Fail;
use std::thread::join;
use tcl_exec::holds;
use tcl_lang::{Ssa, Truth};

const LINES: &str = "\
in u64 x
in u1 y
in s8 s
assert alg 42535295865117307932921825928971026431 = 42535295865117307932921825928971026431 + y
assert alg 42535295865117307932921825928971026431 = 42535295865117307932921825928971026431 + y + y
assert alg 42535295865117307932921825928971026432 = 42535295865117307932921825928971026432
assert alg 42535295865117307932921825928971026431 = 42535295865117307932921825928971026430 + y
assert alg 2**127 = 0
assert alg 2**64 = 0
assert alg 2**128 = 0
assert alg 2**200 = 0
assert alg 0**0 = 1
assert alg (x - x)**0 = 1
assert alg y**0 = 0
assert alg x = 18446744073709551615
assert alg x = x - 1
assert alg x = 0 mod 1
assert alg 2**126 = 0 mod 2**126
assert alg 2**125 = 0 mod 2**126
assert alg 7**1000 = 31914549248880444992200011454703695411 mod 2**126 - 2**3 + 5
assert alg 7**1000 = 31914549248880444992200011454703695411 + 1 mod 2**126 - 2**3 + 5
assert alg -(x) = 1 mod 2**64
assert alg x = 0 mod 2**127
assert alg y = 0 mod 85070591730234615865843651857942052865
assert alg y = 0 mod 85070591730234615865843651857942052864
assert rng x = -(1@u64)
assert rng x + 1@u64 = 0@u64 && !true
assert rng s < 0@s8 || false
assert rng s = ~s + 1@s8
assert rng cast(u4, s) = 0@u4
assert rng x * x = 1@u64
add u64 z x 1@u64
add u64 z x 0@u64
mul u64 z x x
vpc s8 z x
not u64 z x
nondet u1 z
end
";

const TRUTHS: &str = "YYYYWWNNNWWYYNYNYYNYNYWWYYNYYYYNYNNYY";

fn letter_of(truth: Truth) -> &'static str {
    match truth {
        Truth::Yes => "Y",
        Truth::No => "N",
        Truth::Wide => "W",
    }
}

// A letter for the truth of each of the first lines.
fn letters(alloc: Global, form: &Ssa, values: &[i128], count: u32) -> Result<String, AllocError>
    requires { AreValues form.now.variables values.now }
{
    let mut letters = String::new(alloc);
    for place in 0..count {
        letters.push_str(letter_of(holds(form, values, place)))?;
    }
    Ok(letters)
}

// The same in the run of a text from an input, if there is one.
fn found_truths(alloc: Global, text: &str, input: &[i128], count: u32) -> Option<String> {
    let form = found_form(alloc, text)?;
    let trace = found_trace(alloc, &form, input)?;
    letters(alloc, &form, trace.as_slice(), count).ok()
}

// Whether these are the truths of the first lines of a text in the run from an input.
fn has_truths(alloc: Global, text: &str, input: &[i128], count: u32, truths: &str) -> bool {
    match found_truths(alloc, text, input, count) {
        Some(found) => found.as_str() == truths,
        None => false,
    }
}

#[test]
fn ends(rt: HostRuntime) -> Result<(), Fail> {
    let input: &[i128] = &[18446744073709551615, 0, -128, 1];
    let found = has_truths(rt.alloc(), LINES, input, 37, TRUTHS);
    assert!(&rt; found, "the truths of the lines");
    Ok(())
}

// A line of 4,096 operators, the most that a text can have.
fn deep_line(alloc: Global, start: &str, end: &str) -> Result<String, AllocError> {
    let mut text = String::from_str(alloc, "in u8 x\n")?;
    text.push_str(start)?;
    for _operator in 0..4096u32 {
        text.push_str(" + x")?;
    }
    text.push_str(end)?;
    Ok(text)
}

// Whether the first two lines of a text are true in the run from 1.
fn are_true(alloc: Global, text: &str) -> bool {
    has_truths(alloc, text, &[1], 2, "YY")
}

// The deepest lines, in a spawned thread and in the main one: typed, versioned, computed and dropped.
#[test]
fn deep_equation(rt: HostRuntime) -> Result<(), AllocError> {
    let alloc = rt.alloc();
    let text = deep_line(alloc, "post alg x", " = 4097\nend\n")?;
    let text = text.as_str();
    let (spawned, here) = join(&rt, || are_true(alloc, text), || are_true(alloc, text));
    assert!(&rt; spawned && here, "an equation of 4,096 operators");
    Ok(())
}

#[test]
fn deep_range_line(rt: HostRuntime) -> Result<(), AllocError> {
    let alloc = rt.alloc();
    let text = deep_line(alloc, "post rng x", " = 1@u8\nend\n")?;
    let text = text.as_str();
    let (spawned, here) = join(&rt, || are_true(alloc, text), || are_true(alloc, text));
    assert!(&rt; spawned && here, "a range line of 4,096 operators");
    Ok(())
}
