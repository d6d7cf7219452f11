// Instructions, runs and trial inputs. The values come from an executable reference in python3 that shares no code with
// these crates.

ghost use Rattle.tcl_lang.specs.Values.{AreValues};

use crate::forms::form_of;
use crate::runs::{told, trace_of};
use std::alloc::{AllocError, Global};
use std::process::Abort;
use std::test::Fail;
use tcl_exec::{fits, step, trial};
use tcl_lang::Ssa;

// An instruction of each kind. Each result is read by no other line, so that a step at any place gives the same values.
const INSTRUCTIONS: &str = "\
in u4 a
in u4 b
in s4 p
in s4 q
in u1 y
mov u4 x a
add u4 x a b
adds u4 c x a b
adc u4 x a b y
adcs u4 c x a b y
sub u4 x a b
subb u4 c x a b
sbb u4 x a b y
sbbs u4 c x a b y
mul s4 x p q
mull s4 h l p q
mulj s4 x p q
shl s4 x p 2
split s4 h l p 2
join s4 x p a
cast s4 x a
vpc u4 x p
cmov s4 x y p q
and s4 x p q
or s4 x p q
xor s4 x p q
not s4 x p
nondet s4 x
end
";

const INPUT: &[i128] = &[9, 12, -6, 5, 1, -3];

const VALUES: &str =
    " 9 12 -6 5 1 9 5 1 5 6 1 6 13 1 13 12 1 12 2 -2 2 -30 -8 -2 2 -87 -7 10 -6 0 -1 -1 5 -3";

#[test]
fn rows(rt: HostRuntime) -> Result<(), Fail> {
    let alloc = rt.alloc();
    let form = form_of(alloc, INSTRUCTIONS)?;
    let values = told(alloc, trace_of(alloc, &form, INPUT)?.as_slice())?;
    assert_eq!(rt; values.as_str(), VALUES, "the values of the run");
    Ok(())
}

// Computes all instructions anew, in the order of the text.
fn recompute(form: &Ssa, values: &mut [i128])
    requires { AreValues form.now.variables values.old }
{
    for place in 0..29u32 {
        step(form, place, values);
    }
}

// A run's values are those that its instructions compute anew, and a `nondet` keeps its value.
#[test]
fn steps_keep_runs(rt: HostRuntime) -> Result<(), Fail> {
    let alloc = rt.alloc();
    let form = form_of(alloc, INSTRUCTIONS)?;
    let mut values = trace_of(alloc, &form, INPUT)?.into_vec();
    recompute(&form, &mut values);
    let values = told(alloc, &values)?;
    assert_eq!(rt; values.as_str(), VALUES, "the values computed anew");
    Ok(())
}

// The number of a trial, and its values.
const TRIALS: &[(u32, &str)] = &[
    (0, " 0 0 0 0 0"),
    (1, " 1 15 127 18446744073709551615 9223372036854775807"),
    (2, " 0 0 -128 0 -9223372036854775808"),
    (3, " 1 1 1 1 1"),
    (4, " 1 15 -1 18446744073709551615 -1"),
    (5, " 1 2 -46 5708384388322840585 8167029563758283236"),
    (255, " 0 1 -108 13304692783385930915 7345931014749026038"),
];

// The values of a trial.
fn trial_text(alloc: Global, form: &Ssa, number: u32) -> Result<String, AllocError> {
    if number >= 256 {
        return String::from_str(alloc, "no trial");
    }
    let input = trial(alloc, number, form)?;
    if fits(form, &input) {
        told(alloc, input.as_slice())
    } else {
        String::from_str(alloc, "does not fit")
    }
}

#[test]
fn trials(rt: HostRuntime) -> Result<(), Fail> {
    let alloc = rt.alloc();
    let form = form_of(
        alloc,
        "in u1 a\nin u4 b\nin s8 c\nin u64 d\nnondet s64 e\nend\n",
    )?;
    for (number, values) in TRIALS {
        let found = trial_text(alloc, &form, *number)?;
        assert_eq!(rt; found.as_str(), *values, "trial {number}");
    }
    Ok(())
}
