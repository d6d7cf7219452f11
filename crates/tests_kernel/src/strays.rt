// The first hypotheses that are not computed as true. The reference, a second implementation of the checks, gave the answers.

use crate::forms::{form_of_text, input_of};
use std::alloc::{AllocError, Global};
use std::process::Abort;
use std::test::Fail;
use tcl_exec::fits;
use tcl_kernel::{Stray, first_stray};
use tcl_lang::{Ssa, Truth};

// Assumptions and a goal of words, an equation between them, and a choice.
const WORDS: &str =
    "in u8 x\nin s8 y\npre rng x < 100@u8\nassume rng y <= 50@s8\nassert rng x < 60@u8\nassume alg 2*x = 84 + y\nnondet u4 k\nassert rng k < 15@u4\npost rng x > 41@u8\nend";

// A goal, an input, and the place and the truth of the first stray, `none` where there is none.
const WORD_STRAYS: &[(u32, &[i128], u32, &str)] = &[
    (0, &[3, 0, 0], 0, "none"),
    (0, &[100, 51, 0], 2, "no"),
    (0, &[99, 51, 0], 3, "no"),
    (1, &[60, 51, 0], 3, "no"),
    (1, &[99, 0, 15], 4, "no"),
    (1, &[42, 1, 15], 5, "no"),
    (1, &[42, 0, 15], 0, "none"),
    (2, &[42, 0, 15], 7, "no"),
    (2, &[42, 0, 14], 0, "none"),
    (2, &[59, 34, 15], 7, "no"),
    (2, &[59, 34, 3], 0, "none"),
    (2, &[255, 127, 15], 2, "no"),
];

// The truth of its second goal cannot be computed, whatever x.
const WIDE: &str =
    "in u8 x\nassert rng x < 200@u8\nassert alg x = 0 mod 2**200\nassert rng x < 5@u8\nend";

const WIDE_STRAYS: &[(u32, &[i128], u32, &str)] = &[
    (0, &[255], 0, "none"),
    (1, &[199], 0, "none"),
    (1, &[200], 1, "no"),
    (2, &[0], 2, "wide"),
    (2, &[200], 1, "no"),
];

// An equation that is true of all x cannot be computed where it is; the goal before it is an instruction that has to be exact.
const SQUARES: &str =
    "in u64 x\npre alg x = 2 mod 4\nadd u64 y x x\nassume alg x*y = 2*x**2\ncut alg y = 0 mod 2\nassume rng y < 9@u64\nassert alg y = 4\nend";

const SQUARE_STRAYS: &[(u32, &[i128], u32, &str)] = &[
    (0, &[3], 1, "no"),
    (0, &[2], 0, "none"),
    (0, &[9223372036854775810], 0, "none"),
    (1, &[2], 3, "wide"),
    (1, &[9223372036854775810], 2, "no"),
    (1, &[4], 1, "no"),
    (2, &[2], 3, "wide"),
    (2, &[6], 3, "wide"),
    (2, &[9223372036854775814], 2, "no"),
    (2, &[18446744073709551615], 1, "no"),
];

fn answer_of(stray: Option<Stray>) -> (u32, &'static str) {
    match stray {
        None => (0, "none"),
        Some(Stray { place, truth }) => (place, word_of_truth(truth)),
    }
}

fn word_of_truth(truth: Truth) -> &'static str {
    match truth {
        Truth::Yes => "yes",
        Truth::No => "no",
        Truth::Wide => "wide",
    }
}

// The place and the truth of the first stray of an input that fits.
fn stray_of(
    alloc: Global,
    form: &Ssa,
    goal: u32,
    values: &[i128],
) -> Result<(u32, &'static str), AllocError> {
    let input = input_of(alloc, values)?;
    if !fits(form, &input) {
        return Ok((0, "an input that does not fit"));
    }
    Ok(answer_of(first_stray(alloc, form, goal, &input)?))
}

fn agree(rt: &impl Abort, goal: u32, made: (u32, &str), wanted: (u32, &str)) {
    assert!(rt;
        made.0 == wanted.0 && made.1 == wanted.1,
        "goal {goal}: {} {}, not {} {}",
        made.0,
        made.1,
        wanted.0,
        wanted.1
    );
}

fn strays_of_inputs(
    rt: &impl Abort,
    alloc: Global,
    form: &Ssa,
    table: &[(u32, &[i128], u32, &str)],
) -> Result<(), AllocError> {
    for (goal, values, place, truth) in table {
        let made = stray_of(alloc, form, *goal, values)?;
        agree(rt, *goal, made, (*place, *truth));
    }
    Ok(())
}

#[test]
fn hypotheses_of_words(rt: HostRuntime) -> Result<(), Fail> {
    let form = form_of_text(rt.alloc(), WORDS)?;
    strays_of_inputs(&rt, rt.alloc(), &form, WORD_STRAYS)?;
    Ok(())
}

#[test]
fn a_goal_that_is_wide(rt: HostRuntime) -> Result<(), Fail> {
    let form = form_of_text(rt.alloc(), WIDE)?;
    strays_of_inputs(&rt, rt.alloc(), &form, WIDE_STRAYS)?;
    Ok(())
}

#[test]
fn an_assumption_that_is_wide_where_it_is_true(rt: HostRuntime) -> Result<(), Fail> {
    let form = form_of_text(rt.alloc(), SQUARES)?;
    strays_of_inputs(&rt, rt.alloc(), &form, SQUARE_STRAYS)?;
    Ok(())
}
