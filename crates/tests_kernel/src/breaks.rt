// Inputs against goals. The reference, a second implementation of the checks, gave the answers.

use crate::expected::agree;
use crate::forms::{form_of_text, input_of, word_of};
use std::alloc::{AllocError, Global};
use std::process::Abort;
use std::test::Fail;
use tcl_kernel::check_break;
use tcl_lang::Ssa;

const TEXT: &str =
    "in u8 x\nin s8 y\npre rng x < 100@u8\nassume rng y <= 50@s8\nassert rng x < 60@u8\nassume alg 2*x = 84 + y\nnondet u4 k\nassert rng k < 15@u4\npost rng x > 41@u8\nend";

// A goal, an input, and the answer.
const BREAKS: &[(u32, &[i128], &str)] = &[
    (0, &[60, 36, 0], "proof"),
    (0, &[60, 51, 0], "break"),
    (0, &[99, -128, 15], "proof"),
    (0, &[100, 0, 0], "break"),
    (0, &[59, 0, 0], "break"),
    (0, &[60, 0], "break"),
    (0, &[60, 0, 0, 0], "break"),
    (0, &[256, 0, 0], "break"),
    (0, &[60, 128, 0], "break"),
    (0, &[60, 0, 16], "break"),
    (1, &[42, 0, 15], "proof"),
    (1, &[42, 1, 15], "break"),
    (1, &[42, 0, 14], "break"),
    (1, &[60, 36, 15], "break"),
    (2, &[41, -2, 3], "proof"),
    (2, &[41, -2, 15], "break"),
    (2, &[41, -1, 3], "break"),
    (2, &[42, 0, 3], "break"),
    (3, &[41, -2, 3], "claim"),
    (3, &[], "claim"),
];

// The truth of its second goal cannot be computed, whatever x.
const WIDE_TEXT: &str =
    "in u8 x\nassert rng x < 200@u8\nassert alg x = 0 mod 2**200\nassert rng x < 5@u8\nend";

const WIDE_BREAKS: &[(u32, &[i128], &str)] = &[
    (0, &[200], "proof"),
    (0, &[7], "break"),
    (1, &[7], "break"),
    (1, &[0], "break"),
    (2, &[7], "break"),
];

// The word of the answer on an input.
fn word_on(
    alloc: Global,
    form: &Ssa,
    goal: u32,
    values: &[i128],
) -> Result<&'static str, AllocError> {
    let input = input_of(alloc, values)?;
    Ok(word_of(&check_break(alloc, form, goal, input)))
}

fn answers_on_inputs(
    rt: &impl Abort,
    alloc: Global,
    form: &Ssa,
    table: &[(u32, &[i128], &str)],
) -> Result<(), AllocError> {
    for (goal, values, expected) in table {
        agree(rt, *goal, word_on(alloc, form, *goal, values)?, expected);
    }
    Ok(())
}

#[test]
fn inputs_that_refute(rt: HostRuntime) -> Result<(), Fail> {
    let form = form_of_text(rt.alloc(), TEXT)?;
    answers_on_inputs(&rt, rt.alloc(), &form, BREAKS)?;
    Ok(())
}

#[test]
fn inputs_where_a_goal_is_wide(rt: HostRuntime) -> Result<(), Fail> {
    let form = form_of_text(rt.alloc(), WIDE_TEXT)?;
    answers_on_inputs(&rt, rt.alloc(), &form, WIDE_BREAKS)?;
    Ok(())
}
