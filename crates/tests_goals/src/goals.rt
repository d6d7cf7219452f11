// The goals of programs and their default hypotheses, against the table of programs.

use crate::expected::{agree, holds};
use crate::forms::form_of_text;
use crate::programs::programs;
use std::alloc::{AllocError, Global};
use std::process::Abort;
use std::test::Fail;
use tcl_goals::{Goal, Hyp, Hyps, Kind, default_hyps, goals, has_goal, starts_at};
use tcl_lang::Ssa;

fn kind_word(kind: Kind) -> &'static str {
    match kind {
        Kind::Exact => "exact",
        Kind::Assert => "assert",
        Kind::Cut => "cut",
        Kind::Post => "post",
    }
}

// The places of the default hypotheses of a goal.
fn push_hyps(text: &mut String, hyps: &Hyps) -> Result<(), AllocError> {
    for hyp in hyps.as_slice() {
        if let Hyp::Line(place) = hyp {
            write!(text, " {place}")?;
        }
    }
    Ok(())
}

// A goal as the table has it. The two starts are the same where there are whole cuts alone.
fn push_goal(alloc: Global, text: &mut String, form: &Ssa, goal: Goal) -> Result<(), AllocError> {
    let place = goal.place as usize;
    if place >= form.lines().as_slice().len() || !has_goal(form.lines().as_slice(), goal.number) {
        return text.push_str("no goal");
    }
    if !text.is_empty() {
        text.push_str("; ")?;
    }
    let start = starts_at(form.lines().as_slice(), place).range;
    write!(text, "{} {} {start}:", goal.place, kind_word(goal.kind))?;
    let hyps = default_hyps(alloc, form, goal.number)?;
    push_hyps(text, &hyps)
}

fn goals_text(alloc: Global, form: &Ssa) -> Result<String, AllocError> {
    let mut text = String::new(alloc);
    for goal in goals(alloc, form)?.as_slice() {
        push_goal(alloc, &mut text, form, *goal)?;
    }
    Ok(text)
}

fn goals_of(alloc: Global, program: &str) -> Result<String, Fail> {
    let form = form_of_text(alloc, program)?;
    Ok(goals_text(alloc, &form)?)
}

#[test]
fn goals_of_programs(rt: HostRuntime) -> Result<(), Fail> {
    for (program, wanted) in programs() {
        let text = goals_of(rt.alloc(), program)?;
        agree(&rt, program, text.as_str(), wanted);
    }
    Ok(())
}

// A program of 4,096 goals.
fn long_text(alloc: Global) -> Result<String, AllocError> {
    let mut text = String::new(alloc);
    for _ in 0..4096 {
        text.push_str("assert rng true\n")?;
    }
    text.push_str("end\n")?;
    Ok(text)
}

// How many default hypotheses a goal has, where it is one.
fn count_of_hyps(alloc: Global, form: &Ssa, goal: u32) -> Result<usize, AllocError> {
    if !has_goal(form.lines().as_slice(), goal) {
        return Ok(0);
    }
    Ok(default_hyps(alloc, form, goal)?.len())
}

fn has_all_goals(alloc: Global, form: &Ssa) -> Result<bool, AllocError> {
    Ok(goals(alloc, form)?.len() == 4096)
}

fn long_form(alloc: Global) -> Result<Ssa, Fail> {
    let text = long_text(alloc)?;
    form_of_text(alloc, text.as_str())
}

fn expect_many(rt: &impl Abort, alloc: Global, form: &Ssa) -> Result<(), AllocError> {
    let has_all = has_all_goals(alloc, form)?;
    holds(rt, "4,096 goals", has_all);
    let hyps = count_of_hyps(alloc, form, 4095)?;
    holds(rt, "the hypotheses of the last", hyps == 4095);
    Ok(())
}

#[test]
fn many_goals(rt: HostRuntime) -> Result<(), Fail> {
    let form = long_form(rt.alloc())?;
    Ok(expect_many(&rt, rt.alloc(), &form)?)
}
