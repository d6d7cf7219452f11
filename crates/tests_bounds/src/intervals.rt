// The intervals of facts, and what follows from them, against the table of programs.

use crate::forms::{fact_at, follows_at, form_of};
use crate::programs::PROGRAMS;
use std::alloc::{AllocError, Global};
use std::process::Abort;
use std::test::Fail;
use tcl_bounds::{Bounds, Interval, bounds};
use tcl_goals::{Claim, Goal, goals};
use tcl_lang::Ssa;

// Which goals follow, as the table has it.
fn answers(alloc: Global, form: &Ssa, goals: &[Goal]) -> Result<String, AllocError> {
    let mut text = String::new(alloc);
    for goal in goals {
        let answer = if follows_at(alloc, form, Claim::Goal(goal.number), goal.place)? {
            "y"
        } else {
            "n"
        };
        text.push_str(answer)?;
    }
    Ok(text)
}

// The intervals of a goal.
fn bounds_at(alloc: Global, form: &Ssa, goal: Goal) -> Result<Bounds, AllocError> {
    let fact = fact_at(alloc, form, Claim::Goal(goal.number), goal.place)?;
    bounds(alloc, form, &fact)
}

// An interval as the table has it.
fn written(alloc: Global, interval: Interval) -> Result<String, AllocError> {
    format!(in alloc; "{}..{}", interval.least, interval.greatest)
}

// The intervals of the last goal, as the table has them.
fn last_intervals(alloc: Global, form: &Ssa, goals: &[Goal]) -> Result<String, AllocError> {
    let mut text = String::new(alloc);
    if let Some(goal) = goals.last() {
        for interval in bounds_at(alloc, form, *goal)?.as_slice() {
            text.push_str(" ")?;
            text.push_str(written(alloc, *interval)?.as_str())?;
        }
    }
    Ok(text)
}

#[test]
fn intervals_of_programs(rt: HostRuntime) -> Result<(), Fail> {
    let alloc = rt.alloc();
    for (text, follow, intervals) in PROGRAMS {
        let form = form_of(alloc, text)?;
        let goals = goals(alloc, &form)?;
        let answers = answers(alloc, &form, goals.as_slice())?;
        assert!(&rt; answers.as_str() == *follow, "{answers} in {text}");
        let last = last_intervals(alloc, &form, goals.as_slice())?;
        assert!(&rt; last.as_str() == *intervals, "{last} in {text}");
    }
    Ok(())
}
