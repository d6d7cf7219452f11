//! Inputs that refute a goal.

ghost use Rattle.std.specs.Prelude.{◌≡◌, ◌↔◌, None, IsTrue, IfOk, length};
ghost use Rattle.tcl_lang.specs.Correct.{IsCounterexample};
ghost use Rattle.tcl_lang.specs.Values.{AreValues};
ghost use Rattle.tcl_kernel.specs.Counterexample.{IsBreakAnswer, IsBreakEnd};
ghost use Rattle.tcl_kernel.specs.Refuting as refuting;

use crate::answer::Answer;
use crate::proof::Proof;
use crate::reason::Reason;
use std::alloc::{AllocError, Global};
use tcl_exec::{fits, holds, run};
use tcl_goals::{goal_place, has_goal};
use tcl_lang::{Input, Line, Ssa, Truth};

/// Checks that an input refutes a goal: it fits, the computed truth of the precondition and of all assumptions and goals
/// before the goal is `Yes`, that of the goal is `No`. The reason `Claim` is that there is no such goal.
pub fn check_break(alloc: Global, ssa: &Ssa, goal: u32, input: Input) -> Answer
    ensures { IsBreakAnswer ssa.now goal input result }
{
    match break_reason(alloc, ssa, goal, &input) {
        Ok(None) => Answer::Proof(Proof::of_break(alloc, ssa, goal, input)),
        Ok(Some(reason)) => Answer::Bad(reason),
        Err(_) => Answer::Memory,
    }
}

/// The first reason against an input. The only error is that memory has run out.
fn break_reason(
    alloc: Global,
    ssa: &Ssa,
    goal: u32,
    input: &Input,
) -> Result<Option<Reason>, AllocError>
    ensures reason { IfOk result (λ r. IsBreakEnd ssa.now goal input.now r) }
    ensures refutes { IfOk result (λ r. r ≡ None → IsCounterexample (length ssa.now.variables) ssa.now.lines input.now goal) }
{
    if !has_goal(ssa.lines().as_slice(), goal) {
        return Ok(Some(Reason::Claim));
    }
    if !fits(ssa, input) {
        return Ok(Some(Reason::Break));
    }
    let values = run(alloc, ssa, input)?;
    if refutes(ssa, values.as_slice(), goal) {
        Ok(None)
    } else {
        Ok(Some(Reason::Break))
    }
}

/// Whether these values refute the goal.
fn refutes(ssa: &Ssa, values: &[i128], goal: u32) -> bool
    requires { AreValues ssa.now.variables values.now }
    ensures { IsTrue result ↔ refuting.Refutes ssa.now goal values.now }
{
    let place = goal_place(ssa.lines().as_slice(), goal);
    is_no(holds(ssa, values, place as u32)) && are_required_met(ssa, place, values)
}

/// Whether each line that has to hold is computed as `Yes`.
fn are_required_met(ssa: &Ssa, place: usize, values: &[i128]) -> bool
    requires { AreValues ssa.now.variables values.now }
    ensures { IsTrue result ↔ refuting.MeetsRequired ssa.now place values.now }
{
    let lines = ssa.lines().as_slice();
    for k in 0..lines.len() {
        if is_required(place, k, &lines[k]) && !is_yes(holds(ssa, values, k as u32)) {
            return false;
        }
    }
    true
}

/// Whether the line of place `k` has to hold for a goal to be refuted at a place.
fn is_required(place: usize, k: usize, line: &Line) -> bool
    ensures { result ≡ refuting.is_required place k line.now }
{
    line.is_precondition() || k < place && (line.is_assumption() || line.is_goal())
}

/// Whether the truth is `Yes`.
fn is_yes(truth: Truth) -> bool
    ensures { result ≡ refuting.is_yes truth }
{
    matches!(truth, Truth::Yes)
}

/// Whether the truth is `No`.
fn is_no(truth: Truth) -> bool
    ensures { result ≡ refuting.is_no truth }
{
    matches!(truth, Truth::No)
}
