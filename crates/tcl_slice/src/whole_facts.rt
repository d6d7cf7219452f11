//! The fact of the whole route of a goal.

ghost use Rattle.std.specs.Prelude.{◌≡◌, ◌≤◌, ◌<◌, ◌^◌, ◌-◌, true, IfOk, length};
ghost use Rattle.tcl_goals.specs.Defaults.{line_hyps};
ghost use Rattle.tcl_goals.specs.Numbers.{those_below};
ghost use Rattle.tcl_goals.specs.Places as places;
ghost use Rattle.tcl_goals.specs.Slices as slices;

use std::alloc::{AllocError, Global};
use tcl_goals::{Claim, Cube, Fact, Hyp, Hyps, Uses, goal_place};
use tcl_lang::{Line, Ssa};

/// The fact of a goal that rests on all that stands before it: every part of the precondition, assumption and goal is a
/// hypothesis, every instruction is used, and the cube is empty. The only error is that memory has run out.
pub fn whole(alloc: Global, ssa: &Ssa, goal: u32) -> Result<Fact, AllocError>
    requires { places.has_goal ssa.now.lines goal ≡ true }
    ensures { IfOk result (λ fact. fact ≡ slices.whole_fact ssa.now goal) }
{
    let lines = ssa.lines().as_slice();
    let place = goal_place(lines, goal);
    let hyps = hyps_before(alloc, lines, place)?;
    let uses = steps_before(alloc, lines, place)?;
    Ok(Fact {
        claim: Claim::Goal(goal),
        hyps,
        cube: Cube::new(alloc),
        uses,
    })
}

/// All hypotheses before a place.
fn hyps_before(alloc: Global, lines: &[Line], end: usize) -> Result<Hyps, AllocError>
    requires few { length lines.now < 2 ^ 32 - 1 }
    requires within { end ≤ length lines.now }
    ensures { IfOk result (λ hyps. hyps ≡ line_hyps (those_below (slices.is_hypothesis_at lines.now) end)) }
{
    let mut hyps = Hyps::new(alloc);
    for k in 0..end {
        if lines[k].is_hypothesis() {
            hyps.push(Hyp::Line(k as u32))?;
        }
    }
    Ok(hyps)
}

/// Whether the line is an instruction.
fn is_step(line: &Line) -> bool
    ensures { result ≡ places.is_step line.now }
{
    line.instruction().is_some()
}

/// All instructions before a place.
fn steps_before(alloc: Global, lines: &[Line], end: usize) -> Result<Uses, AllocError>
    requires few { length lines.now < 2 ^ 32 - 1 }
    requires within { end ≤ length lines.now }
    ensures { IfOk result (λ uses. uses ≡ those_below (slices.is_step_at lines.now) end) }
{
    let mut uses = Uses::new(alloc);
    for k in 0..end {
        if is_step(&lines[k]) {
            uses.push(k as u32)?;
        }
    }
    Ok(uses)
}
