//! The goals of a program and their places.

ghost use Rattle.std.specs.Prelude.{◌≡◌, ◌<◌, ◌≤◌, ◌^◌, ◌-◌, IfOk, length};
ghost use Rattle.tcl_goals.specs.Places as places;
ghost use Rattle.tcl_goals.specs.Plans as plans;

use crate::goal::{Goal, Goals, Kind};
use std::alloc::{AllocError, Global};
use tcl_lang::{Line, Ssa};

/// The kind of the goal of a line.
fn kind_of(line: &Line) -> Kind
    ensures { result ≡ places.kind_of line.now }
{
    match line {
        Line::Step(_) => Kind::Exact,
        Line::Cut(_) => Kind::Cut,
        Line::Post(_) => Kind::Post,
        _ => Kind::Assert,
    }
}

/// All goals in order.
pub fn goals(alloc: Global, ssa: &Ssa) -> Result<Goals, AllocError>
    ensures { IfOk result (λ goals. goals ≡ places.goals_of ssa.now.lines) }
{
    goals_in(alloc, ssa.lines().as_slice())
}

/// All goals of these lines.
#[tactic(auto, unfolding(crate::specs::Places::goals_of))]
fn goals_in(alloc: Global, lines: &[Line]) -> Result<Goals, AllocError>
    requires { length lines.now < 2 ^ 32 - 1 }
    ensures { IfOk result (λ goals. goals ≡ places.goals_of lines.now) }
{
    let mut goals = Goals::new(alloc);
    for k in 0..lines.len() {
        let line = &lines[k];
        if line.is_goal() {
            goals.push(Goal {
                number: goals.len() as u32,
                place: k as u32,
                kind: kind_of(line),
            })?;
        }
    }
    Ok(goals)
}

/// The place of a goal; the number of lines where there is no such goal.
#[tactic(auto, unfolding(crate::specs::Places::goal_place))]
pub fn goal_place(lines: &[Line], goal: u32) -> usize
    ensures place { result ≡ places.goal_place lines.now goal }
    ensures within { result ≤ length lines.now }
{
    let mut left = goal;
    for k in 0..lines.len() {
        if lines[k].is_goal() {
            if left == 0 {
                return k;
            }
            left -= 1;
        }
    }
    lines.len()
}

/// Whether the goal is an algebraic one; an exactness condition is none, and where there is no such goal neither.
pub fn is_algebraic_goal(lines: &[Line], goal: u32) -> bool
    ensures { result ≡ plans.is_algebraic_goal lines.now goal }
{
    match lines.get(goal_place(lines, goal)) {
        Some(line) => line.is_algebraic(),
        None => false,
    }
}
