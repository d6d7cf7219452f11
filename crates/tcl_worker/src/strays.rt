//! The goal that a stray is.

ghost use Rattle.std.specs.Prelude.{◌≡◌, ◌<◌, ◌≤◌, ◌^◌, ◌-◌, length};
ghost use Rattle.tcl_lang.specs.Goal as goal_words;
ghost use Rattle.tcl_worker.specs.Strays as strays;

use tcl_kernel::Stray;
use tcl_lang::{Line, Truth};

/// The goal that a stray is, where its truth is `No`: its input refutes this goal. None where it is another line, or cannot be
/// computed.
pub(crate) fn false_goal(lines: &[Line], stray: Stray) -> Option<u32>
    requires { length lines.now < 2 ^ 32 - 1 }
    ensures { strays.IsGoalOf lines.now stray result }
{
    if is_false_goal(lines, stray) {
        Some(goals_before(lines, stray.place as usize) as u32)
    } else {
        None
    }
}

/// Whether a stray is a goal with the truth `No`.
fn is_false_goal(lines: &[Line], stray: Stray) -> bool
    ensures { result ≡ strays.is_false_goal lines.now stray.place stray.truth }
{
    match stray.truth {
        Truth::No => is_goal_at(lines, stray.place as usize),
        _ => false,
    }
}

/// Whether the line of a place is a goal.
fn is_goal_at(lines: &[Line], place: usize) -> bool
    ensures { result ≡ goal_words.is_goal_at lines.now place }
{
    match lines.get(place) {
        Some(line) => line.is_goal(),
        None => false,
    }
}

/// The number of goals before a place.
#[tactic(auto, using(crate::proofs::GoalNumbers::counted_on, crate::proofs::GoalNumbers::counted_past))]
fn goals_before(lines: &[Line], place: usize) -> usize
    ensures number { result ≡ goal_words.goals_before lines.now place }
    ensures within { result ≤ place }
{
    let mut count = 0;
    for k in 0..place {
        if is_goal_at(lines, k) {
            count += 1;
        }
    }
    count
}
