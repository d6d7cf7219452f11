//! Strays: hypotheses of a goal that are not computed as true in the run from an input.

ghost use Rattle.std.specs.Prelude.{◌≡◌, ◌≤◌, IfOk, length, slice_get, Some};
ghost use Rattle.tcl_lang.specs.Run.{Fits, taken_types};
ghost use Rattle.tcl_lang.specs.Values.{AreValues};
ghost use Rattle.tcl_kernel.specs.Strays as strays;
ghost use Rattle.tcl_kernel.specs.ValueStrays as values_words;

use std::alloc::{AllocError, Global};
use tcl_exec::{holds, run};
use tcl_goals::goal_place;
use tcl_lang::{Input, Line, Ssa, Truth};

/// A line that is not computed as `Yes`: its place, and its computed truth.
#[derive(Clone, Copy, PartialEq, Eq)]
pub struct Stray {
    pub place: u32,
    pub truth: Truth,
}

/// The first hypothesis of the whole fact of a goal that is not computed as `Yes` in the run from the input; none where all
/// of them are. The hypotheses are the precondition, the assumptions and the goals before the goal, by place.
///
/// The only error is that memory has run out.
pub fn first_stray(
    alloc: Global,
    ssa: &Ssa,
    goal: u32,
    input: &Input,
) -> Result<Option<Stray>, AllocError>
    requires { Fits (taken_types ssa.now.lines) input.now }
    ensures { IfOk result (λ stray. stray ≡ strays.first_stray ssa.now goal input.now) }
{
    let place = goal_place(ssa.lines().as_slice(), goal);
    let values = run(alloc, ssa, input)?;
    Ok(stray_before(ssa, values.as_slice(), place))
}

/// The first hypothesis before a place that is not computed as `Yes` at these values.
fn stray_before(ssa: &Ssa, values: &[i128], place: usize) -> Option<Stray>
    requires typed { AreValues ssa.now.variables values.now }
    requires within { place ≤ length ssa.now.lines }
    ensures { result ≡ values_words.first_of_values ssa.now values.now place }
{
    let lines = ssa.lines().as_slice();
    for k in 0..place {
        if let Some(stray) = stray_of(ssa, &lines[k], values, k as u32) {
            return Some(stray);
        }
    }
    None
}

/// The line of this place at these values; none where it is no hypothesis.
fn stray_of(ssa: &Ssa, line: &Line, values: &[i128], place: u32) -> Option<Stray>
    requires typed { AreValues ssa.now.variables values.now }
    requires at { slice_get ssa.now.lines place ≡ Some line.now }
    ensures { result ≡ values_words.stray_of ssa.now values.now place }
{
    if line.is_hypothesis() {
        unless_yes(place, holds(ssa, values, place))
    } else {
        None
    }
}

/// A line of this place and truth as a stray; none where the truth is `Yes`.
fn unless_yes(place: u32, truth: Truth) -> Option<Stray>
    ensures { result ≡ strays.unless_yes place truth }
{
    match truth {
        Truth::Yes => None,
        _ => Some(Stray { place, truth }),
    }
}
