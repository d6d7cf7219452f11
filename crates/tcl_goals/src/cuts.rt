//! Cuts, and the default hypotheses of a goal.

ghost use Rattle.std.specs.Prelude.{◌≡◌, ◌+◌, ◌<◌, ◌≤◌, ◌^◌, ◌-◌, true, IfOk, length, map};
ghost use Rattle.tcl_goals.specs.Places as places;
ghost use Rattle.tcl_goals.specs.Defaults as defaults;
ghost use Rattle.tcl_goals.specs.declared.fact.Hyp.TheVariants as hyp;

use crate::fact::{Hyp, Hyps};
use crate::goals_of::goal_place;
use std::alloc::{AllocError, Global};
use tcl_lang::{Line, Ssa};

/// The places from which on hypotheses count: those that are algebraic, and the others.
#[derive(Clone, Copy, PartialEq, Eq)]
pub struct Starts {
    pub algebraic: usize,
    pub range: usize,
}

/// What is known of cuts before a place: where the lines that cut the same hypotheses as the last one begin, which these are,
/// and the starts of the last cuts that have ended.
#[derive(Clone, Copy, PartialEq, Eq)]
pub(crate) struct Cuts {
    pub from: usize,
    pub algebraic: bool,
    pub range: bool,
    pub starts: Starts,
}

impl Cuts {
    /// After the line of place `k`.
    fn after(self, k: usize, line: &Line) -> Cuts
        ensures { result ≡ defaults.cuts_after k line.now self }
    {
        let algebraic = line.cuts_algebraic();
        let range = line.cuts_range();
        if self.algebraic == algebraic && self.range == range {
            return self;
        }
        Cuts {
            from: k,
            algebraic,
            range,
            starts: Starts {
                algebraic: if self.algebraic {
                    self.from
                } else {
                    self.starts.algebraic
                },
                range: if self.range {
                    self.from
                } else {
                    self.starts.range
                },
            },
        }
    }
}

/// The starts for a goal at this place: those of the last cuts that end before it, 0 where there is none.
#[tactic(auto, unfolding(crate::specs::Defaults::cuts_at))]
pub fn starts_at(lines: &[Line], place: usize) -> Starts
    requires { place < length lines.now }
    ensures { result ≡ defaults.starts_at lines.now place }
{
    let mut cuts = Cuts {
        from: 0,
        algebraic: false,
        range: false,
        starts: Starts {
            algebraic: 0,
            range: 0,
        },
    };
    for k in 0..place + 1 {
        cuts = cuts.after(k, &lines[k]);
    }
    cuts.starts
}

/// Whether the line of place `k` is a default hypothesis under these starts.
fn is_default(starts: Starts, k: usize, line: &Line) -> bool
    ensures { result ≡ defaults.is_default starts k line.now }
{
    let start = if line.is_algebraic() {
        starts.algebraic
    } else {
        starts.range
    };
    line.is_hypothesis() && start <= k
}

/// The default hypotheses of a goal: the hypotheses before it that stand after the start of the last cut that ends before it,
/// the lines of that cut included; all before it where there is no such cut. Half a cut counts for its half.
#[tactic(auto, using(crate::proofs::GoalPlaces::goal_place_below))]
pub fn default_hyps(alloc: Global, ssa: &Ssa, goal: u32) -> Result<Hyps, AllocError>
    requires { places.has_goal ssa.now.lines goal ≡ true }
    ensures { IfOk result (λ hyps. hyps ≡ defaults.default_hyps_of ssa.now.lines goal) }
{
    let lines = ssa.lines().as_slice();
    let place = goal_place(lines, goal);
    hyps_before(alloc, lines, starts_at(lines, place), place)
}

/// The default hypotheses before a place under these starts.
#[tactic(auto, using(crate::proofs::Numbers::hyps_none))]
fn hyps_before(
    alloc: Global,
    lines: &[Line],
    starts: Starts,
    end: usize,
) -> Result<Hyps, AllocError>
    requires few { length lines.now < 2 ^ 32 - 1 }
    requires within { end ≤ length lines.now }
    ensures { IfOk result (λ hyps. hyps ≡ defaults.hyps_before lines.now starts end) }
{
    let mut hyps = Hyps::new(alloc);
    for k in 0..end {
        if is_default(starts, k, &lines[k]) {
            hyps.push(Hyp::Line(k as u32))?;
        }
    }
    Ok(hyps)
}
