//! The claims that follow from intervals.

ghost use Rattle.std.specs.Prelude.{◌≡◌, ℕ, true, false, Some, slice_get};
ghost use Rattle.std.specs.List.{list_any};
ghost use Rattle.tcl_lang.specs.declared.pred.Line as declared;
ghost use Rattle.tcl_goals.specs.Places as places;
ghost use Rattle.tcl_bounds.specs.Intervals as intervals;
ghost use Rattle.tcl_bounds.specs.Follows as follows_words;
ghost use Rattle.tcl_bounds.specs.Conditions as conditions;

use crate::ends::is_empty;
use crate::interval::{Bounds, Interval};
use crate::known::range_known;
use crate::rows::exact_within;
use crate::uses::operand_interval;
use tcl_goals::{Claim, goal_place};
use tcl_lang::{Instr, Line, Pred, Ssa};

/// Whether some interval is empty.
fn has_empty(bounds: &[Interval]) -> bool
    ensures { result ≡ list_any intervals.is_empty bounds.now }
{
    bounds.iter().any(|interval| is_empty(*interval))
}

/// Whether a predicate follows.
fn predicate_follows(bounds: &[Interval], pred: &Pred) -> bool
    ensures { result ≡ follows_words.predicate_follows bounds.now pred.now }
{
    match pred {
        Pred::Alg(_) => false,
        Pred::Rng(pred) => range_known(bounds, pred).follows,
    }
}

/// Whether the exactness condition of an instruction follows.
#[tactic(auto, using(crate::proofs::Within::if_within_is))]
fn exactness_follows(bounds: &[Interval], instr: &Instr) -> bool
    requires { conditions.CanBeExact bounds.now instr.now }
    ensures { result ≡ follows_words.exactness_follows bounds.now instr.now }
{
    if !instr.op.has_condition() {
        return false;
    }
    let args = instr.args.as_slice();
    let a = operand_interval(bounds, args, 0);
    let b = operand_interval(bounds, args, 1);
    let c = operand_interval(bounds, args, 2);
    exact_within(instr.op, instr.ty, instr.amount, a, b, c).is_some()
}

/// Whether the goal of a line follows.
fn line_follows(bounds: &[Interval], line: &Line) -> bool
    requires { conditions.CanFollow bounds.now line.now }
    ensures { result ≡ follows_words.line_follows bounds.now (Some line.now) }
{
    match line {
        Line::Input(..) => false,
        Line::Step(instr) => exactness_follows(bounds, instr),
        Line::Pre(pred) => predicate_follows(bounds, pred),
        Line::Assert(pred) => predicate_follows(bounds, pred),
        Line::Assume(pred) => predicate_follows(bounds, pred),
        Line::Cut(pred) => predicate_follows(bounds, pred),
        Line::Post(pred) => predicate_follows(bounds, pred),
    }
}

/// The same at the place `k`; false where there is no line.
fn line_at_follows(bounds: &[Interval], lines: &[Line], k: usize) -> bool
    requires { (l : declared.Line) → slice_get lines.now k ≡ Some l → conditions.CanFollow bounds.now l }
    ensures { result ≡ follows_words.line_follows bounds.now (slice_get lines.now k) }
{
    match lines.get(k) {
        Some(line) => line_follows(bounds, line),
        None => false,
    }
}

/// Whether a goal follows.
fn goal_follows(bounds: &[Interval], lines: &[Line], goal: u32) -> bool
    requires { (k : ℕ) (l : declared.Line) → slice_get lines.now k ≡ Some l → conditions.CanFollow bounds.now l }
    ensures { result ≡ follows_words.line_follows bounds.now (slice_get lines.now (places.goal_place lines.now goal)) }
{
    line_at_follows(bounds, lines, goal_place(lines, goal))
}

/// Whether a claim follows where no interval is empty.
fn claim_follows(bounds: &[Interval], ssa: &Ssa, claim: &Claim) -> bool
    requires within { conditions.AreWithin ssa.now.variables bounds.now }
    requires filled { list_any intervals.is_empty bounds.now ≡ false }
    ensures { result ≡ follows_words.claim_follows bounds.now ssa.now claim.now }
{
    match claim {
        Claim::Goal(goal) => goal_follows(bounds, ssa.lines().as_slice(), *goal),
        Claim::Lemma(_) => false,
    }
}

/// Whether the claim follows from the intervals, which are those of variables of the program, each within its type: where
/// one is empty, each claim follows, and else those that hold for all values of the intervals, as far as the tests of
/// comparisons tell. Takes no memory.
#[tactic(auto, unfolding(crate::specs::Follows::follows_of))]
pub fn follows(bounds: &Bounds, ssa: &Ssa, claim: &Claim) -> bool
    requires { conditions.AreWithin ssa.now.variables bounds.now }
    ensures { result ≡ follows_words.follows_of bounds.now ssa.now claim.now }
{
    let bounds = bounds.as_slice();
    has_empty(bounds) || claim_follows(bounds, ssa, claim)
}
