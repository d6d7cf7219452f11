//! What the ends of the work on its fact are for a piece.

ghost use Rattle.std.specs.Prelude.{◌≡◌, ◌≤◌, IfOk};
ghost use Rattle.tcl_lang.specs.Form.{IsWellFormed};
ghost use Rattle.tcl_goals.specs.Plans.{IsPiece, piece_fact};
ghost use Rattle.tcl_worker.specs.Outcomes as outcome_words;
ghost use Rattle.tcl_worker.specs.Worked.{IsFailing, IsEnded};

use crate::checking::break_of;
use crate::trying::first_trial;
use std::alloc::{AllocError, Global};
use tcl_board::Outcome;
use tcl_goals::{Cause, Piece, Route, is_algebraic_goal};
use tcl_kernel::Proof;
use tcl_lang::{Input, Ssa};

/// The outcome of a piece whose fact an assignment denies at which its walk ends, of which this is the input: it breaks the
/// goal of a whole piece.
pub(crate) fn failed(
    alloc: Global,
    ssa: &Ssa,
    piece: &Piece,
    _budget: u32,
    input: Input,
) -> Result<Outcome<Proof>, AllocError>
    requires formed { IsWellFormed ssa.now }
    requires piece { IsPiece ssa.now piece.now }
    requires fails { IsFailing ssa.now _budget (piece_fact ssa.now piece.now) input }
    ensures outcome { IfOk result (λ outcome. outcome_words.IsOwnOutcome ssa.now _budget piece.now outcome) }
    ensures steps { IfOk result (λ outcome. outcome_words.steps_of (outcome_words.seen_in outcome) ≡ 0) }
{
    match piece.route {
        Route::Cut => Ok(Outcome::Ended(Cause::Model)),
        Route::Whole => {
            let proof = break_of(alloc, ssa, piece.goal, input)?;
            Ok(Outcome::Shown(proof))
        }
    }
}

/// The outcome of a piece whose fact is left open with this cause. Inputs are tried on the whole piece of an algebraic goal.
pub(crate) fn ended(
    alloc: Global,
    ssa: &Ssa,
    piece: &Piece,
    _budget: u32,
    cause: Cause,
) -> Result<Outcome<Proof>, AllocError>
    requires piece { IsPiece ssa.now piece.now }
    requires ended { IsEnded ssa.now _budget (piece_fact ssa.now piece.now) cause }
    ensures outcome { IfOk result (λ outcome. outcome_words.IsOwnOutcome ssa.now _budget piece.now outcome) }
    ensures steps { IfOk result (λ outcome. outcome_words.steps_of (outcome_words.seen_in outcome) ≤ outcome_words.steps_in cause) }
{
    if !is_tried(ssa, piece) {
        return Ok(Outcome::Ended(cause));
    }
    match first_trial(alloc, ssa, piece.goal)? {
        Some(proof) => Ok(Outcome::Shown(proof)),
        None => Ok(Outcome::Ended(cause)),
    }
}

/// Whether inputs are tried on a piece: it is the whole one of an algebraic goal.
fn is_tried(ssa: &Ssa, piece: &Piece) -> bool
    ensures { result ≡ outcome_words.is_tried ssa.now piece.now }
{
    match piece.route {
        Route::Cut => false,
        Route::Whole => is_algebraic_goal(ssa.lines().as_slice(), piece.goal),
    }
}
