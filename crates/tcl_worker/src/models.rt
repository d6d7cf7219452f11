//! What a model of the clauses of its fact is for a piece.

ghost use Rattle.std.specs.Prelude.{◌≡◌, [], IfOk, Some};
ghost use Rattle.tcl_lang.specs.Form.{IsWellFormed};
ghost use Rattle.tcl_goals.specs.declared.piece.Route.TheVariants as route;
ghost use Rattle.tcl_goals.specs.Plans.{IsPiece, piece_fact};
ghost use Rattle.tcl_kernel.specs.Strays as strays;
ghost use Rattle.tcl_worker.specs.Outcomes as outcome_words;
ghost use Rattle.tcl_worker.specs.Worked.{IsModelled, IsModelInput};

use crate::checking::break_of;
use crate::strays::false_goal;
use std::alloc::{AllocError, Global};
use tcl_blast::input_of;
use tcl_board::Outcome;
use tcl_cnf::Bits;
use tcl_goals::{Cause, Fact, Piece, Route};
use tcl_kernel::{Facts, Proof, Stray, cut_models_are_true, first_stray};
use tcl_lang::{Input, Ssa};

/// The outcome of a piece whose fact has clauses that these bits meet. On a whole piece their input breaks the goal where all
/// hypotheses are computed as true in its run, and strays else.
pub(crate) fn modelled(
    alloc: Global,
    ssa: &Ssa,
    earlier: &Facts,
    piece: &Piece,
    fact: &Fact,
    budget: u32,
    bits: &Bits,
) -> Result<Outcome<Proof>, AllocError>
    requires earlier { earlier.now ≡ record { program = ssa.now; lemmas = []; facts = [] } }
    requires formed { IsWellFormed ssa.now }
    requires piece { IsPiece ssa.now piece.now }
    requires fact { fact.now ≡ piece_fact ssa.now piece.now }
    requires model { IsModelled ssa.now budget (piece_fact ssa.now piece.now) bits.now }
    ensures outcome { IfOk result (λ outcome. outcome_words.IsOwnOutcome ssa.now budget piece.now outcome) }
    ensures steps { IfOk result (λ outcome. outcome_words.steps_of (outcome_words.seen_in outcome) ≡ 0) }
{
    match piece.route {
        Route::Cut => {
            cut_models_are_true();
            Ok(Outcome::Ended(Cause::Model))
        }
        Route::Whole => {
            let input = model_input(alloc, ssa, earlier, piece, fact, budget, bits)?;
            let outcome = refuted_or_strayed(alloc, ssa, piece, budget, input)?;
            Ok(outcome)
        }
    }
}

/// The input of bits that meet the clauses of the fact of a whole piece.
fn model_input(
    alloc: Global,
    ssa: &Ssa,
    earlier: &Facts,
    piece: &Piece,
    fact: &Fact,
    _budget: u32,
    bits: &Bits,
) -> Result<Input, AllocError>
    requires earlier { earlier.now ≡ record { program = ssa.now; lemmas = []; facts = [] } }
    requires formed { IsWellFormed ssa.now }
    requires piece { IsPiece ssa.now piece.now }
    requires whole { piece.now.route ≡ route.Whole }
    requires fact { fact.now ≡ piece_fact ssa.now piece.now }
    requires model { IsModelled ssa.now _budget (piece_fact ssa.now piece.now) bits.now }
    ensures { IfOk result (λ input. IsModelInput ssa.now _budget piece.now input) }
{
    input_of(alloc, ssa, fact, earlier.lemmas(), bits)
}

/// The outcome of a whole piece by the input of a model of its clauses.
fn refuted_or_strayed(
    alloc: Global,
    ssa: &Ssa,
    piece: &Piece,
    budget: u32,
    input: Input,
) -> Result<Outcome<Proof>, AllocError>
    requires formed { IsWellFormed ssa.now }
    requires piece { IsPiece ssa.now piece.now }
    requires model { IsModelInput ssa.now budget piece.now input }
    ensures outcome { IfOk result (λ outcome. outcome_words.IsOwnOutcome ssa.now budget piece.now outcome) }
    ensures steps { IfOk result (λ outcome. outcome_words.steps_of (outcome_words.seen_in outcome) ≡ 0) }
{
    match first_stray(alloc, ssa, piece.goal, &input)? {
        None => {
            let proof = break_of(alloc, ssa, piece.goal, input)?;
            Ok(Outcome::Shown(proof))
        }
        Some(stray) => {
            let outcome = strayed(alloc, ssa, piece, budget, input, stray)?;
            Ok(outcome)
        }
    }
}

/// The outcome of a whole piece by the input of a model of its clauses of which a hypothesis strays: it breaks this hypothesis
/// where that is a goal with the truth `No`, and else the stray is the cause.
fn strayed(
    alloc: Global,
    ssa: &Ssa,
    piece: &Piece,
    _budget: u32,
    input: Input,
    stray: Stray,
) -> Result<Outcome<Proof>, AllocError>
    requires formed { IsWellFormed ssa.now }
    requires piece { IsPiece ssa.now piece.now }
    requires model { IsModelInput ssa.now _budget piece.now input }
    requires first { strays.first_stray ssa.now piece.now.goal input ≡ Some stray }
    ensures outcome { IfOk result (λ outcome. outcome_words.IsOwnOutcome ssa.now _budget piece.now outcome) }
    ensures steps { IfOk result (λ outcome. outcome_words.steps_of (outcome_words.seen_in outcome) ≡ 0) }
{
    match false_goal(ssa.lines().as_slice(), stray) {
        Some(goal) => {
            let proof = break_of(alloc, ssa, goal, input)?;
            Ok(Outcome::Shown(proof))
        }
        None => Ok(Outcome::Ended(Cause::Stray(stray.place, stray.truth, input))),
    }
}
