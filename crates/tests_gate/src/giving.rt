//! What the job of the tests gives for a piece.

ghost use Rattle.std.specs.Prelude.{◌≡◌, ◌≤◌, true, IfOk};
ghost use Rattle.tcl_goals.specs.Places.{has_goal};
ghost use Rattle.tests_gate.specs.Gifts.{IsGift, FitsEach};

use crate::showing::{fact_of, lemma_fact, shown_break, shown_fact};
use std::alloc::{AllocError, Global};
use tcl_board::{Evidence, Outcome};
use tcl_goals::{Cause, Lemmas, Piece, goal_place, has_goal};
use tcl_lang::{Input, Ssa};
use tests_board::{BUDGET, Witness};

/// The cause that the budget is spent, which fits each piece.
pub(crate) fn spent() -> Outcome<Witness>
    ensures { FitsEach result }
{
    Outcome::Ended(Cause::Steps(BUDGET))
}

/// A proof of the piece by all lemmas that are given; the spent budget where it does not check.
pub(crate) fn proved(
    alloc: Global,
    ssa: &Ssa,
    piece: &Piece,
    lemmas: &Lemmas,
) -> Result<Outcome<Witness>, AllocError>
    requires { has_goal ssa.now.lines piece.now.goal ≡ true }
    ensures { IfOk result (λ given. IsGift ssa.now piece.now lemmas.now given) }
{
    let fact = fact_of(alloc, ssa, piece, lemmas)?;
    match shown_fact(alloc, ssa, lemmas, fact)? {
        Some(witness) => {
            let _shown = witness.shown();
            Ok(Outcome::Shown(witness))
        }
        None => Ok(spent()),
    }
}

/// A lemma of this level; the spent budget where there is no such goal.
pub(crate) fn lemma(
    alloc: Global,
    ssa: &Ssa,
    piece: &Piece,
    lemmas: &Lemmas,
    level: u32,
) -> Result<Outcome<Witness>, AllocError>
    requires { lemmas.now.more ≡ true }
    ensures { IfOk result (λ given. IsGift ssa.now piece.now lemmas.now given) }
{
    if !has_goal(ssa.lines().as_slice(), level) {
        return Ok(spent());
    }
    let fact = lemma_fact(alloc, level)?;
    match shown_fact(alloc, ssa, lemmas, fact)? {
        Some(witness) => {
            let _shown = witness.shown();
            Ok(Outcome::Lemma(witness))
        }
        None => Ok(spent()),
    }
}

/// The break of a goal by an input of this one value; the spent budget where it does not check, or where the goal is above that
/// of the piece.
pub(crate) fn broken(
    alloc: Global,
    ssa: &Ssa,
    piece: &Piece,
    lemmas: &Lemmas,
    goal: u32,
    value: i128,
) -> Result<Outcome<Witness>, AllocError>
    ensures { IfOk result (λ given. IsGift ssa.now piece.now lemmas.now given) }
{
    let lines = ssa.lines().as_slice();
    if goal > piece.goal || goal_place(lines, goal) >= lines.len() {
        return Ok(spent());
    }
    let mut input = Input::new(alloc);
    input.push(value)?;
    match shown_break(alloc, ssa, goal, input)? {
        Some(witness) => {
            let _shown = witness.shown();
            Ok(Outcome::Shown(witness))
        }
        None => Ok(spent()),
    }
}
