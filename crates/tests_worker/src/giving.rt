//! The work on one piece.

use crate::counter::Counter;
use std::alloc::Global;
use std::test::Fail;
use tcl_board::{Board, Outcome};
use tcl_kernel::Proof;
use tcl_lang::Ssa;
use tcl_slice::plan;
use tcl_worker::work;

/// What comes of the piece of this number of the plan without a split, by no lemma. An error is that memory has run out, or that
/// the plan has no such piece.
pub fn given(
    alloc: Global,
    ssa: &Ssa,
    number: u32,
    more: bool,
    port: &mut Counter,
    budget: u32,
) -> Result<Option<Outcome<Proof>>, Fail> {
    let plan = plan(alloc, ssa, 0)?;
    let board: Board<Proof> = Board::begin(alloc, ssa.copy()?, plan.copy()?, 1)?;
    board.known();
    if number as usize >= plan.len() {
        return Err("the piece of a test is one of the plan".into());
    }
    let mut lemmas = board.lemmas_for(alloc, number)?;
    lemmas.set_more(more);
    let piece = plan.at(number as usize);
    let outcome = work(alloc, ssa, piece, &lemmas, port, budget.max(1))?;
    Ok(outcome)
}
