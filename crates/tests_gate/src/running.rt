//! The run of the job over a board of its own.

use crate::job::{Deed, Script};
use std::alloc::{AllocError, Global};
use tcl_board::Board;
use tcl_gate::drive_alone;
use tcl_lang::Ssa;
use tcl_list::Listing;
use tcl_slice::plan;
use tests_board::{BUDGET, Witness};

/// The board, and whether the run came to its end.
#[derive(Drop)]
pub struct Ran {
    pub board: Board<Witness>,
    pub whole: bool,
}

/// The run over the pieces of a split, which is at most 6, by these deeds. An error is that memory has run out before the run
/// began.
pub fn run_by(
    alloc: Global,
    ssa: Ssa,
    split: u32,
    deeds: Listing<Deed>,
) -> Result<Ran, AllocError> {
    let plan = plan(alloc, &ssa, split.min(6))?;
    let mut board = Board::begin(alloc, ssa.copy()?, plan, BUDGET)?;
    let job = Script::new(ssa, deeds);
    let whole = match drive_alone(alloc, &mut board, &job) {
        Ok(()) => true,
        Err(_) => false,
    };
    Ok(Ran { board, whole })
}
