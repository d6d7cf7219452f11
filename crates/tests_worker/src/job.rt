//! The run of one worker.

use std::alloc::{AllocError, Global};
use tcl_board::{Board, Outcome};
use tcl_gate::{Job, drive_alone};
use tcl_goals::{Lemmas, Piece};
use tcl_kernel::Proof;
use tcl_lang::Ssa;
use tcl_port::Port;
use tcl_slice::plan;
use tcl_worker::work;

/// The budget of the run.
pub(crate) const BUDGET: u32 = 1000;

/// The work on the pieces of a program.
#[derive(Drop)]
pub struct Work {
    ssa: Ssa,
}

impl Job<Proof> for Work {
    ghost program = { λ w. w.ssa };

    ghost limit = { λ _. 1000 };

    fn ssa(&self) -> &Ssa {
        &self.ssa
    }

    fn budget(&self) -> u32 {
        BUDGET
    }

    fn work<P: Port>(
        &self,
        alloc: Global,
        piece: &Piece,
        lemmas: &Lemmas,
        port: &mut P,
    ) -> Result<Option<Outcome<Proof>>, AllocError> {
        work(alloc, &self.ssa, piece, lemmas, port, BUDGET)
    }
}

/// The board of the plan without a split, on which worker 0 has done all work. The only error is that memory has run out.
pub fn driven(alloc: Global, ssa: Ssa) -> Result<Board<Proof>, AllocError> {
    let plan = plan(alloc, &ssa, 0)?;
    let mut board = Board::begin(alloc, ssa.copy()?, plan, BUDGET)?;
    let work = Work { ssa };
    drive_alone(alloc, &mut board, &work)?;
    Ok(board)
}
