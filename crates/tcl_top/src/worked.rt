//! The board of a program on which all work is done.

ghost use Rattle.std.specs.Prelude.{◌≡◌, ◌<◌, ℕ, IfOk, length};
ghost use Rattle.tcl_lang.specs.Form.{IsWellFormed};
ghost use Rattle.tcl_lang.specs.Goal.{goal_count};
ghost use Rattle.tcl_board.specs.Finished.{IsFinished};
ghost use Rattle.tcl_board.specs.Kept.{IsBoard};
ghost use Rattle.tcl_kernel.specs.Causes.{IsTrueCause};
ghost use Rattle.tcl_settled.specs.Rings.{AreOfRings};
ghost use Rattle.tcl_top.specs.Answers.{IsBoardOf};
ghost use Rattle.tcl_top.specs.WorkedBoard.{IsWorkedBoard};

use crate::job::{BUDGET, Work};
use std::alloc::{AllocError, Global};
use tcl_board::Board;
use tcl_gate::drive_alone;
use tcl_kernel::Proof;
use tcl_lang::{Ssa, Typed};
use tcl_settled::know_rings;
use tcl_slice::plan;
use tcl_ssa::ssa;

/// A board of the program on which worker 0 alone has done all work.
fn driven(alloc: Global, typed: &Typed) -> Result<Board<Proof>, AllocError>
    ensures { IfOk result (λ board. IsWorkedBoard typed.now.program board) }
{
    let form = ssa(alloc, typed)?;
    let own = ssa(alloc, typed)?;
    let pieces = plan(alloc, &form, 0)?;
    let mut board = Board::begin(alloc, own, pieces, BUDGET)?;
    drive_alone(alloc, &mut board, &Work::new(&form))?;
    Ok(board)
}

/// The form is well formed, and the claims of its goals are of rings where they are equations.
fn know(form: &Ssa, goals: u32)
    ensures formed { IsWellFormed form.now }
    ensures rings { AreOfRings form.now goals }
{
    let _lines = form.lines();
    know_rings(form, goals);
}

/// The same, and what the board tells of each goal is true.
pub(crate) fn worked(alloc: Global, typed: &Typed) -> Result<Board<Proof>, AllocError>
    ensures worked { IfOk result (λ board. IsBoardOf typed.now board.events board) }
    ensures finished { IfOk result (λ board. IsFinished board.position) }
{
    let board = driven(alloc, typed)?;
    board.known();
    let goals = board.ssa().lines().len();
    know(board.ssa(), goals as u32);
    Ok(board)
}
