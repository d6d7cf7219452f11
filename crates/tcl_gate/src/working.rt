//! The work on one piece.

ghost use Rattle.std.specs.Prelude.{◌≡◌, Some, slice_get, IfOk, OnOk, OnErr};
ghost use Rattle.tcl_goals.specs.Plans.{IsPiece};
ghost use Rattle.tcl_gate.specs.Extends.{Extends};
ghost use Rattle.tcl_gate.specs.Alone as alone;

use crate::giving;
use crate::going::Going;
use crate::job::Job;
use std::alloc::{AllocError, Global};
use tcl_board::{Board, Evidence};
use tcl_goals::Piece;

/// Works once on the piece that is held, by the lemmas that are admitted now. Tells whether it is held on.
fn turn<E: Evidence, J: Job<E>>(
    alloc: Global,
    board: &mut Board<E>,
    job: &J,
    number: u32,
    piece: &Piece,
) -> Result<bool, AllocError>
    requires program { board.old.program ≡ J.program job.now }
    requires budget { board.old.budget ≡ J.limit job.now }
    requires held { alone.HeldAlone board.old.position number }
    requires at { slice_get board.old.position.pieces number ≡ Some piece.now }
    requires is_piece { IsPiece board.old.program piece.now }
    ensures turn { IfOk result (λ on. alone.IsTurn E.causes board.old board.new number on) }
    ensures unchanged { OnErr result (board.new ≡ board.old) }
{
    let lemmas = board.lemmas_for(alloc, number)?;
    let mut port = Going::new();
    let Some(outcome) = job.work(alloc, piece, &lemmas, &mut port)? else {
        unreachable!()
    };
    Ok(giving::give(board, number, piece.goal, outcome))
}

/// Works on the piece that is held until none is.
pub(crate) fn work_on<E: Evidence, J: Job<E>>(
    alloc: Global,
    board: &mut Board<E>,
    job: &J,
    number: u32,
) -> Result<(), AllocError>
    requires program { board.old.program ≡ J.program job.now }
    requires budget { board.old.budget ≡ J.limit job.now }
    requires held { alone.HeldAlone board.old.position number }
    ensures none { OnOk result (alone.NoneHeld board.new.position) }
    ensures extends { Extends E.causes board.old board.new }
{
    let Some(held) = board.held(0) else {
        unreachable!()
    };
    let piece = held.copy()?;
    let mut on = true;
    while on {
        on = turn(alloc, board, job, number, &piece)?;
        board.known();
    }
    Ok(())
}
