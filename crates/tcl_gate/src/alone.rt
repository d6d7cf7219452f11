//! The run of one worker.

ghost use Rattle.std.specs.Prelude.{◌≡◌, length, OnOk};
ghost use Rattle.tcl_lang.specs.Goal.{goal_count};
ghost use Rattle.tcl_board.specs.Finished.{IsFinished};
ghost use Rattle.tcl_gate.specs.Extends.{Extends};
ghost use Rattle.tcl_gate.specs.Alone as alone;

use crate::job::Job;
use crate::{giving, working};
use std::alloc::{AllocError, Global};
use tcl_board::{Board, Evidence};
use tcl_lang::Line;

/// The number of goals.
#[tactic(auto, using(std::proofs::lemmas::List::Sums::count_by_more_yes, std::proofs::lemmas::List::Sums::count_by_more_no))]
fn count_goals(lines: &[Line]) -> usize
    ensures { result ≡ goal_count lines.now }
{
    let mut goals = 0;
    for line in lines {
        if line.is_goal() {
            goals += 1;
        }
    }
    goals
}

/// The number of goals of the board's program.
fn goals_of<E: Evidence>(board: &Board<E>) -> usize
    ensures { result ≡ goal_count board.now.program.lines }
{
    count_goals(board.ssa().lines().as_slice())
}

/// Admits each goal that may be admitted.
fn admit_all<E: Evidence>(board: &mut Board<E>)
    ensures admits { alone.Admits E.causes board.old board.new }
    ensures none { alone.NoneBelow board.new.position (length board.new.position.admitted) }
{
    board.known();
    let goals = goals_of(board);
    for goal in 0..goals {
        giving::admit_goal(board, goal as u32);
    }
}

/// Works as worker 0 on a board on which no piece is held, until no piece is left and each goal that may be admitted is.
///
/// A lemma that comes of a piece is admitted at once, and the same piece goes on with the lemmas asked anew. No goal is settled
/// by anyone else meanwhile, so no piece is cancelled. The only error is that memory has run out; the steps up to there stay,
/// and the piece that was worked on is still held.
pub fn drive_alone<E: Evidence, J: Job<E>>(
    alloc: Global,
    board: &mut Board<E>,
    job: &J,
) -> Result<(), AllocError>
    requires program { board.old.program ≡ J.program job.now }
    requires budget { board.old.budget ≡ J.limit job.now }
    requires free { alone.NoneHeld board.old.position }
    ensures finished { OnOk result (IsFinished board.new.position) }
    ensures extends { Extends E.causes board.old board.new }
{
    while let Some(number) = giving::claim_next(board) {
        working::work_on(alloc, board, job, number)?;
        board.known();
    }
    board.known();
    admit_all(board);
    Ok(())
}
