//! Steps of a board on which worker 0 is alone.

ghost use Rattle.std.specs.Prelude.{◌≡◌, ◌+◌};
ghost use Rattle.tcl_board.specs.Judging.{OutcomeSpeaks};
ghost use Rattle.tcl_board.specs.Sight.{seen_of};
ghost use Rattle.tcl_gate.specs.Taken.{FitsHeld};
ghost use Rattle.tcl_gate.specs.Alone as alone;

use crate::laws::fitting_is_taken;
use tcl_board::{Admitted, Board, Evidence, Outcome};

/// Claims the next piece.
pub(crate) fn claim_next<E: Evidence>(board: &mut Board<E>) -> Option<u32>
    requires { alone.NoneHeld board.old.position }
    ensures { alone.Claimed E.causes board.old board.new result }
{
    board.claim(0)
}

/// Whether the outcome is of a lemma.
fn is_lemma<E: Evidence>(outcome: &Outcome<E>) -> bool
    ensures { result ≡ alone.is_lemma (seen_of E.shows E.cited outcome.now) }
{
    match outcome {
        Outcome::Lemma(_) => true,
        Outcome::Shown(_) => false,
        Outcome::Ended(_) => false,
    }
}

/// Submits what fits the piece that is held, which is held on where that is a lemma.
fn submit<E: Evidence>(board: &mut Board<E>, piece: u32, outcome: Outcome<E>)
    requires held { alone.HeldAlone board.old.position piece }
    requires fits { FitsHeld E.causes board.old piece (seen_of E.shows E.cited outcome) }
    requires speaks { OutcomeSpeaks board.old.program E.program E.alone outcome }
    ensures { alone.IsTurn E.causes board.old board.new piece (alone.is_lemma (seen_of E.shows E.cited outcome)) }
{
    fitting_is_taken::<E>();
    board.known();
    board.submit(0, outcome);
    board.known();
}

/// Admits it where it may be.
fn admit<E: Evidence>(board: &mut Board<E>, what: Admitted)
    ensures { alone.Admits E.causes board.old board.new }
{
    board.admit(what);
}

/// Admits the goal where it may be.
pub(crate) fn admit_goal<E: Evidence>(board: &mut Board<E>, goal: u32)
    ensures admits { alone.Admits E.causes board.old board.new }
    ensures none { alone.NoneBelow board.old.position goal → alone.NoneBelow board.new.position (goal + 1) }
{
    board.admit(Admitted::Goal(goal));
}

/// Submits what fits the piece that is held, and admits what came of it, the lemma or the goal. Tells whether the piece is held
/// on.
pub(crate) fn give<E: Evidence>(
    board: &mut Board<E>,
    piece: u32,
    goal: u32,
    outcome: Outcome<E>,
) -> bool
    requires held { alone.HeldAlone board.old.position piece }
    requires fits { FitsHeld E.causes board.old piece (seen_of E.shows E.cited outcome) }
    requires speaks { OutcomeSpeaks board.old.program E.program E.alone outcome }
    ensures { alone.IsTurn E.causes board.old board.new piece result }
{
    let lemma = is_lemma(&outcome);
    let number = board.lemma_count();
    submit(board, piece, outcome);
    let what = if lemma {
        Admitted::Lemma(number)
    } else {
        Admitted::Goal(goal)
    };
    admit(board, what);
    lemma
}
