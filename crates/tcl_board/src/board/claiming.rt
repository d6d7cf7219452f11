//! Claims and polls.

ghost use Rattle.std.specs.Prelude.{◌≡◌, ◌<◌, true, None, MatchOption, slice_get, option_copied, IfSome};
ghost use Rattle.std.specs.Option.{is_some};
ghost use Rattle.tcl_goals.specs.Plans.{IsPiece};
ghost use Rattle.tcl_board.specs.Moves as moves;
ghost use Rattle.tcl_board.specs.State as states;
ghost use Rattle.tcl_board.specs.Answers as answers;
ghost use Rattle.tcl_board.specs.declared.event.Event.TheVariants as event;

use crate::board::Board;
use crate::event::{Event, Status};
use crate::evidence::Evidence;
use crate::scans;
use tcl_goals::Piece;
use tcl_port::Poll;

impl<E: Evidence> Board<E> {
    fn next_piece(&self) -> Option<u32>
        ensures { result ≡ moves.next_piece self.now.position }
    {
        scans::next(
            self.pieces.as_slice(),
            self.statuses.as_slice(),
            self.admitted.as_slice(),
            self.breaks.as_slice(),
            self.next,
        )
    }

    pub(crate) fn held_number(&self, worker: u32) -> Option<u32>
        ensures { result ≡ moves.held_of self.now.position.statuses worker }
    {
        scans::listed(self.holders.as_slice(), worker)
    }

    fn goal_settled(&self, piece: u32) -> bool
        ensures { result ≡ moves.goal_settled self.now.position (slice_get self.now.position.pieces piece) }
    {
        match self.pieces.as_slice().get(piece as usize) {
            Some(piece) => scans::settled(
                self.admitted.as_slice(),
                self.breaks.as_slice(),
                piece.goal,
            ),
            None => false,
        }
    }

    /// The least piece that was never claimed and whose goal is not settled, which the worker holds from then on.
    pub fn claim(&mut self, worker: u32) -> Option<u32>
        requires worker { worker < 64 }
        requires free { moves.held_of self.old.position.statuses worker ≡ None }
        ensures piece { result ≡ moves.next_piece self.old.position }
        ensures step { MatchOption result (self.new ≡ self.old) (λ q. self.new ≡ states.stepped self.old (event.Claim worker q)) }
    {
        let Some(piece) = self.next_piece() else {
            self.next = self.pieces.len();
            return None;
        };
        self.statuses.set(piece as usize, Status::Held(worker));
        self.holders.set(worker as usize, Some(piece));
        self.next = piece as usize + 1;
        self.events.push(Event::Claim(worker, piece));
        Some(piece)
    }

    /// Whether the worker is to go on. A cancelled piece has ended.
    pub fn poll(&mut self, worker: u32) -> Poll
        requires { is_some (moves.held_of self.old.position.statuses worker) ≡ true }
        ensures answer { result ≡ answers.poll_of self.old.position worker }
        ensures step { self.new ≡ answers.polled self.old worker }
    {
        let Some(piece) = self.held_number(worker) else {
            return Poll::Go;
        };
        if !self.goal_settled(piece) {
            return Poll::Go;
        }
        self.statuses.set(piece as usize, Status::Cancelled);
        self.holders.set(worker as usize, None);
        self.events.push(Event::Cancel(worker, piece));
        Poll::Cancelled
    }

    /// The piece that the worker holds.
    pub fn held(&self, worker: u32) -> Option<&Piece>
        ensures piece { option_copied result ≡ answers.held_piece self.now.position worker }
        ensures holds { is_some (option_copied result) ≡ is_some (moves.held_of self.now.position.statuses worker) }
        ensures is_piece { IfSome (option_copied result) (λ q. IsPiece self.now.program q) }
    {
        let Some(piece) = self.held_number(worker) else {
            return None;
        };
        Some(self.pieces.at(piece as usize))
    }
}
