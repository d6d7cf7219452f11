//! Submissions.

ghost use Rattle.std.specs.Prelude.{◌≡◌, ◌<◌, Some, length, slice_get};
ghost use Rattle.tcl_board.specs.Moves as moves;
ghost use Rattle.tcl_board.specs.State as states;
ghost use Rattle.tcl_board.specs.Answers as answers;
ghost use Rattle.tcl_board.specs.Judging as judging;
ghost use Rattle.tcl_board.specs.Sight.{seen_of};

use crate::board::{Board, fact_laws};
use crate::event::{Event, Judged, Submitted, Word};
use crate::evidence::{Evidence, Outcome};
use crate::judging as judges;

impl<E: Evidence> Board<E> {
    /// What is made of an outcome for this piece.
    fn judged(&self, piece: u32, outcome: &Outcome<E>) -> Judged
        requires { piece < length self.now.position.pieces }
        ensures judged { result ≡ judging.judge self.now (slice_get self.now.position.pieces piece) (seen_of E.shows E.cited outcome.now) }
        ensures holds { judging.OutcomeHolds E.program E.cited E.shows outcome.now }
    {
        judges::judge(
            self.ssa.lines().as_slice(),
            self.lemmas.as_slice(),
            self.kept.as_slice(),
            self.pieces.at(piece as usize),
            outcome,
        )
    }

    /// Records what is taken; a break of the piece's own goal that has one already is dropped.
    fn record(&mut self, worker: u32, piece: u32, word: Word, outcome: Outcome<E>)
        requires held { moves.held_of self.old.position.statuses worker ≡ Some piece }
        requires taken { judging.IsTaken E.causes self.old (slice_get self.old.position.pieces piece) word (seen_of E.shows E.cited outcome) }
        requires speaks { judging.OutcomeSpeaks self.old.program E.program E.alone outcome }
        ensures { self.new ≡ states.given self.old worker piece word (seen_of E.shows E.cited outcome) }
    {
        fact_laws();
        let kept = self.kept.len() as u32;
        let at = self.pieces.at(piece as usize);
        let own = judges::breaks_own(at, word);
        let dropped = judges::is_dropped(at, self.breaks.as_slice(), word);
        judges::record_step(
            &mut self.statuses,
            &mut self.breaks,
            &mut self.lemmas,
            piece,
            own,
            word,
            kept,
        );
        judges::leave(&mut self.holders, worker, word);
        self.events.push(Event::Submit(worker, piece, word));
        if dropped {
            drop(outcome);
        } else {
            self.kept.push(outcome);
        }
    }

    /// Takes what a worker gives. Where the answer is `NotHeld`, `Foreign` or `Full` nothing changes.
    pub fn submit(&mut self, worker: u32, outcome: Outcome<E>) -> Submitted
        requires speaks { judging.OutcomeSpeaks self.old.program E.program E.alone outcome }
        requires truthful { judging.MayGive E.causes self.old (answers.held_piece self.old.position worker) (seen_of E.shows E.cited outcome) }
        ensures answer { result ≡ judging.answer_of self.old worker (seen_of E.shows E.cited outcome) }
        ensures step { self.new ≡ judging.after_submit self.old worker (seen_of E.shows E.cited outcome) }
    {
        let Some(piece) = self.held_number(worker) else {
            return Submitted::NotHeld;
        };
        fact_laws();
        let judged = self.judged(piece, &outcome);
        let answer = judges::answer(self.breaks.as_slice(), judged);
        let Judged::Gives(word) = judged else {
            return answer;
        };
        self.record(worker, piece, word, outcome);
        answer
    }
}
