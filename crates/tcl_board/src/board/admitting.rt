//! Admissions.

ghost use Rattle.std.specs.Prelude.{◌≡◌, slice_get};
ghost use Rattle.tcl_board.specs.Moves as moves;
ghost use Rattle.tcl_board.specs.Answers as answers;
ghost use Rattle.tcl_board.specs.declared.event.Event.TheVariants as event;
ghost use Rattle.tcl_board.specs.declared.event.Admitted.TheVariants as admitted;

use crate::board::{Board, fact_laws};
use crate::event::{Admitted, Event, LemmaMark};
use crate::evidence::Evidence;
use crate::scans;
use tcl_goals::Route;

impl<E: Evidence> Board<E> {
    pub(crate) fn may_admit(&self, goal: u32) -> bool
        ensures { result ≡ moves.may_admit self.now.position goal }
    {
        let (pieces, statuses) = (self.pieces.as_slice(), self.statuses.as_slice());
        if (goal as usize) >= self.admitted.len() {
            return false;
        }
        if scans::settled(self.admitted.as_slice(), self.breaks.as_slice(), goal) {
            return false;
        }
        let span = *self.spans.at(goal as usize);
        scans::route_proved(pieces, statuses, span, goal, Route::Cut)
            || scans::route_proved(pieces, statuses, span, goal, Route::Whole)
    }

    fn waiting(&self, number: u32) -> Option<u32>
        ensures { result ≡ answers.waiting_kept (slice_get self.now.position.lemmas number) }
    {
        match self.lemmas.as_slice().get(number as usize) {
            Some(mark) => if mark.admitted { None } else { Some(mark.kept) },
            None => None,
        }
    }

    fn admit_goal(&mut self, goal: u32) -> bool
        ensures answer { result ≡ moves.may_admit self.old.position goal }
        ensures step { self.new ≡ answers.admitted_if result self.old (admitted.Goal goal) }
    {
        fact_laws();
        if !self.may_admit(goal) {
            return false;
        }
        self.admitted.set(goal as usize, true);
        self.events.push(Event::Admit(Admitted::Goal(goal)));
        true
    }

    fn admit_lemma(&mut self, number: u32) -> bool
        ensures answer { result ≡ moves.is_waiting (slice_get self.old.position.lemmas number) }
        ensures step { self.new ≡ answers.admitted_if result self.old (admitted.Lemma number) }
    {
        fact_laws();
        let Some(kept) = self.waiting(number) else {
            return false;
        };
        self.lemmas.set(
            number as usize,
            LemmaMark {
                kept,
                admitted: true,
            },
        );
        self.events.push(Event::Admit(Admitted::Lemma(number)));
        true
    }

    /// Admits a goal of which all pieces of one route are proved, or a lemma that was submitted; false changes nothing.
    #[tactic(auto, unfolding(crate::specs::Moves::allows))]
    pub fn admit(&mut self, what: Admitted) -> bool
        ensures answer { result ≡ moves.allows self.old.position (event.Admit what) }
        ensures step { self.new ≡ answers.admitted_if result self.old what }
    {
        match what {
            Admitted::Goal(goal) => self.admit_goal(goal),
            Admitted::Lemma(number) => self.admit_lemma(number),
        }
    }
}
