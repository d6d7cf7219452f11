//! What a board tells of goals, pieces and lemmas.

ghost use Rattle.std.specs.Prelude.{◌≡◌, ◌<◌, true, slice_get, length, option_copied, IfOk, IfSome};
ghost use Rattle.std.specs.Option.{option_map};
ghost use Rattle.tcl_goals.specs.Places.{has_goal};
ghost use Rattle.tcl_board.specs.Own as own;
ghost use Rattle.tcl_board.specs.Judging.{Speaks};
ghost use Rattle.tcl_board.specs.Told as told;

use crate::board::Board;
use crate::evidence::Evidence;
use crate::told::GoalAnswer;
use crate::{scans, telling};
use std::alloc::{AllocError, Global};
use tcl_goals::{Lemmas, Verdict};
use tcl_lang::Input;

impl<E: Evidence> Board<E> {
    /// The evidence that is kept under a number.
    fn evidence(&self, number: Option<u32>) -> Option<&E>
        ensures seen { option_map (told.evident_of E.shows E.cited) (option_copied result) ≡ told.evident_at self.now.kept number }
        ensures speaks { IfSome (option_copied result) (λ e. Speaks self.now.program (E.program e) (E.alone e)) }
    {
        match number {
            Some(number) => telling::evidence(self.kept.as_slice(), number),
            None => None,
        }
    }

    /// The evidence by which the piece is proved.
    pub fn proof_of(&self, piece: u32) -> Option<&E>
        ensures seen { option_map (told.evident_of E.shows E.cited) (option_copied result) ≡ told.proof_of self.now piece }
        ensures speaks { IfSome (option_copied result) (λ e. Speaks self.now.program (E.program e) (E.alone e)) }
    {
        self.evidence(telling::proved_by(self.statuses.as_slice(), piece))
    }

    /// The evidence of the recorded break of the goal.
    pub fn break_of(&self, goal: u32) -> Option<&E>
        ensures seen { option_map (told.evident_of E.shows E.cited) (option_copied result) ≡ told.break_of self.now goal }
        ensures speaks { IfSome (option_copied result) (λ e. Speaks self.now.program (E.program e) (E.alone e)) }
    {
        self.evidence(telling::broken_by(self.breaks.as_slice(), goal))
    }

    /// The evidence of the submitted lemma of this number.
    pub fn lemma(&self, number: u32) -> Option<&E>
        ensures seen { option_map (told.evident_of E.shows E.cited) (option_copied result) ≡ told.lemma_at self.now number }
        ensures speaks { IfSome (option_copied result) (λ e. Speaks self.now.program (E.program e) (E.alone e)) }
    {
        self.evidence(telling::marked_by(self.lemmas.as_slice(), number))
    }

    /// How many lemmas were submitted. The one submitted last has this number less one.
    pub fn lemma_count(&self) -> u32
        ensures { result ≡ length self.now.position.lemmas }
    {
        self.lemmas.len() as u32
    }

    /// The admitted lemmas whose level is at most the goal of the piece. The mark tells whether more may be submitted.
    pub fn lemmas_for(&self, alloc: Global, piece: u32) -> Result<Lemmas, AllocError>
        requires { piece < length self.now.position.pieces }
        ensures lemmas { IfOk result (λ lemmas. lemmas ≡ told.lemmas_for self.now piece) }
        ensures given { IfOk result (λ lemmas. own.AreGiven self.now.program (told.goal_in (slice_get self.now.position.pieces piece)) lemmas.items) }
    {
        let goal = self.pieces.at(piece as usize).goal;
        let lemmas = telling::lemmas_up_to(
            alloc,
            self.lemmas.as_slice(),
            self.kept.as_slice(),
            goal,
        )?;
        Ok(lemmas)
    }

    /// What is known of the whole program.
    pub fn verdict(&self) -> Verdict
        ensures { result ≡ told.verdict_of self.now }
    {
        if scans::any_recorded(self.breaks.as_slice()) {
            Verdict::Refuted
        } else if scans::all_on(self.admitted.as_slice()) {
            Verdict::Verified
        } else {
            Verdict::Unproved
        }
    }

    /// The input of the recorded break of a goal.
    fn break_input(&self, goal: u32) -> Option<&Input>
        ensures { option_copied result ≡ told.input_in (told.break_of self.now goal) }
    {
        match self.break_of(goal) {
            Some(evidence) => telling::input_of(evidence.shown()),
            None => None,
        }
    }

    /// The answer of the piece of this number, which ended with a cause.
    fn answer_from(&self, piece: Option<u32>) -> GoalAnswer<'_>
        ensures { told.told result ≡ told.answer_from self.now piece }
    {
        match piece {
            Some(piece) => telling::answer_by(
                self.ssa.lines().as_slice(),
                self.kept.as_slice(),
                self.statuses.as_slice(),
                piece,
            ),
            None => GoalAnswer::Open,
        }
    }

    /// What is known of a goal.
    pub fn answer(&self, goal: u32) -> GoalAnswer<'_>
        requires { has_goal self.now.program.lines goal ≡ true }
        ensures told { told.told result ≡ told.answer_of self.now goal }
        ensures holds { told.AnswerHolds E.causes self.now goal (told.answer_of self.now goal) }
    {
        if scans::is_on(self.admitted.as_slice(), goal) {
            return GoalAnswer::Proved;
        }
        if let Some(input) = self.break_input(goal) {
            return GoalAnswer::Refuted(input);
        }
        let (pieces, statuses) = (self.pieces.as_slice(), self.statuses.as_slice());
        let span = *self.spans.at(goal as usize);
        self.answer_from(scans::last_cause(pieces, statuses, span, goal))
    }
}
