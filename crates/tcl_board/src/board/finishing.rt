//! Finished boards.

ghost use Rattle.std.specs.Prelude.{◌≡◌, ◌&&◌, ◌↔◌, IsTrue, length};
ghost use Rattle.std.specs.Option.{is_none};
ghost use Rattle.tcl_board.specs.Moves as moves;
ghost use Rattle.tcl_board.specs.Truths.{Apart};
ghost use Rattle.tcl_board.specs.Finished as finished;

use crate::board::{Board, fact_laws};
use crate::evidence::Evidence;
use crate::scans;
use tcl_goals::Plan;
use tcl_lang::Ssa;
use tcl_list::Same;

impl<E: Evidence> Board<E> {
    /// Whether the board is of this program and has this budget.
    pub fn same(&self, ssa: &Ssa, budget: u32) -> bool
        ensures { IsTrue result ↔ ((self.now.program ≡ ssa.now) × (self.now.budget ≡ budget)) }
    {
        self.ssa.same(ssa) && self.budget == budget
    }

    /// Whether no goal may be admitted.
    #[tactic(auto, using(crate::proofs::Firsts::first_found), unfolding(crate::specs::Moves::first_below))]
    fn none_admissible(&self) -> bool
        ensures { result ≡ finished.none_admissible self.now.position }
    {
        for goal in 0..self.admitted.len() {
            if self.may_admit(goal as u32) {
                return false;
            }
        }
        true
    }

    /// Whether no piece is held or of an unsettled goal and without an end.
    fn none_open(&self) -> bool
        ensures { result ≡ finished.none_open self.now.position }
    {
        scans::none_open(
            self.pieces.as_slice(),
            self.statuses.as_slice(),
            self.admitted.as_slice(),
            self.breaks.as_slice(),
        )
    }

    /// Whether both.
    fn none_left(&self) -> bool
        ensures { result ≡ (finished.none_open self.now.position && finished.none_admissible self.now.position) }
    {
        self.none_open() && self.none_admissible()
    }

    /// Whether the board is finished.
    fn is_finished(&self) -> bool
        ensures { IsTrue result ↔ finished.IsFinished self.now.position }
    {
        let _ = &self.ssa;
        self.none_left()
    }

    /// Whether the board is of this program, began with this plan, has this budget, and is finished.
    pub fn closed(&self, ssa: &Ssa, plan: &Plan, budget: u32) -> bool
        ensures { IsTrue result ↔ finished.IsClosed self.now ssa.now plan.now budget }
    {
        self.same(ssa, budget) && (self.plan.same(plan) && self.is_finished())
    }

    /// On a finished board each goal is settled, or a whole piece of it has a true cause; and of each goal something is told,
    /// which is no model.
    pub fn finished_has_causes(&self)
        requires { finished.IsFinished self.now.position }
        ensures causes { finished.FinishedHasCauses E.causes self.now }
        ensures answers { finished.FinishedAnswers self.now }
    {
        let _ = &self.ssa;
    }

    /// No goal is both admitted and broken.
    pub fn apart(&self)
        ensures { Apart self.now.position.admitted self.now.position.breaks }
    {
        fact_laws();
        let _ = &self.ssa;
    }
}
