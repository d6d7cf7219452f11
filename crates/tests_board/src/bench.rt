//! A board under test. Each call looks first whether it may be made, and answers `None` where it may not.

ghost use Rattle.std.specs.Prelude.{◌≡◌, length};
ghost use Rattle.std.specs.Option.{is_some};
ghost use Rattle.tcl_board.specs.Moves as moves;
ghost use Rattle.tests_board.specs.TestCauses as test_causes;

use crate::witness::Witness;
use std::alloc::{AllocError, Global};
use tcl_board::{Admitted, Board, Evidence, Outcome, Submitted};
use tcl_goals::{Cause, Lemmas, Shown, goal_place};
use tcl_lang::{Line, Ssa};
use tcl_port::Poll;
use tcl_slice::plan;

/// The budget of the tests.
pub const BUDGET: u32 = 7;

/// A program and a board.
pub struct Bench {
    ssa: Ssa,
    board: Board<Witness>,
}

impl Drop for Bench {
    fn drop(self) {
        let Bench { ssa, board } = self;
        drop(ssa);
        drop(board);
    }
}

/// Whether a fact is shown, or the break of a goal whose place is a line.
fn is_placed(lines: &[Line], shown: &Shown) -> bool
    ensures { result ≡ test_causes.is_placed lines.now shown.now }
{
    match shown {
        Shown::Fact(_) => true,
        Shown::Breaks(goal, _) => goal_place(lines, *goal) < lines.len(),
    }
}

impl Bench {
    /// The board of the plan without a split.
    #[tactic(auto, using(crate::proofs::Planned::is_plan))]
    pub fn begin(alloc: Global, ssa: Ssa) -> Result<Self, AllocError> {
        let plan = plan(alloc, &ssa, 0)?;
        let board = Board::begin(alloc, ssa.copy()?, plan, BUDGET)?;
        Ok(Bench { ssa, board })
    }

    /// The program.
    pub fn ssa(&self) -> &Ssa
        ensures { result.now ≡ self.now.ssa }
    {
        &self.ssa
    }

    /// The board.
    pub fn board(&self) -> &Board<Witness> {
        &self.board
    }

    /// Whether the worker holds a piece.
    fn holds(&self, worker: u32) -> bool
        ensures { result ≡ is_some (moves.held_of self.now.board.position.statuses worker) }
    {
        match self.board.held(worker) {
            Some(_) => true,
            None => false,
        }
    }

    /// A claim.
    #[tactic(auto, using(crate::proofs::Giving::none_held))]
    pub fn claim(&mut self, worker: u32) -> Option<Option<u32>> {
        if worker >= 64 || self.holds(worker) {
            return None;
        }
        Some(self.board.claim(worker))
    }

    /// A poll.
    pub fn poll(&mut self, worker: u32) -> Option<Poll> {
        if !self.holds(worker) {
            return None;
        }
        Some(self.board.poll(worker))
    }

    /// A proof or a break for the piece that the worker holds.
    #[tactic(auto, using(crate::proofs::Giving::may_show))]
    pub fn show(&mut self, worker: u32, witness: Witness) -> Option<Submitted>
        requires { witness.program ≡ self.old.ssa }
    {
        if !self.board.same(&self.ssa, BUDGET) {
            return None;
        }
        if !is_placed(self.ssa.lines().as_slice(), witness.shown()) {
            return None;
        }
        Some(self.board.submit(worker, Outcome::Shown(witness)))
    }

    /// A lemma.
    #[tactic(auto, using(crate::proofs::Giving::may_give_lemma))]
    pub fn lemma(&mut self, worker: u32, witness: Witness) -> Option<Submitted>
        requires { witness.program ≡ self.old.ssa }
    {
        if !self.board.same(&self.ssa, BUDGET) {
            return None;
        }
        Some(self.board.submit(worker, Outcome::Lemma(witness)))
    }

    /// The cause that the budget is spent.
    #[tactic(auto, using(crate::proofs::Giving::may_end))]
    pub fn end(&mut self, worker: u32) -> Option<Submitted> {
        if !self.board.same(&self.ssa, BUDGET) {
            return None;
        }
        Some(
            self.board
                .submit(worker, Outcome::Ended(Cause::Steps(BUDGET))),
        )
    }

    /// The board has the pieces of the plan.
    fn same_pieces(&self)
        ensures { length self.now.board.position.pieces ≡ length self.now.board.plan }
    {
        self.board.known();
    }

    /// The lemmas for a piece; none where there is no such piece.
    pub fn lemmas_for(&self, alloc: Global, piece: u32) -> Result<Option<Lemmas>, AllocError> {
        self.same_pieces();
        if piece as usize >= self.board.plan().len() {
            return Ok(None);
        }
        Ok(Some(self.board.lemmas_for(alloc, piece)?))
    }

    /// An admission.
    pub fn admit(&mut self, what: Admitted) -> bool {
        self.board.admit(what)
    }
}
