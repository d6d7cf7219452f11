//! The work on the pieces of a program, as a worker of its board does it.

ghost use Rattle.std.specs.Prelude.{◌≡◌};

use std::alloc::{AllocError, Global};
use tcl_board::Outcome;
use tcl_gate::Job;
use tcl_goals::{Lemmas, Piece};
use tcl_kernel::Proof;
use tcl_lang::Ssa;
use tcl_port::Port;

/// As many clauses as a search may derive, and as many assignments as a walk may go through.
pub(crate) const BUDGET: u32 = 131_072;

/// The work on the pieces of a program by the stated budget.
#[derive(Drop)]
pub(crate) struct Work<'a> {
    form: &'a Ssa,
}

impl<'a> Work<'a> {
    /// The work on the pieces of this program.
    pub(crate) fn new(form: &'a Ssa) -> Self
        ensures { result.form.now ≡ form.now }
    {
        Work { form }
    }
}

impl<'a> Job<Proof> for Work<'a> {
    ghost use Rattle.tcl_top.specs.Answers.{search_budget};

    ghost program = { λ w. w.form.now };

    ghost limit = { λ _. search_budget };

    fn ssa(&self) -> &Ssa {
        self.form
    }

    fn budget(&self) -> u32 {
        BUDGET
    }

    fn work<P: Port>(
        &self,
        alloc: Global,
        piece: &Piece,
        lemmas: &Lemmas,
        port: &mut P,
    ) -> Result<Option<Outcome<Proof>>, AllocError> {
        tcl_worker::work(alloc, self.form, piece, lemmas, port, BUDGET)
    }
}
