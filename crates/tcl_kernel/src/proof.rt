//! Proofs: values that only a check makes.

ghost use Rattle.std.specs.Prelude.{◌≡◌, IfOk, length};
ghost use Rattle.tcl_lang.specs.Correct.{IsCounterexample};
ghost use Rattle.tcl_kernel.specs.Counterexample.{break_proof};
ghost use Rattle.tcl_kernel.specs.Shown.{Stands, ShownHolds};
ghost use Rattle.tcl_board.specs.Shows.{AreCited};
ghost use Rattle.tcl_kernel.specs.Cited.{proof_of};

use crate::cited::cited_lemmas;
use std::alloc::{AllocError, Global};
use std::marker::Model;
use std::snapshot::Snapshot;
use tcl_goals::{Fact, Lemmas, Numbered, Shown};
use tcl_lang::{Input, Ssa};
use tcl_list::Listing;

/// What is shown of a program, and that it holds: a fact that is in order and holds under the lemmas that it cites, or an
/// input that refutes a goal. It knows whether it stands alone, that is rests on no earlier fact. The program is there for
/// contracts alone.
#[derive(Drop)]
pub struct Proof {
    program: Snapshot<Ssa>,
    cited: Listing<Numbered>,
    shown: Shown,
    alone: bool,
}

impl Model for Proof {
    ghost use Rattle.tcl_lang.specs.contracts.term.Term as term;
    ghost use Rattle.tcl_lang.specs.contracts.range.RngTerm as range_term;
    ghost use Rattle.tcl_lang.specs.contracts.range.RngPred as range_pred;
    ghost use Rattle.std.specs.Coded.{codes};
    ghost use Rattle.tcl_board.specs.Shows.{AreCited};
    ghost use Rattle.tcl_kernel.specs.Shown.{ProofContent, ShownHolds};

    ghost Value = { ProofContent };

    ghost coded = { Prim.hlevel (codes, term.the_row.coded, range_term.the_row.coded, range_pred.the_row.coded) };

    ghost view = { λ p. record { program = p.program.value; cited = p.cited; shown = p.shown; alone = p.alone } };

    ghost invariant = { λ p. ShownHolds p.program.value p.cited p.shown × AreCited p.cited p.shown };
}

impl Proof {
    /// The proof of a fact that stands under these lemmas. The only error is that memory has run out.
    pub(crate) fn of_fact(
        alloc: Global,
        ssa: &Ssa,
        lemmas: &Lemmas,
        fact: Fact,
        alone: bool,
    ) -> Result<Self, AllocError>
        requires { Stands ssa.now lemmas.now.items fact }
        ensures { IfOk result (λ p. p ≡ proof_of ssa.now lemmas.now.items fact alone) }
    {
        Ok(Proof {
            program: Snapshot::of(ssa),
            cited: cited_lemmas(alloc, fact.hyps.as_slice(), lemmas.items().as_slice())?,
            shown: Shown::Fact(fact),
            alone,
        })
    }

    /// The proof that an input refutes a goal; takes no memory.
    pub(crate) fn of_break(alloc: Global, ssa: &Ssa, goal: u32, input: Input) -> Self
        requires { IsCounterexample (length ssa.now.variables) ssa.now.lines input goal }
        ensures { result ≡ break_proof ssa.now goal input }
    {
        Proof {
            program: Snapshot::of(ssa),
            cited: Listing::new(alloc),
            shown: Shown::Breaks(goal, input),
            alone: true,
        }
    }

    /// What is shown, which holds of the program under the lemmas that it cites.
    pub fn shown(&self) -> &Shown
        ensures shown { result.now ≡ self.now.shown }
        ensures holds { ShownHolds self.now.program self.now.cited self.now.shown }
        ensures among { AreCited self.now.cited self.now.shown }
    {
        &self.shown
    }

    /// The lemmas that the fact cites, with their numbers; none for an input.
    pub fn cited(&self) -> &Listing<Numbered>
        ensures { result.now ≡ self.now.cited }
    {
        &self.cited
    }
}
