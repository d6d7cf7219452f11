//! Logs handed to the kernel.

ghost use Rattle.std.specs.Prelude.{◌≡◌, ◌≤◌, true, false, IfOk, length};
ghost use Rattle.tcl_lang.specs.Form.{IsWellFormed};
ghost use Rattle.tcl_cnf.specs.Log.{log_answer};
ghost use Rattle.tcl_cnf.specs.declared.answer.LogAnswer.TheVariants.{Refutes};
ghost use Rattle.tcl_goals.specs.Order.{InOrder};
ghost use Rattle.tcl_blast.specs.Clauses.{clauses_of, clause_limit};
ghost use Rattle.tcl_kernel.specs.BoundsCertificate.{is_algebraic_claim};
ghost use Rattle.tcl_kernel.specs.Cited as cited;

use crate::checking::proof_of;
use std::alloc::{AllocError, Global};
use tcl_cnf::LogLines;
use tcl_goals::Fact;
use tcl_kernel::{Cert, Facts, Proof};
use tcl_lang::Ssa;

/// The proof of a fact in order whose clauses have a log that derives the empty clause. The only error is that memory has run
/// out.
pub(crate) fn proved_by_log(
    alloc: Global,
    ssa: &Ssa,
    earlier: &Facts,
    fact: &Fact,
    lines: LogLines,
) -> Result<Proof, AllocError>
    requires program { earlier.now.program ≡ ssa.now }
    requires formed { IsWellFormed ssa.now }
    requires order { InOrder ssa.now earlier.now.lemmas fact.now }
    requires range { is_algebraic_claim ssa.now.lines fact.now.claim ≡ false }
    requires few { length (clauses_of ssa.now earlier.now.lemmas fact.now) ≤ clause_limit }
    requires refutes { log_answer (clauses_of ssa.now earlier.now.lemmas fact.now) lines ≡ Refutes }
    ensures { IfOk result (λ proof. proof ≡ cited.proof_of ssa.now earlier.now.lemmas fact.now true) }
{
    proof_of(alloc, ssa, earlier, fact, Cert::Log(lines))
}
