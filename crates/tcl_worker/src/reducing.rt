//! The work on an algebraic claim that a walk does not settle: it is reduced.

ghost use Rattle.std.specs.Prelude.{◌≡◌, ◌≤◌, ◌<◌, ◌^◌, ◌-◌, ◌*◌, ℕ, true, false, [], IfOk};
ghost use Rattle.tcl_port.specs.Polling.{Rose};
ghost use Rattle.tcl_lang.specs.Form.{IsWellFormed};
ghost use Rattle.tcl_goals.specs.Order.{InOrder};
ghost use Rattle.tcl_kernel.specs.BoundsCertificate.{is_bounded, is_algebraic_claim};
ghost use Rattle.tcl_kernel.specs.Causes.{is_walked_by};
ghost use Rattle.tcl_kernel.specs.CofactorCertificate.{CofactorCheck};
ghost use Rattle.tcl_worker.specs.Proofs.{ProvesFact};
ghost use Rattle.tcl_worker.specs.Worked.{IsWorked, IsStopped, is_lemma, steps_told};

use crate::checking::proof_of;
use crate::worked::Worked;
use std::alloc::{AllocError, Global};
use tcl_goals::{Cause, Fact};
use tcl_kernel::{Cert, Facts, Proof};
use tcl_lang::Ssa;
use tcl_plain::{Outcome, reduce};
use tcl_port::{Poll, Port};
use tcl_remainder::CofactorLines;

/// The end of the work on a fact that claims an algebraic goal and that the walk does not settle, by the plain reduction of
/// its claim. The port is polled before it.
pub(crate) fn reduced<P: Port>(
    alloc: Global,
    ssa: &Ssa,
    earlier: &Facts,
    fact: &Fact,
    port: &mut P,
    budget: u32,
) -> Result<Worked, AllocError>
    requires earlier { earlier.now ≡ record { program = ssa.now; lemmas = []; facts = [] } }
    requires formed { IsWellFormed ssa.now }
    requires order { InOrder ssa.now [] fact.now }
    requires unbounded { is_bounded ssa.now fact.now ≡ false }
    requires unwalked { is_walked_by ssa.now budget fact.now ≡ false }
    requires algebraic { is_algebraic_claim ssa.now.lines fact.now.claim ≡ true }
    ensures worked { IfOk result (λ worked. IsWorked ssa.now budget [] fact.now worked) }
    ensures own { IfOk result (λ worked. is_lemma worked ≡ false) }
    ensures polled { IfOk result (λ worked. P.polls port.new < 2 ^ 64 - 1 → steps_told worked ≤ 1000 * (P.polls port.new - P.polls port.old)) }
    ensures stopped { IfOk result (λ worked. IsStopped (P.cancels port.old) (P.cancels port.new) worked) }
    ensures asked { Rose (P.polls port.old) (P.polls port.new) }
{
    match port.poll() {
        Poll::Go => by_reduction(alloc, ssa, earlier, fact, budget),
        Poll::Cancelled => Ok(Worked::Stopped),
    }
}

/// The same where the piece is still wanted.
fn by_reduction(
    alloc: Global,
    ssa: &Ssa,
    earlier: &Facts,
    fact: &Fact,
    _budget: u32,
) -> Result<Worked, AllocError>
    requires earlier { earlier.now ≡ record { program = ssa.now; lemmas = []; facts = [] } }
    requires formed { IsWellFormed ssa.now }
    requires order { InOrder ssa.now [] fact.now }
    requires unbounded { is_bounded ssa.now fact.now ≡ false }
    requires unwalked { is_walked_by ssa.now _budget fact.now ≡ false }
    requires algebraic { is_algebraic_claim ssa.now.lines fact.now.claim ≡ true }
    ensures worked { IfOk result (λ worked. IsWorked ssa.now _budget [] fact.now worked) }
    ensures own { IfOk result (λ worked. is_lemma worked ≡ false) }
    ensures steps { IfOk result (λ worked. steps_told worked ≡ 0) }
    ensures stopped { IfOk result (λ worked. (n : ℕ) → IsStopped n n worked) }
{
    match reduce(alloc, ssa, earlier.lemmas(), fact)? {
        Outcome::Zero(lines) => {
            let proof = proved_by_cofactors(alloc, ssa, earlier, fact, lines)?;
            Ok(Worked::Proved(proof))
        }
        Outcome::Rest(_) => Ok(Worked::Open(Cause::Later)),
        Outcome::Wide(at) => Ok(Worked::Open(Cause::Width(at))),
        Outcome::Large(what, count) => Ok(Worked::Open(Cause::Size(what, count))),
    }
}

/// The proof of a fact whose claim these cofactors show.
fn proved_by_cofactors(
    alloc: Global,
    ssa: &Ssa,
    earlier: &Facts,
    fact: &Fact,
    lines: CofactorLines,
) -> Result<Proof, AllocError>
    requires earlier { earlier.now ≡ record { program = ssa.now; lemmas = []; facts = [] } }
    requires formed { IsWellFormed ssa.now }
    requires order { InOrder ssa.now [] fact.now }
    requires checks { CofactorCheck ssa.now [] fact.now lines }
    ensures { IfOk result (λ proof. ProvesFact ssa.now [] fact.now proof) }
{
    proof_of(alloc, ssa, earlier, fact, Cert::Cofactors(lines))
}
