//! What was found, handed to the kernel.

ghost use Rattle.std.specs.Prelude.{◌≡◌, None, true, IfOk, IfSome};
ghost use Rattle.tcl_goals.specs.Places.{has_goal};
ghost use Rattle.tcl_kernel.specs.Certificates as words;
ghost use Rattle.tcl_kernel.specs.Cited as cited;
ghost use Rattle.tcl_kernel.specs.Counterexample.{BreakChecks, break_proof};
ghost use Rattle.tcl_worker.specs.Proofs.{IsTaken};

use std::alloc::{AllocError, Global};
use tcl_goals::Fact;
use tcl_kernel::{Answer, Cert, Facts, Proof, check, check_break};
use tcl_lang::{Input, Ssa};

/// The kernel's proof of a fact by a certificate, none where there is a reason against it. The only error is that memory has
/// run out.
pub(crate) fn shown(
    alloc: Global,
    ssa: &Ssa,
    earlier: &Facts,
    fact: &Fact,
    cert: Cert,
) -> Result<Option<Proof>, AllocError>
    requires { earlier.now.program ≡ ssa.now }
    ensures { IfOk result (λ given. IsTaken (words.first_reason ssa.now earlier.now fact.now cert) (cited.proof_of ssa.now earlier.now.lemmas fact.now (words.stands_alone cert)) given) }
{
    match check(alloc, ssa, earlier, fact.copy()?, cert) {
        Answer::Proof(proof) => Ok(Some(proof)),
        Answer::Bad(_) => Ok(None),
        Answer::Memory => Err(AllocError),
    }
}

/// The kernel's proof of a fact by a certificate against which there is no reason. The only error is that memory has run out.
pub(crate) fn proof_of(
    alloc: Global,
    ssa: &Ssa,
    earlier: &Facts,
    fact: &Fact,
    cert: Cert,
) -> Result<Proof, AllocError>
    requires program { earlier.now.program ≡ ssa.now }
    requires checks { words.first_reason ssa.now earlier.now fact.now cert ≡ None }
    ensures { IfOk result (λ proof. proof ≡ cited.proof_of ssa.now earlier.now.lemmas fact.now (words.stands_alone cert)) }
{
    match shown(alloc, ssa, earlier, fact, cert)? {
        Some(proof) => Ok(proof),
        None => unreachable!(),
    }
}

/// The kernel's proof that an input refutes a goal, none where it does not. The only error is that memory has run out.
pub(crate) fn tried(
    alloc: Global,
    ssa: &Ssa,
    goal: u32,
    input: Input,
) -> Result<Option<Proof>, AllocError>
    requires { has_goal ssa.now.lines goal ≡ true }
    ensures yes { IfOk result (λ given. IfSome given (λ proof. BreakChecks ssa.now goal input × (proof ≡ break_proof ssa.now goal input))) }
    ensures no { IfOk result (λ given. given ≡ None → BreakChecks ssa.now goal input → ⊥) }
{
    match check_break(alloc, ssa, goal, input) {
        Answer::Proof(proof) => Ok(Some(proof)),
        Answer::Bad(_) => Ok(None),
        Answer::Memory => Err(AllocError),
    }
}

/// The kernel's proof of an input that refutes a goal by the computed truths. The only error is that memory has run out.
pub(crate) fn break_of(
    alloc: Global,
    ssa: &Ssa,
    goal: u32,
    input: Input,
) -> Result<Proof, AllocError>
    requires goal { has_goal ssa.now.lines goal ≡ true }
    requires checks { BreakChecks ssa.now goal input }
    ensures { IfOk result (λ proof. proof ≡ break_proof ssa.now goal input) }
{
    match tried(alloc, ssa, goal, input)? {
        Some(proof) => Ok(proof),
        None => unreachable!(),
    }
}
