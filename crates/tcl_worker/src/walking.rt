//! The work on the fact of a piece: its intervals are tried, then its assignments are walked, where they are few.

ghost use Rattle.std.specs.Prelude.{◌≡◌, ◌≤◌, ◌<◌, ◌^◌, ◌-◌, ◌*◌, ◌&&◌, nat_le, true, false, [], IfOk, Some, length};
ghost use Rattle.tcl_lang.specs.Form.{IsWellFormed};
ghost use Rattle.tcl_lang.specs.declared.term.AlgPred as declared;
ghost use Rattle.tcl_ring.specs.Reduction.{IsModulus};
ghost use Rattle.tcl_goals.specs.Free as free_words;
ghost use Rattle.tcl_goals.specs.Order.{InOrder};
ghost use Rattle.tcl_algebra.specs.Ends.{claim_equation as equation_of};
ghost use Rattle.tcl_algebra.specs.Equations as equations;
ghost use Rattle.tcl_enum.specs.Enumeration.{ended_of};
ghost use Rattle.tcl_enum.specs.declared.ended.Ended.TheVariants as ended;
ghost use Rattle.tcl_kernel.specs.BoundsCertificate.{is_bounded};
ghost use Rattle.tcl_worker.specs.Proofs.{ProvesFact};
ghost use Rattle.tcl_worker.specs.Worked.{IsFailing, IsWorked, IsStopped, KeepsRules, steps_told};

use crate::checking::{proof_of, shown};
use crate::inputs::input_of;
use crate::searching::searched;
use crate::worked::Worked;
use std::alloc::{AllocError, Global};
use tcl_algebra::{claim_equation, claim_modulus, has_wide_modulus};
use tcl_enum::{Ended, FreeValues, enumerate};
use tcl_goals::{Fact, Lemmas, free_bits};
use tcl_kernel::{Cert, Facts, Proof};
use tcl_lang::{Input, Ssa};
use tcl_port::Port;

/// The most free bits of a fact whose assignments are walked.
const WALKED: usize = 20;

/// The end of the work on a fact. The only error is that memory has run out.
pub(crate) fn worked<P: Port>(
    alloc: Global,
    ssa: &Ssa,
    earlier: &Facts,
    lemmas: &Lemmas,
    fact: &Fact,
    port: &mut P,
    budget: u32,
) -> Result<Worked, AllocError>
    requires earlier { earlier.now ≡ record { program = ssa.now; lemmas = []; facts = [] } }
    requires formed { IsWellFormed ssa.now }
    requires order { InOrder ssa.now [] fact.now }
    requires budget { 0 < budget }
    ensures worked { IfOk result (λ worked. IsWorked ssa.now budget lemmas.now.items fact.now worked) }
    ensures rules { IfOk result (λ worked. KeepsRules ssa.now budget lemmas.now fact.now worked) }
    ensures polled { IfOk result (λ worked. P.polls port.new < 2 ^ 64 - 1 → steps_told worked ≤ 1000 * (P.polls port.new - P.polls port.old)) }
    ensures stopped { IfOk result (λ worked. IsStopped (P.cancels port.old) (P.cancels port.new) worked) }
{
    match shown(alloc, ssa, earlier, fact, Cert::Bounds)? {
        Some(proof) => Ok(Worked::Proved(proof)),
        None => walk(alloc, ssa, earlier, lemmas, fact, port, budget),
    }
}

/// Whether all assignments of so many bits are walked, as far as their count goes.
fn are_few(bits: usize, budget: u32) -> bool
    ensures { result ≡ (nat_le bits 20 && nat_le (2 ^ bits) budget) }
{
    bits <= WALKED && 1u32 << bits as u32 <= budget
}

/// The end of the work on a fact that does not follow from the intervals.
fn walk<P: Port>(
    alloc: Global,
    ssa: &Ssa,
    earlier: &Facts,
    lemmas: &Lemmas,
    fact: &Fact,
    port: &mut P,
    budget: u32,
) -> Result<Worked, AllocError>
    requires earlier { earlier.now ≡ record { program = ssa.now; lemmas = []; facts = [] } }
    requires formed { IsWellFormed ssa.now }
    requires order { InOrder ssa.now [] fact.now }
    requires budget { 0 < budget }
    requires unbounded { is_bounded ssa.now fact.now ≡ false }
    ensures worked { IfOk result (λ worked. IsWorked ssa.now budget lemmas.now.items fact.now worked) }
    ensures rules { IfOk result (λ worked. KeepsRules ssa.now budget lemmas.now fact.now worked) }
    ensures polled { IfOk result (λ worked. P.polls port.new < 2 ^ 64 - 1 → steps_told worked ≤ 1000 * (P.polls port.new - P.polls port.old)) }
    ensures stopped { IfOk result (λ worked. IsStopped (P.cancels port.old) (P.cancels port.new) worked) }
{
    let bits = free_bits(alloc, ssa, earlier.lemmas(), fact)?;
    if !are_few(bits.len(), budget) {
        let worked = searched(alloc, ssa, earlier, lemmas, fact, port, budget)?;
        return Ok(worked);
    }
    let ended = enumerate(alloc, ssa, fact, earlier.lemmas());
    match &ended {
        Ended::All => {
            let proof = held(alloc, ssa, earlier, fact)?;
            Ok(Worked::Proved(proof))
        }
        Ended::Fails(free) => {
            let input = denied(alloc, ssa, fact, budget, free)?;
            Ok(Worked::Fails(input))
        }
        Ended::Wide => {
            let worked = searched(alloc, ssa, earlier, lemmas, fact, port, budget)?;
            Ok(worked)
        }
        Ended::Memory => Err(AllocError),
    }
}

/// The proof of a fact that holds in all its assignments.
fn held(alloc: Global, ssa: &Ssa, earlier: &Facts, fact: &Fact) -> Result<Proof, AllocError>
    requires earlier { earlier.now ≡ record { program = ssa.now; lemmas = []; facts = [] } }
    requires order { InOrder ssa.now [] fact.now }
    requires few { length (free_words.free_bits ssa.now [] fact.now) ≤ 20 }
    requires all { ended_of ssa.now [] fact.now ≡ ended.All }
    ensures { IfOk result (λ proof. ProvesFact ssa.now [] fact.now proof) }
{
    proof_of(alloc, ssa, earlier, fact, Cert::Enumerated)
}

/// The input of an assignment of these free values, which denies a fact and is the first at which its walk ends.
fn denied(
    alloc: Global,
    ssa: &Ssa,
    fact: &Fact,
    budget: u32,
    free: &FreeValues,
) -> Result<Input, AllocError>
    requires formed { IsWellFormed ssa.now }
    requires order { InOrder ssa.now [] fact.now }
    requires unbounded { is_bounded ssa.now fact.now ≡ false }
    requires few { (nat_le (length (free_words.free_bits ssa.now [] fact.now)) 20 && nat_le (2 ^ length (free_words.free_bits ssa.now [] fact.now)) budget) ≡ true }
    requires fails { ended_of ssa.now [] fact.now ≡ ended.Fails free.now }
    ensures { IfOk result (λ input. IsFailing ssa.now budget fact.now input) }
{
    know_ring(ssa, fact);
    input_of(alloc, free.as_slice(), ssa.lines())
}

/// Where the claim is an equation without a wide modulus, its modulus is one of a ring.
fn know_ring(ssa: &Ssa, fact: &Fact)
    ensures { (f : declared.AlgPred) → equation_of ssa.now fact.now.claim ≡ Some f → equations.has_wide_modulus f.modulus ≡ false → IsModulus (equations.modulus_of f.modulus) }
{
    if let Some(claim) = claim_equation(ssa, &fact.claim)
        && !has_wide_modulus(&claim.modulus)
    {
        let _modulus = claim_modulus(claim);
    }
}
