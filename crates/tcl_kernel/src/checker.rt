//! Facts with their words.

ghost use Rattle.std.specs.Prelude.{◌≡◌, None, IfOk};
ghost use Rattle.tcl_goals.specs.Holds.{FactHolds};
ghost use Rattle.tcl_goals.specs.Order.{InOrder};
ghost use Rattle.tcl_kernel.specs.Shown.{Stands};
ghost use Rattle.tcl_kernel.specs.Cited.{proof_of};
ghost use Rattle.tcl_kernel.specs.Answers.{IsAnswer, IsProof};
ghost use Rattle.tcl_kernel.specs.Certificates as words;

use crate::answer::Answer;
use crate::bounded::bounds_reason;
use crate::cases::cases_reason;
use crate::certificate::Cert;
use crate::cofactored::cofactor_reason;
use crate::entry::entry_reason;
use crate::enumerated::enumeration_reason;
use crate::facts::Facts;
use crate::logged::log_reason;
use crate::proof::Proof;
use crate::reason::Reason;
use std::alloc::{AllocError, Global};
use tcl_goals::{Fact, Lemmas};
use tcl_lang::Ssa;

/// Checks a fact by its certificate, after the facts that were shown earlier: the proof exactly where there is no reason
/// against it, else the first reason.
pub fn check(alloc: Global, ssa: &Ssa, earlier: &Facts, fact: Fact, cert: Cert) -> Answer
    requires { earlier.now.program ≡ ssa.now }
    ensures { IsAnswer (words.first_reason ssa.now earlier.now fact cert) (proof_of ssa.now earlier.now.lemmas fact (words.stands_alone cert)) result }
{
    match first_reason(alloc, ssa, earlier, &fact, &cert) {
        Ok(None) => proved(alloc, ssa, earlier.lemmas(), fact, cert.stands_alone()),
        Ok(Some(reason)) => Answer::Bad(reason),
        Err(_) => Answer::Memory,
    }
}

/// The first reason against a fact with its certificate. The only error is that memory has run out.
#[tactic(auto, unfolding(crate::specs::Certificates::first_reason))]
fn first_reason(
    alloc: Global,
    ssa: &Ssa,
    earlier: &Facts,
    fact: &Fact,
    cert: &Cert,
) -> Result<Option<Reason>, AllocError>
    requires { earlier.now.program ≡ ssa.now }
    ensures reason { IfOk result (λ r. r ≡ words.first_reason ssa.now earlier.now fact.now cert.now) }
    ensures stands { IfOk result (λ r. r ≡ None → Stands ssa.now earlier.now.lemmas fact.now) }
{
    match entry_reason(ssa, earlier.lemmas(), fact) {
        Some(reason) => Ok(Some(reason)),
        None => certificate_reason(alloc, ssa, earlier, fact, cert),
    }
}

/// The first reason against the certificate of a fact that is in order. The only error is that memory has run out.
fn certificate_reason(
    alloc: Global,
    ssa: &Ssa,
    earlier: &Facts,
    fact: &Fact,
    cert: &Cert,
) -> Result<Option<Reason>, AllocError>
    requires program { earlier.now.program ≡ ssa.now }
    requires order { InOrder ssa.now earlier.now.lemmas fact.now }
    ensures reason { IfOk result (λ r. r ≡ words.certificate_reason ssa.now earlier.now fact.now cert.now) }
    ensures holds { IfOk result (λ r. r ≡ None → FactHolds ssa.now earlier.now.lemmas fact.now) }
{
    match cert {
        Cert::Bounds => bounds_reason(alloc, ssa, fact),
        Cert::Enumerated => enumeration_reason(alloc, ssa, earlier.lemmas(), fact),
        Cert::Log(lines) => log_reason(alloc, ssa, earlier.lemmas(), fact, lines),
        Cert::Cofactors(lines) => cofactor_reason(alloc, ssa, earlier.lemmas(), fact, lines),
        Cert::Cases(items) => cases_reason(alloc, earlier, fact, items.as_slice()),
    }
}

/// The proof of a fact that stands.
fn proved(alloc: Global, ssa: &Ssa, lemmas: &Lemmas, fact: Fact, alone: bool) -> Answer
    requires { Stands ssa.now lemmas.now.items fact }
    ensures { IsProof (proof_of ssa.now lemmas.now.items fact alone) result }
{
    match Proof::of_fact(alloc, ssa, lemmas, fact, alone) {
        Ok(proof) => Answer::Proof(proof),
        Err(_) => Answer::Memory,
    }
}
