//! The certificate by a log of resolutions.

ghost use Rattle.std.specs.Prelude.{◌≡◌, None, IfOk};
ghost use Rattle.tcl_goals.specs.Holds.{FactHolds};
ghost use Rattle.tcl_goals.specs.Order.{InOrder};
ghost use Rattle.tcl_kernel.specs.LogCertificate as logs;

use crate::bounded::is_algebraic_claim;
use crate::reason::Reason;
use std::alloc::{AllocError, Global};
use tcl_blast::{BlastEnd, clauses};
use tcl_cnf::{LogAnswer, LogLines, check_log};
use tcl_goals::{Fact, Lemmas};
use tcl_lang::Ssa;

/// The reason against the certificate. That the claim is algebraic, or the clauses too many, is asked first; then the
/// clauses are made, and the log is checked against them. The only error is that memory has run out.
#[tactic(auto, unfolding(crate::specs::LogCertificate::log_reason))]
pub(crate) fn log_reason(
    alloc: Global,
    ssa: &Ssa,
    lemmas: &Lemmas,
    fact: &Fact,
    lines: &LogLines,
) -> Result<Option<Reason>, AllocError>
    requires { InOrder ssa.now lemmas.now.items fact.now }
    ensures reason { IfOk result (λ r. r ≡ logs.log_reason ssa.now lemmas.now.items fact.now lines.now) }
    ensures holds { IfOk result (λ r. r ≡ None → FactHolds ssa.now lemmas.now.items fact.now) }
{
    if is_algebraic_claim(ssa.lines().as_slice(), &fact.claim) {
        return Ok(Some(Reason::LogSize));
    }
    match clauses(alloc, ssa, fact, lemmas) {
        Ok(cnf) => Ok(reason_of(check_log(alloc, &cnf, lines)?)),
        Err(BlastEnd::TooMany(_)) => Ok(Some(Reason::LogSize)),
        Err(BlastEnd::Memory) => Err(AllocError),
    }
}

/// The reason that the answer to a log gives.
fn reason_of(answer: LogAnswer) -> Option<Reason>
    ensures { result ≡ logs.reason_of answer }
{
    match answer {
        LogAnswer::BadLine(k) => Some(Reason::Log(k)),
        LogAnswer::NoEnd => Some(Reason::LogEnd),
        LogAnswer::Refutes => None,
    }
}
