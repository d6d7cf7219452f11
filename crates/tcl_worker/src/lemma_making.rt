//! The making of lemmas for a fact whose clauses are to be searched.

ghost use Rattle.std.specs.Prelude.{◌≡◌, ◌≤◌, ◌<◌, All, false, [], length, IfOk, OnOk};
ghost use Rattle.tcl_lang.specs.Form.{IsWellFormed};
ghost use Rattle.tcl_goals.specs.Order.{InOrder};
ghost use Rattle.tcl_blast.specs.Clauses.{clauses_of, clause_limit};
ghost use Rattle.tcl_kernel.specs.BoundsCertificate.{is_algebraic_claim};
ghost use Rattle.tcl_worker.specs.Candidates as candidates;
ghost use Rattle.tcl_worker.specs.Denials.{MeetsHyps};
ghost use Rattle.tcl_worker.specs.Lemmas.{IsToBeSearched};
ghost use Rattle.tcl_worker.specs.SearchEnds.{IsCandidateEnd, IsMakingEnd, IsTrialEnd, LemmaStopped, NeverFell};

use crate::candidates::{candidate_bits, candidate_fact, is_known};
use crate::clause_search::search_end;
use crate::denials::{is_denied, meeting_runs};
use crate::logs::proved_by_log;
use crate::search_end::{LemmaEnd, SearchEnd};
use std::alloc::{AllocError, Global};
use tcl_blast::{BlastEnd, clauses};
use tcl_cnf::Cnf;
use tcl_goals::{BitLit, Fact, Lemmas};
use tcl_kernel::Facts;
use tcl_lang::{Ssa, Trace};
use tcl_port::Port;

/// The most clauses that the search of a candidate derives.
const TRIED: u32 = 256;

/// Searches for a lemma where more are wanted: the candidates are tried in order until one is shown. The only error is that
/// memory has run out.
pub(crate) fn made_lemma<P: Port>(
    alloc: Global,
    ssa: &Ssa,
    earlier: &Facts,
    lemmas: &Lemmas,
    fact: &Fact,
    port: &mut P,
    budget: u32,
) -> Result<LemmaEnd, AllocError>
    requires earlier { earlier.now ≡ record { program = ssa.now; lemmas = []; facts = [] } }
    requires formed { IsWellFormed ssa.now }
    requires order { InOrder ssa.now [] fact.now }
    requires budget { 0 < budget }
    requires searched { IsToBeSearched ssa.now budget fact.now }
    ensures end { IfOk result (λ end. IsMakingEnd ssa.now budget lemmas.now fact.now end) }
    ensures stopped { IfOk result (λ end. LemmaStopped (P.cancels port.old) (P.cancels port.new) end) }
    ensures asked { OnOk result (NeverFell (P.polls port.old) (P.polls port.new)) }
{
    if !lemmas.more() {
        return Ok(LemmaEnd::Vain);
    }
    let bits = candidate_bits(alloc, ssa, &fact.claim)?;
    let runs = meeting_runs(alloc, ssa, fact)?;
    for k in 0..bits.len() {
        match tried(
            alloc,
            ssa,
            earlier,
            lemmas,
            fact,
            runs.as_slice(),
            *bits.at(k),
            port,
            budget,
        )? {
            LemmaEnd::Proved(proof) => return Ok(LemmaEnd::Proved(proof)),
            LemmaEnd::Stopped => return Ok(LemmaEnd::Stopped),
            LemmaEnd::Vain => (),
        }
    }
    Ok(LemmaEnd::Vain)
}

/// Tries a candidate that is no lemma of the list and that none of these runs denies.
fn tried<P: Port>(
    alloc: Global,
    ssa: &Ssa,
    earlier: &Facts,
    lemmas: &Lemmas,
    fact: &Fact,
    runs: &[Trace],
    bit: BitLit,
    port: &mut P,
    budget: u32,
) -> Result<LemmaEnd, AllocError>
    requires earlier { earlier.now ≡ record { program = ssa.now; lemmas = []; facts = [] } }
    requires formed { IsWellFormed ssa.now }
    requires order { InOrder ssa.now [] (candidates.candidate_fact fact.now bit) }
    requires met { All (MeetsHyps ssa.now fact.now) runs.now }
    requires budget { 0 < budget }
    ensures end { IfOk result (λ end. IsTrialEnd ssa.now budget lemmas.now.items fact.now bit end) }
    ensures stopped { IfOk result (λ end. LemmaStopped (P.cancels port.old) (P.cancels port.new) end) }
    ensures asked { OnOk result (NeverFell (P.polls port.old) (P.polls port.new)) }
{
    if is_known(lemmas.items().as_slice(), bit) {
        return Ok(LemmaEnd::Vain);
    }
    if is_denied(ssa, fact, runs, bit) {
        return Ok(LemmaEnd::Vain);
    }
    let candidate = candidate_fact(alloc, fact, bit)?;
    let end = by_clauses(alloc, ssa, earlier, &candidate, port, budget.min(TRIED))?;
    Ok(end)
}

/// Searches the clauses of a candidate, where they are not too many.
fn by_clauses<P: Port>(
    alloc: Global,
    ssa: &Ssa,
    earlier: &Facts,
    candidate: &Fact,
    port: &mut P,
    budget: u32,
) -> Result<LemmaEnd, AllocError>
    requires earlier { earlier.now ≡ record { program = ssa.now; lemmas = []; facts = [] } }
    requires formed { IsWellFormed ssa.now }
    requires order { InOrder ssa.now [] candidate.now }
    requires range { is_algebraic_claim ssa.now.lines candidate.now.claim ≡ false }
    requires budget { 0 < budget }
    ensures end { IfOk result (λ end. IsCandidateEnd ssa.now budget candidate.now end) }
    ensures stopped { IfOk result (λ end. LemmaStopped (P.cancels port.old) (P.cancels port.new) end) }
    ensures asked { OnOk result (NeverFell (P.polls port.old) (P.polls port.new)) }
{
    match clauses(alloc, ssa, candidate, earlier.lemmas()) {
        Ok(cnf) => {
            let end = by_search(alloc, ssa, earlier, candidate, &cnf, port, budget)?;
            Ok(end)
        }
        Err(BlastEnd::TooMany(_)) => Ok(LemmaEnd::Vain),
        Err(BlastEnd::Memory) => Err(AllocError),
    }
}

/// Searches these clauses of a candidate.
fn by_search<P: Port>(
    alloc: Global,
    ssa: &Ssa,
    earlier: &Facts,
    candidate: &Fact,
    cnf: &Cnf,
    port: &mut P,
    budget: u32,
) -> Result<LemmaEnd, AllocError>
    requires earlier { earlier.now ≡ record { program = ssa.now; lemmas = []; facts = [] } }
    requires formed { IsWellFormed ssa.now }
    requires order { InOrder ssa.now [] candidate.now }
    requires range { is_algebraic_claim ssa.now.lines candidate.now.claim ≡ false }
    requires budget { 0 < budget }
    requires clauses { cnf.now ≡ clauses_of ssa.now [] candidate.now }
    requires few { length cnf.now ≤ clause_limit }
    ensures end { IfOk result (λ end. IsCandidateEnd ssa.now budget candidate.now end) }
    ensures stopped { IfOk result (λ end. LemmaStopped (P.cancels port.old) (P.cancels port.new) end) }
    ensures asked { OnOk result (NeverFell (P.polls port.old) (P.polls port.new)) }
{
    match search_end(alloc, cnf, port, budget)? {
        SearchEnd::Refutes(lines) => {
            let proof = proved_by_log(alloc, ssa, earlier, candidate, lines)?;
            Ok(LemmaEnd::Proved(proof))
        }
        SearchEnd::Stopped => Ok(LemmaEnd::Stopped),
        SearchEnd::Model(_) => Ok(LemmaEnd::Vain),
        SearchEnd::Spent => Ok(LemmaEnd::Vain),
    }
}
