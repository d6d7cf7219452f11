//! The search for a proof of a fact that cites lemmas.

ghost use Rattle.std.specs.Prelude.{◌≡◌, ◌≤◌, ◌<◌, true, false, length, IfOk, OnOk};
ghost use Rattle.tcl_lang.specs.Form.{IsWellFormed};
ghost use Rattle.tcl_goals.specs.Order.{InOrder};
ghost use Rattle.tcl_blast.specs.Clauses.{clauses_of, clause_limit};
ghost use Rattle.tcl_kernel.specs.BoundsCertificate.{is_algebraic_claim};
ghost use Rattle.tcl_worker.specs.SearchEnds.{IsCitingEnd, IsLemmaEnd, LemmaStopped, NeverFell};

use crate::citing::with_lemmas;
use crate::clause_search::search_end;
use crate::logs::proved_by_log;
use crate::search_end::{LemmaEnd, SearchEnd};
use std::alloc::{AllocError, Global};
use tcl_blast::{BlastEnd, clauses};
use tcl_cnf::Cnf;
use tcl_goals::{Fact, Lemmas, are_ordered, are_uses, has_claim, has_hyps, is_cube};
use tcl_kernel::Facts;
use tcl_lang::Ssa;
use tcl_port::Port;

/// Searches the clauses of a fact, which claims no algebraic goal, with all these lemmas among its hypotheses, where there are
/// some and the clauses are not too many with them. The only error is that memory has run out.
pub(crate) fn by_lemmas<P: Port>(
    alloc: Global,
    ssa: &Ssa,
    lemmas: &Lemmas,
    fact: &Fact,
    port: &mut P,
    budget: u32,
) -> Result<LemmaEnd, AllocError>
    requires formed { IsWellFormed ssa.now }
    requires range { is_algebraic_claim ssa.now.lines fact.now.claim ≡ false }
    requires budget { 0 < budget }
    ensures end { IfOk result (λ end. IsLemmaEnd ssa.now lemmas.now.items fact.now end) }
    ensures stopped { IfOk result (λ end. LemmaStopped (P.cancels port.old) (P.cancels port.new) end) }
    ensures asked { OnOk result (NeverFell (P.polls port.old) (P.polls port.new)) }
{
    if lemmas.items().is_empty() {
        return Ok(LemmaEnd::Vain);
    }
    let cited = with_lemmas(alloc, ssa, fact, lemmas)?;
    if !is_in_order(ssa, lemmas, &cited) {
        return Ok(LemmaEnd::Vain);
    }
    let end = by_clauses(alloc, ssa, lemmas, &cited, port, budget)?;
    Ok(end)
}

/// Whether a fact is in order for these lemmas.
fn is_in_order(ssa: &Ssa, lemmas: &Lemmas, fact: &Fact) -> bool
    ensures { result ≡ true → InOrder ssa.now lemmas.now.items fact.now }
{
    has_claim(ssa, &fact.claim)
        && has_hyps(ssa, lemmas, &fact.hyps)
        && are_ordered(ssa, lemmas, &fact.claim, &fact.hyps)
        && are_uses(ssa, &fact.claim, &fact.uses)
        && is_cube(ssa, &fact.claim, &fact.cube)
}

/// Searches the clauses of a fact in order for these lemmas, where they are not too many.
fn by_clauses<P: Port>(
    alloc: Global,
    ssa: &Ssa,
    lemmas: &Lemmas,
    cited: &Fact,
    port: &mut P,
    budget: u32,
) -> Result<LemmaEnd, AllocError>
    requires formed { IsWellFormed ssa.now }
    requires range { is_algebraic_claim ssa.now.lines cited.now.claim ≡ false }
    requires order { InOrder ssa.now lemmas.now.items cited.now }
    requires budget { 0 < budget }
    ensures end { IfOk result (λ end. IsCitingEnd ssa.now lemmas.now.items cited.now end) }
    ensures stopped { IfOk result (λ end. LemmaStopped (P.cancels port.old) (P.cancels port.new) end) }
    ensures asked { OnOk result (NeverFell (P.polls port.old) (P.polls port.new)) }
{
    match clauses(alloc, ssa, cited, lemmas) {
        Ok(cnf) => {
            let end = by_search(alloc, ssa, lemmas, cited, &cnf, port, budget)?;
            Ok(end)
        }
        Err(BlastEnd::TooMany(_)) => Ok(LemmaEnd::Vain),
        Err(BlastEnd::Memory) => Err(AllocError),
    }
}

/// Searches these clauses of a fact.
fn by_search<P: Port>(
    alloc: Global,
    ssa: &Ssa,
    lemmas: &Lemmas,
    cited: &Fact,
    cnf: &Cnf,
    port: &mut P,
    budget: u32,
) -> Result<LemmaEnd, AllocError>
    requires formed { IsWellFormed ssa.now }
    requires range { is_algebraic_claim ssa.now.lines cited.now.claim ≡ false }
    requires order { InOrder ssa.now lemmas.now.items cited.now }
    requires budget { 0 < budget }
    requires clauses { cnf.now ≡ clauses_of ssa.now lemmas.now.items cited.now }
    requires few { length cnf.now ≤ clause_limit }
    ensures end { IfOk result (λ end. IsCitingEnd ssa.now lemmas.now.items cited.now end) }
    ensures stopped { IfOk result (λ end. LemmaStopped (P.cancels port.old) (P.cancels port.new) end) }
    ensures asked { OnOk result (NeverFell (P.polls port.old) (P.polls port.new)) }
{
    match search_end(alloc, cnf, port, budget)? {
        SearchEnd::Refutes(lines) => {
            let earlier = Facts::of(alloc, ssa, lemmas)?;
            let proof = proved_by_log(alloc, ssa, &earlier, cited, lines)?;
            Ok(LemmaEnd::Proved(proof))
        }
        SearchEnd::Stopped => Ok(LemmaEnd::Stopped),
        SearchEnd::Model(_) => Ok(LemmaEnd::Vain),
        SearchEnd::Spent => Ok(LemmaEnd::Vain),
    }
}
