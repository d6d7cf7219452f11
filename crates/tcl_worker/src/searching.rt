//! The work on a fact that neither the intervals nor a walk settle: a lemma is made, or its clauses are searched.

ghost use Rattle.std.specs.Prelude.{◌≡◌, ◌≤◌, ◌<◌, ◌^◌, ◌-◌, ◌*◌, false, [], IfOk};
ghost use Rattle.tcl_lang.specs.Form.{IsWellFormed};
ghost use Rattle.tcl_goals.specs.Order.{InOrder};
ghost use Rattle.tcl_blast.specs.Clauses.{clauses_of};
ghost use Rattle.tcl_kernel.specs.BoundsCertificate.{is_bounded, is_algebraic_claim};
ghost use Rattle.tcl_kernel.specs.Causes.{is_walked_by};
ghost use Rattle.tcl_worker.specs.Lemmas.{IsToBeSearched};
ghost use Rattle.tcl_worker.specs.Worked.{IsWorked, IsStopped, KeepsRules, is_lemma, steps_told};

use crate::clause_search::search_end;
use crate::lemma_making::made_lemma;
use crate::lemma_search::by_lemmas;
use crate::logs::proved_by_log;
use crate::reducing::reduced;
use crate::search_end::{LemmaEnd, SearchEnd};
use crate::worked::Worked;
use std::alloc::{AllocError, Global};
use tcl_blast::{BlastEnd, clauses};
use tcl_cnf::Cnf;
use tcl_goals::{Cause, Claim, Fact, Lemmas, What, is_algebraic_goal};
use tcl_kernel::Facts;
use tcl_lang::Ssa;
use tcl_port::Port;

/// The end of the work on a fact that neither the intervals nor a walk settle. The claim of an algebraic goal is reduced; the
/// clauses of another are searched, where they are not too many.
pub(crate) fn searched<P: Port>(
    alloc: Global,
    ssa: &Ssa,
    earlier: &Facts,
    lemmas: &Lemmas,
    fact: &Fact,
    port: &mut P,
    budget: u32,
) -> Result<Worked, AllocError>
    requires earlier { earlier.now ≡ record { program = ssa.now; lemmas = []; facts = [] } }
    requires formed { IsWellFormed ssa.now }
    requires order { InOrder ssa.now [] fact.now }
    requires budget { 0 < budget }
    requires unbounded { is_bounded ssa.now fact.now ≡ false }
    requires unwalked { is_walked_by ssa.now budget fact.now ≡ false }
    ensures worked { IfOk result (λ worked. IsWorked ssa.now budget lemmas.now.items fact.now worked) }
    ensures rules { IfOk result (λ worked. KeepsRules ssa.now budget lemmas.now fact.now worked) }
    ensures polled { IfOk result (λ worked. P.polls port.new < 2 ^ 64 - 1 → steps_told worked ≤ 1000 * (P.polls port.new - P.polls port.old)) }
    ensures stopped { IfOk result (λ worked. IsStopped (P.cancels port.old) (P.cancels port.new) worked) }
{
    if has_algebraic_claim(ssa, fact) {
        let worked = reduced(alloc, ssa, earlier, fact, port, budget)?;
        return Ok(worked);
    }
    match clauses(alloc, ssa, fact, earlier.lemmas()) {
        Ok(cnf) => {
            let worked = by_clauses(alloc, ssa, earlier, lemmas, fact, &cnf, port, budget)?;
            Ok(worked)
        }
        Err(BlastEnd::TooMany(count)) => Ok(Worked::Open(Cause::Size(What::Clauses, count))),
        Err(BlastEnd::Memory) => Err(AllocError),
    }
}

/// Whether the claim is an algebraic goal.
fn has_algebraic_claim(ssa: &Ssa, fact: &Fact) -> bool
    ensures { result ≡ is_algebraic_claim ssa.now.lines fact.now.claim }
{
    match &fact.claim {
        Claim::Goal(goal) => is_algebraic_goal(ssa.lines().as_slice(), *goal),
        Claim::Lemma(_) => false,
    }
}

/// The end of the work on such a fact that claims no algebraic goal and has these clauses: a lemma, where one is to be made
/// and is shown, else what comes of the clauses themselves.
fn by_clauses<P: Port>(
    alloc: Global,
    ssa: &Ssa,
    earlier: &Facts,
    lemmas: &Lemmas,
    fact: &Fact,
    cnf: &Cnf,
    port: &mut P,
    budget: u32,
) -> Result<Worked, AllocError>
    requires earlier { earlier.now ≡ record { program = ssa.now; lemmas = []; facts = [] } }
    requires formed { IsWellFormed ssa.now }
    requires order { InOrder ssa.now [] fact.now }
    requires budget { 0 < budget }
    requires searched { IsToBeSearched ssa.now budget fact.now }
    requires clauses { cnf.now ≡ clauses_of ssa.now [] fact.now }
    ensures worked { IfOk result (λ worked. IsWorked ssa.now budget lemmas.now.items fact.now worked) }
    ensures rules { IfOk result (λ worked. KeepsRules ssa.now budget lemmas.now fact.now worked) }
    ensures polled { IfOk result (λ worked. P.polls port.new < 2 ^ 64 - 1 → steps_told worked ≤ 1000 * (P.polls port.new - P.polls port.old)) }
    ensures stopped { IfOk result (λ worked. IsStopped (P.cancels port.old) (P.cancels port.new) worked) }
{
    match made_lemma(alloc, ssa, earlier, lemmas, fact, port, budget)? {
        LemmaEnd::Proved(proof) => Ok(Worked::Lemma(proof)),
        LemmaEnd::Stopped => Ok(Worked::Stopped),
        LemmaEnd::Vain => {
            let worked = by_searches(alloc, ssa, earlier, lemmas, fact, cnf, port, budget)?;
            Ok(worked)
        }
    }
}

/// The end of the work on such a fact by a search with all lemmas, and where this gives no proof by one without them.
fn by_searches<P: Port>(
    alloc: Global,
    ssa: &Ssa,
    earlier: &Facts,
    lemmas: &Lemmas,
    fact: &Fact,
    cnf: &Cnf,
    port: &mut P,
    budget: u32,
) -> Result<Worked, AllocError>
    requires earlier { earlier.now ≡ record { program = ssa.now; lemmas = []; facts = [] } }
    requires formed { IsWellFormed ssa.now }
    requires order { InOrder ssa.now [] fact.now }
    requires budget { 0 < budget }
    requires searched { IsToBeSearched ssa.now budget fact.now }
    requires clauses { cnf.now ≡ clauses_of ssa.now [] fact.now }
    ensures worked { IfOk result (λ worked. IsWorked ssa.now budget lemmas.now.items fact.now worked) }
    ensures own { IfOk result (λ worked. is_lemma worked ≡ false) }
    ensures polled { IfOk result (λ worked. P.polls port.new < 2 ^ 64 - 1 → steps_told worked ≤ 1000 * (P.polls port.new - P.polls port.old)) }
    ensures stopped { IfOk result (λ worked. IsStopped (P.cancels port.old) (P.cancels port.new) worked) }
{
    match by_lemmas(alloc, ssa, lemmas, fact, port, budget)? {
        LemmaEnd::Proved(proof) => Ok(Worked::Proved(proof)),
        LemmaEnd::Stopped => Ok(Worked::Stopped),
        LemmaEnd::Vain => {
            let worked = worked_by_search(alloc, ssa, earlier, fact, cnf, port, budget)?;
            Ok(worked)
        }
    }
}

/// The end of the work on such a fact by a search of its own clauses.
fn worked_by_search<P: Port>(
    alloc: Global,
    ssa: &Ssa,
    earlier: &Facts,
    fact: &Fact,
    cnf: &Cnf,
    port: &mut P,
    budget: u32,
) -> Result<Worked, AllocError>
    requires earlier { earlier.now ≡ record { program = ssa.now; lemmas = []; facts = [] } }
    requires formed { IsWellFormed ssa.now }
    requires order { InOrder ssa.now [] fact.now }
    requires budget { 0 < budget }
    requires searched { IsToBeSearched ssa.now budget fact.now }
    requires clauses { cnf.now ≡ clauses_of ssa.now [] fact.now }
    ensures worked { IfOk result (λ worked. IsWorked ssa.now budget [] fact.now worked) }
    ensures own { IfOk result (λ worked. is_lemma worked ≡ false) }
    ensures polled { IfOk result (λ worked. P.polls port.new < 2 ^ 64 - 1 → steps_told worked ≤ 1000 * (P.polls port.new - P.polls port.old)) }
    ensures stopped { IfOk result (λ worked. IsStopped (P.cancels port.old) (P.cancels port.new) worked) }
{
    match search_end(alloc, cnf, port, budget)? {
        SearchEnd::Refutes(lines) => {
            let proof = proved_by_log(alloc, ssa, earlier, fact, lines)?;
            Ok(Worked::Proved(proof))
        }
        SearchEnd::Model(bits) => Ok(Worked::Model(bits)),
        SearchEnd::Spent => Ok(Worked::Open(Cause::Steps(budget))),
        SearchEnd::Stopped => Ok(Worked::Stopped),
    }
}
