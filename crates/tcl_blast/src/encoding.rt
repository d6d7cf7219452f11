// The clauses of a fact, in the order of its parts.

ghost use Rattle.std.specs.Prelude.{◌≡◌, ◌≤◌, ◌<◌, false, fold, length, slice_get, IfErr, IfOk, IsOk, OnOk, Some};
ghost use Rattle.tcl_goals.specs.Order.{InOrder};
ghost use Rattle.tcl_blast.specs.Begin.{begun};
ghost use Rattle.tcl_blast.specs.Blasted.{blank};
ghost use Rattle.tcl_blast.specs.Clauses.{with_use, with_hyp, used_of, assumed_of, blasted_by, hyp_atoms, clause_limit};
ghost use Rattle.tcl_blast.specs.Ends.{IsMade, IsBlastEnd, IsEnd};
ghost use Rattle.tcl_blast.specs.Models.{is_algebraic_claim};
ghost use Rattle.tcl_blast.specs.Ready.{CanUse, CanState};

use crate::algebraic_lines::{FixedBits, LineCircuits};
use crate::begin::begin;
use crate::bits::add_bits;
use crate::blasted::Blasted;
use crate::ended::{BlastEnd, CLAUSE_LIMIT};
use crate::lines::{add_hyp, add_use, deny};
use std::alloc::{AllocError, Global};
use tcl_cnf::Cnf;
use tcl_goals::{Fact, Hyp, Lemmas};
use tcl_lang::Ssa;

/// The clauses of a fact: that variable 0 is true; the gates of the used instructions, by place; the hypotheses in order, a
/// range or exactness hypothesis with its gates, a lemma by its clause, an equation by the bits that it fixes; the cube; and
/// the denied claim. Variable `k + 1` is free bit `k`, where variables count by number and bits from the lowest.
#[tactic(auto, using(crate::proofs::Counts::whole_end, crate::proofs::Counts::made_is))]
pub fn clauses(alloc: Global, ssa: &Ssa, fact: &Fact, lemmas: &Lemmas) -> Result<Cnf, BlastEnd>
    requires order { InOrder ssa.now lemmas.now.items fact.now }
    requires range { is_algebraic_claim ssa.now fact.now.claim ≡ false }
    ensures made { IfOk result (λ cnf. IsMade ssa.now lemmas.now.items fact.now cnf) }
    ensures end { IfErr result (λ end. IsBlastEnd ssa.now lemmas.now.items fact.now end) }
{
    clauses_by(alloc, &FixedBits, ssa, fact, lemmas)
}

/// The clauses of a fact in the order of its parts, where the circuits say what is made of algebraic lines.
fn clauses_by<L: LineCircuits>(
    alloc: Global,
    circuits: &L,
    ssa: &Ssa,
    fact: &Fact,
    lemmas: &Lemmas,
) -> Result<Cnf, BlastEnd>
    requires order { InOrder ssa.now lemmas.now.items fact.now }
    ensures made { IfOk result (λ cnf. cnf ≡ (blasted_by ssa.now (L.handler circuits.now ssa.now) lemmas.now.items fact.now).clauses) }
    ensures few { IfOk result (λ cnf. length cnf ≤ clause_limit) }
    ensures end { IfErr result (λ end. IsEnd (blasted_by ssa.now (L.handler circuits.now ssa.now) lemmas.now.items fact.now).clauses end) }
{
    let mut blasted = assumed(alloc, circuits, ssa, fact, lemmas)?;
    deny_claim(alloc, circuits, &mut blasted, ssa, fact, lemmas)?;
    check_count(&blasted.clauses)?;
    let Blasted { clauses, .. } = blasted;
    Ok(clauses)
}

/// The gates and clauses of all parts but the claim.
fn assumed<L: LineCircuits>(
    alloc: Global,
    circuits: &L,
    ssa: &Ssa,
    fact: &Fact,
    lemmas: &Lemmas,
) -> Result<Blasted, BlastEnd>
    requires order { InOrder ssa.now lemmas.now.items fact.now }
    ensures made { IfOk result (λ blasted. blasted ≡ assumed_of ssa.now (L.handler circuits.now ssa.now) lemmas.now.items fact.now) }
    ensures end { IfErr result (λ end. IsEnd (blasted_by ssa.now (L.handler circuits.now ssa.now) lemmas.now.items fact.now).clauses end) }
{
    let mut blasted = first(alloc, ssa, fact, lemmas)?;
    add_uses(alloc, &mut blasted, ssa, fact, lemmas)?;
    add_hyps(alloc, circuits, &mut blasted, ssa, fact, lemmas)?;
    add_bits(alloc, &mut blasted, fact.cube.as_slice())?;
    Ok(blasted)
}

/// The free bits, with clause 0.
fn first(alloc: Global, ssa: &Ssa, fact: &Fact, lemmas: &Lemmas) -> Result<Blasted, AllocError>
    ensures { IfOk result (λ blasted. blasted ≡ blank (begun ssa.now lemmas.now.items fact.now)) }
{
    let begun = begin(alloc, ssa, lemmas, fact)?;
    Blasted::blank(alloc, begun)
}

/// Appends the gates and clauses of the used instructions.
fn add_uses(
    alloc: Global,
    blasted: &mut Blasted,
    ssa: &Ssa,
    fact: &Fact,
    lemmas: &Lemmas,
) -> Result<(), BlastEnd>
    requires order { InOrder ssa.now lemmas.now.items fact.now }
    requires first { blasted.old ≡ blank (begun ssa.now lemmas.now.items fact.now) }
    ensures made { OnOk result (blasted.new ≡ used_of ssa.now lemmas.now.items fact.now) }
    ensures many { IfErr result (λ end. IsEnd (used_of ssa.now lemmas.now.items fact.now).clauses end) }
{
    let _form = ssa.lines();
    for k in 0..fact.uses.len() {
        next_use(alloc, blasted, ssa, *fact.uses.at(k))?;
    }
    Ok(())
}

/// Appends those of one used instruction.
fn next_use(alloc: Global, blasted: &mut Blasted, ssa: &Ssa, place: u32) -> Result<(), BlastEnd>
    requires { CanUse ssa.now blasted.old place }
    ensures made { OnOk result (blasted.new ≡ with_use ssa.now blasted.old place) }
    ensures many { IfErr result (λ end. IsEnd (with_use ssa.now blasted.old place).clauses end) }
{
    add_use(alloc, blasted, ssa, place)?;
    check_count(&blasted.clauses)
}

/// Appends the gates and clauses of the hypotheses.
fn add_hyps<L: LineCircuits>(
    alloc: Global,
    circuits: &L,
    blasted: &mut Blasted,
    ssa: &Ssa,
    fact: &Fact,
    lemmas: &Lemmas,
) -> Result<(), BlastEnd>
    requires order { InOrder ssa.now lemmas.now.items fact.now }
    requires used { blasted.old ≡ used_of ssa.now lemmas.now.items fact.now }
    ensures made { OnOk result (blasted.new ≡ fold (with_hyp ssa.now (L.handler circuits.now ssa.now) lemmas.now.items) blasted.old fact.now.hyps) }
    ensures many { IfErr result (λ end. IsEnd (fold (with_hyp ssa.now (L.handler circuits.now ssa.now) lemmas.now.items) blasted.old fact.now.hyps).clauses end) }
{
    let _form = ssa.lines();
    for k in 0..fact.hyps.len() {
        next_hyp(alloc, circuits, blasted, ssa, lemmas, fact.hyps.at(k))?;
    }
    Ok(())
}

/// Appends those of one hypothesis.
fn next_hyp<L: LineCircuits>(
    alloc: Global,
    circuits: &L,
    blasted: &mut Blasted,
    ssa: &Ssa,
    lemmas: &Lemmas,
    hyp: &Hyp,
) -> Result<(), BlastEnd>
    requires { CanState ssa.now blasted.old (hyp_atoms ssa.now.lines hyp.now) }
    ensures made { OnOk result (blasted.new ≡ with_hyp ssa.now (L.handler circuits.now ssa.now) lemmas.now.items blasted.old hyp.now) }
    ensures many { IfErr result (λ end. IsEnd (with_hyp ssa.now (L.handler circuits.now ssa.now) lemmas.now.items blasted.old hyp.now).clauses end) }
{
    add_hyp(alloc, circuits, blasted, ssa, lemmas, hyp)?;
    check_count(&blasted.clauses)
}

/// Appends what the denied claim says.
fn deny_claim<L: LineCircuits>(
    alloc: Global,
    circuits: &L,
    blasted: &mut Blasted,
    ssa: &Ssa,
    fact: &Fact,
    lemmas: &Lemmas,
) -> Result<(), BlastEnd>
    requires order { InOrder ssa.now lemmas.now.items fact.now }
    requires assumed { blasted.old ≡ assumed_of ssa.now (L.handler circuits.now ssa.now) lemmas.now.items fact.now }
    ensures made { OnOk result (blasted.new ≡ blasted_by ssa.now (L.handler circuits.now ssa.now) lemmas.now.items fact.now) }
    ensures end { IfErr result (λ end. IsEnd (blasted_by ssa.now (L.handler circuits.now ssa.now) lemmas.now.items fact.now).clauses end) }
{
    let _form = ssa.lines();
    deny(alloc, circuits, blasted, ssa, &fact.claim)
}

/// Whether there are not too many clauses.
fn check_count(clauses: &Cnf) -> Result<(), BlastEnd>
    ensures few { IsOk result → length clauses.now ≤ clause_limit }
    ensures many { IfErr result (λ end. IsEnd clauses.now end) }
{
    if clauses.len() > CLAUSE_LIMIT {
        return Err(BlastEnd::TooMany(CLAUSE_LIMIT as u32 + 1));
    }
    Ok(())
}
