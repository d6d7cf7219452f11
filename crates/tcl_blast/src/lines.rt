// Instructions, hypotheses and denied claims as gates and clauses.

ghost use Rattle.std.specs.Prelude.{◌≡◌, ◌<◌, ◌≤◌, ◌^◌, length, slice_get, IfErr, IfOk, OnOk, option_copied};
ghost use Rattle.tcl_goals.specs.LemmaList.{lemma_of};
ghost use Rattle.tcl_measure.specs.SoundModulus.{StatesSound};
ghost use Rattle.tcl_words.specs.Ranges.{AllWithin};
ghost use Rattle.tcl_words.specs.Steps.{atoms_of};
ghost use Rattle.tcl_words.specs.Stores.{HaveWidths};
ghost use Rattle.tcl_blast.specs.Blasted.{grown, stated, denied};
ghost use Rattle.tcl_blast.specs.Ends.{IsEnd};
ghost use Rattle.tcl_blast.specs.Lifted.{HasTerm};
ghost use Rattle.tcl_blast.specs.Clauses.{with_use, range_wire, exactness_wire, stated_line, predicate_in, with_lemma, with_hyp, denied_line, denied_claim, hyp_atoms, claim_atoms};

use crate::algebraic_lines::LineCircuits;
use crate::bits::{add_choice, deny_bits};
use crate::blasted::Blasted;
use crate::ended::{BlastEnd, CLAUSE_LIMIT};
use crate::sizes::pred_size;
use std::alloc::{AllocError, Global};
use tcl_cnf::Lit;
use tcl_gates::append_clauses;
use tcl_goals::{Claim, Hyp, Lemma, Lemmas, Numbered, goal_place};
use tcl_lang::{Pred, RngPred, Ssa};
use tcl_words::{exactness, instruction, range};

/// Appends the gates of a used instruction and their clauses.
#[tactic(auto, using(crate::proofs::States::step_count))]
pub(crate) fn add_use(
    alloc: Global,
    blasted: &mut Blasted,
    ssa: &Ssa,
    place: u32,
) -> Result<(), AllocError>
    requires words { length blasted.old.words ≡ length ssa.now.variables }
    requires within { AllWithin (length blasted.old.gates) blasted.old.words }
    requires widths { HaveWidths blasted.old.words ssa.now.variables (atoms_of (slice_get ssa.now.lines place)) }
    ensures made { OnOk result (blasted.new ≡ with_use ssa.now blasted.old place) }
    ensures within { OnOk result (AllWithin (length blasted.new.gates) blasted.new.words) }
{
    let from = blasted.gates.len();
    instruction(alloc, &mut blasted.gates, &mut blasted.words, ssa, place)?;
    append_clauses(alloc, &mut blasted.clauses, &blasted.gates, from)
}

/// Whether the clauses with those of a range predicate are not too many by the least count of its gates, each of which gives
/// two clauses at least. So not much more is made than there may be.
#[tactic(auto, using(crate::proofs::Counts::range_many))]
fn check_room(blasted: &Blasted, ssa: &Ssa, pred: &RngPred) -> Result<(), BlastEnd>
    requires { AllWithin (length blasted.now.gates) blasted.now.words }
    ensures { IfErr result (λ end. IsEnd (grown blasted.now (range_wire ssa.now blasted.now pred.now).gates blasted.now.words).clauses end) }
{
    let _form = ssa.variables();
    blasted.gates.known();
    let made = blasted.clauses.len().min(CLAUSE_LIMIT + 1) as u64;
    if made + 2 * pred_size(&blasted.words, pred) > CLAUSE_LIMIT as u64 {
        return Err(BlastEnd::TooMany(CLAUSE_LIMIT as u32 + 1));
    }
    Ok(())
}

/// Appends the gates of a range predicate and their clauses, and gives the literal of its truth.
fn range_lit(
    alloc: Global,
    blasted: &mut Blasted,
    ssa: &Ssa,
    pred: &RngPred,
) -> Result<Lit, BlastEnd>
    requires { AllWithin (length blasted.old.gates) blasted.old.words }
    ensures made { OnOk result (blasted.new ≡ grown blasted.old (range_wire ssa.now blasted.old pred.now).gates blasted.old.words) }
    ensures lit { IfOk result (λ lit. lit ≡ (range_wire ssa.now blasted.old pred.now).lit) }
    ensures many { IfErr result (λ end. IsEnd (grown blasted.old (range_wire ssa.now blasted.old pred.now).gates blasted.old.words).clauses end) }
{
    check_room(blasted, ssa, pred)?;
    let from = blasted.gates.len();
    let lit = range(alloc, &mut blasted.gates, &blasted.words, ssa, pred)?;
    append_clauses(alloc, &mut blasted.clauses, &blasted.gates, from)?;
    Ok(lit)
}

/// Appends a range predicate that is a hypothesis: its gates, and the clause that it is true.
#[tactic(auto, using(crate::proofs::Counts::stated_end))]
fn add_range(
    alloc: Global,
    blasted: &mut Blasted,
    ssa: &Ssa,
    pred: &RngPred,
) -> Result<(), BlastEnd>
    requires { AllWithin (length blasted.old.gates) blasted.old.words }
    ensures made { OnOk result (blasted.new ≡ stated blasted.old (range_wire ssa.now blasted.old pred.now)) }
    ensures many { IfErr result (λ end. IsEnd (stated blasted.old (range_wire ssa.now blasted.old pred.now)).clauses end) }
{
    let lit = range_lit(alloc, blasted, ssa, pred)?;
    blasted.add_unit(alloc, lit)?;
    Ok(())
}

/// Appends a range predicate that is denied: its gates, and the clause that it is false.
#[tactic(auto, using(crate::proofs::Counts::refuted_end))]
fn deny_range(
    alloc: Global,
    blasted: &mut Blasted,
    ssa: &Ssa,
    pred: &RngPred,
) -> Result<(), BlastEnd>
    requires { AllWithin (length blasted.old.gates) blasted.old.words }
    ensures made { OnOk result (blasted.new ≡ denied blasted.old (range_wire ssa.now blasted.old pred.now)) }
    ensures many { IfErr result (λ end. IsEnd (denied blasted.old (range_wire ssa.now blasted.old pred.now)).clauses end) }
{
    let lit = range_lit(alloc, blasted, ssa, pred)?;
    blasted.add_unit(alloc, lit.negation())?;
    Ok(())
}

/// Appends the gates of an instruction's exactness condition and their clauses, and gives its literal.
fn exactness_lit(
    alloc: Global,
    blasted: &mut Blasted,
    ssa: &Ssa,
    place: u32,
) -> Result<Lit, AllocError>
    requires within { AllWithin (length blasted.old.gates) blasted.old.words }
    requires widths { HaveWidths blasted.old.words ssa.now.variables (atoms_of (slice_get ssa.now.lines place)) }
    ensures made { OnOk result (blasted.new ≡ grown blasted.old (exactness_wire ssa.now blasted.old (slice_get ssa.now.lines place)).gates blasted.old.words) }
    ensures lit { IfOk result (λ lit. lit ≡ (exactness_wire ssa.now blasted.old (slice_get ssa.now.lines place)).lit) }
{
    let from = blasted.gates.len();
    let lit = exactness(alloc, &mut blasted.gates, &blasted.words, ssa, place)?;
    append_clauses(alloc, &mut blasted.clauses, &blasted.gates, from)?;
    Ok(lit)
}

/// The predicate of the line at a place; none where the line states none, or there is no line.
#[tactic(auto, using(tcl_measure::proofs::Moduli::modulus_at, crate::proofs::Leaves::term_at))]
fn predicate_at(ssa: &Ssa, place: u32) -> Option<&Pred>
    ensures predicate { option_copied result ≡ predicate_in (slice_get ssa.now.lines place) }
    ensures sound { StatesSound (predicate_in (slice_get ssa.now.lines place)) }
    ensures term { HasTerm (predicate_in (slice_get ssa.now.lines place)) }
{
    match ssa.lines().as_slice().get(place as usize) {
        Some(line) => line.predicate(),
        None => None,
    }
}

/// Appends what a line says that is a hypothesis: the gates of a range predicate or an exactness condition with the clause
/// that it is true, and of an equation what the circuits make of it.
fn add_line<L: LineCircuits>(
    alloc: Global,
    circuits: &L,
    blasted: &mut Blasted,
    ssa: &Ssa,
    place: u32,
) -> Result<(), BlastEnd>
    requires within { AllWithin (length blasted.old.gates) blasted.old.words }
    requires widths { HaveWidths blasted.old.words ssa.now.variables (atoms_of (slice_get ssa.now.lines place)) }
    ensures made { OnOk result (blasted.new ≡ stated_line ssa.now (L.handler circuits.now ssa.now) blasted.old (slice_get ssa.now.lines place) (predicate_in (slice_get ssa.now.lines place))) }
    ensures many { IfErr result (λ end. IsEnd (stated_line ssa.now (L.handler circuits.now ssa.now) blasted.old (slice_get ssa.now.lines place) (predicate_in (slice_get ssa.now.lines place))).clauses end) }
{
    match predicate_at(ssa, place) {
        Some(Pred::Rng(pred)) => add_range(alloc, blasted, ssa, pred),
        Some(Pred::Alg(pred)) => circuits.state(alloc, blasted, ssa, pred),
        None => {
            let lit = exactness_lit(alloc, blasted, ssa, place)?;
            blasted.add_unit(alloc, lit)?;
            Ok(())
        }
    }
}

/// Appends what a denied goal says: the gates of its range predicate or exactness condition with the clause that it is false,
/// and of an equation what the circuits make of it.
fn deny_line<L: LineCircuits>(
    alloc: Global,
    circuits: &L,
    blasted: &mut Blasted,
    ssa: &Ssa,
    place: u32,
) -> Result<(), BlastEnd>
    requires within { AllWithin (length blasted.old.gates) blasted.old.words }
    requires widths { HaveWidths blasted.old.words ssa.now.variables (atoms_of (slice_get ssa.now.lines place)) }
    ensures made { OnOk result (blasted.new ≡ denied_line ssa.now (L.handler circuits.now ssa.now) blasted.old (slice_get ssa.now.lines place) (predicate_in (slice_get ssa.now.lines place))) }
    ensures many { IfErr result (λ end. IsEnd (denied_line ssa.now (L.handler circuits.now ssa.now) blasted.old (slice_get ssa.now.lines place) (predicate_in (slice_get ssa.now.lines place))).clauses end) }
{
    match predicate_at(ssa, place) {
        Some(Pred::Rng(pred)) => deny_range(alloc, blasted, ssa, pred),
        Some(Pred::Alg(pred)) => circuits.deny(alloc, blasted, ssa, pred),
        None => {
            let lit = exactness_lit(alloc, blasted, ssa, place)?;
            blasted.add_unit(alloc, lit.negation())?;
            Ok(())
        }
    }
}

/// Appends a lemma's clause; a lemma that is not there says nothing.
fn add_lemma(
    alloc: Global,
    blasted: &mut Blasted,
    lemmas: &[Numbered],
    number: u32,
) -> Result<(), AllocError>
    ensures { OnOk result (blasted.new ≡ with_lemma blasted.old (lemma_of lemmas.now number)) }
{
    match lemma_of(lemmas, number) {
        Some(lemma) => add_choice(alloc, blasted, lemma.clause.as_slice()),
        None => Ok(()),
    }
}

/// The lemma of a number.
#[tactic(auto, unfolding(tcl_goals::specs::LemmaList::lemma_of))]
fn lemma_of(lemmas: &[Numbered], number: u32) -> Option<&Lemma>
    ensures { option_copied result ≡ lemma_of lemmas.now number }
{
    for k in 0..lemmas.len() {
        if lemmas[k].number == number {
            return Some(&lemmas[k].lemma);
        }
    }
    None
}

/// Appends a hypothesis.
pub(crate) fn add_hyp<L: LineCircuits>(
    alloc: Global,
    circuits: &L,
    blasted: &mut Blasted,
    ssa: &Ssa,
    lemmas: &Lemmas,
    hyp: &Hyp,
) -> Result<(), BlastEnd>
    requires within { AllWithin (length blasted.old.gates) blasted.old.words }
    requires widths { HaveWidths blasted.old.words ssa.now.variables (hyp_atoms ssa.now.lines hyp.now) }
    ensures made { OnOk result (blasted.new ≡ with_hyp ssa.now (L.handler circuits.now ssa.now) lemmas.now.items blasted.old hyp.now) }
    ensures many { IfErr result (λ end. IsEnd (with_hyp ssa.now (L.handler circuits.now ssa.now) lemmas.now.items blasted.old hyp.now).clauses end) }
{
    match hyp {
        Hyp::Line(place) => add_line(alloc, circuits, blasted, ssa, *place),
        Hyp::Lemma(number) => {
            add_lemma(alloc, blasted, lemmas.items().as_slice(), *number)?;
            Ok(())
        }
    }
}

/// Appends a denied claim.
pub(crate) fn deny<L: LineCircuits>(
    alloc: Global,
    circuits: &L,
    blasted: &mut Blasted,
    ssa: &Ssa,
    claim: &Claim,
) -> Result<(), BlastEnd>
    requires within { AllWithin (length blasted.old.gates) blasted.old.words }
    requires widths { HaveWidths blasted.old.words ssa.now.variables (claim_atoms ssa.now.lines claim.now) }
    ensures made { OnOk result (blasted.new ≡ denied_claim ssa.now (L.handler circuits.now ssa.now) blasted.old claim.now) }
    ensures many { IfErr result (λ end. IsEnd (denied_claim ssa.now (L.handler circuits.now ssa.now) blasted.old claim.now).clauses end) }
{
    match claim {
        Claim::Goal(goal) => {
            let place = goal_place(ssa.lines().as_slice(), *goal) as u32;
            deny_line(alloc, circuits, blasted, ssa, place)
        }
        Claim::Lemma(lemma) => {
            deny_bits(alloc, blasted, lemma.clause.as_slice())?;
            Ok(())
        }
    }
}
