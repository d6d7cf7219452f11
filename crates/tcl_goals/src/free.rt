//! The free variables of a fact, and their bits.

ghost use Rattle.std.specs.Prelude.{◌≡◌, ◌++◌, ◌<◌, ◌≤◌, ◌^◌, ◌&&◌, false, not, IfOk, OnOk, length, flat_map, replicate, slice_get};
ghost use Rattle.tcl_goals.specs.Numbers as numbers;
ghost use Rattle.tcl_goals.specs.Closure as closures;
ghost use Rattle.tcl_goals.specs.Slices as slices;
ghost use Rattle.tcl_goals.specs.Free as free;

use crate::fact::{Bit, BitLit, Claim, Fact, Hyp};
use crate::goals_of::goal_place;
use crate::lemma::{Lemmas, Numbered};
use crate::marks::Marks;
use crate::order_of::lemma_of;
use std::alloc::{AllocError, Global};
use tcl_lang::{Line, Op, Ssa, Variable};
use tcl_list::Listing;

/// The variables that the fact names and that no used instruction other than `nondet` computes, by number.
pub fn free_variables(
    alloc: Global,
    ssa: &Ssa,
    lemmas: &Lemmas,
    fact: &Fact,
) -> Result<Listing<u32>, AllocError>
    ensures { IfOk result (λ vs. vs ≡ free.free_variables ssa.now lemmas.now.items fact.now) }
{
    let lines = ssa.lines().as_slice();
    let count = ssa.variables().len();
    let mut named = Marks::none(alloc, count)?;
    add_fact(&mut named, lines, lemmas.items().as_slice(), fact);
    let mut computed = Marks::none(alloc, count)?;
    add_computed(&mut computed, lines, fact.uses.as_slice());
    unmarked(alloc, &named, &computed, count)
}

/// The bits of the free variables: variables by number, bits from the highest.
#[tactic(auto, unfolding(crate::specs::Free::free_bits))]
pub fn free_bits(
    alloc: Global,
    ssa: &Ssa,
    lemmas: &Lemmas,
    fact: &Fact,
) -> Result<Listing<Bit>, AllocError>
    ensures { IfOk result (λ bits. bits ≡ free.free_bits ssa.now lemmas.now.items fact.now) }
{
    let variables = free_variables(alloc, ssa, lemmas, fact)?;
    bits_of(alloc, ssa.variables().as_slice(), variables.as_slice())
}

/// The bits of these variables.
fn bits_of(
    alloc: Global,
    variables: &[Variable],
    chosen: &[u32],
) -> Result<Listing<Bit>, AllocError>
    ensures { IfOk result (λ bits. bits ≡ flat_map (free.bits_of variables.now) chosen.now) }
{
    let mut bits = Listing::new(alloc);
    for k in 0..chosen.len() {
        let v = chosen[k];
        push_bits(&mut bits, v, width_of(variables, v))?;
    }
    Ok(bits)
}

/// The width of a variable; 0 where there is none.
fn width_of(variables: &[Variable], v: u32) -> u32
    ensures { result ≡ free.width_in (slice_get variables.now v) }
{
    match variables.get(v as usize) {
        Some(variable) => variable.ty.width,
        None => 0,
    }
}

/// Adds the lowest `width` bits of a variable, from the highest.
fn push_bits(bits: &mut Listing<Bit>, v: u32, width: u32) -> Result<(), AllocError>
    ensures { OnOk result (bits.new ≡ bits.old ++ free.bits_down v width) }
{
    let mut left = width;
    while left > 0 {
        left -= 1;
        bits.push(Bit { var: v, bit: left })?;
    }
    Ok(())
}

/// The variables of the first `count` that are in the one set and not in the other.
#[tactic(auto, using(crate::proofs::Numbers::those_none))]
fn unmarked(
    alloc: Global,
    named: &Marks,
    computed: &Marks,
    count: usize,
) -> Result<Listing<u32>, AllocError>
    requires { count < 2 ^ 32 }
    ensures { IfOk result (λ vs. vs ≡ numbers.those_below (λ v. closures.is_marked named.now.marks v && not (closures.is_marked computed.now.marks v)) count) }
{
    let mut chosen = Listing::new(alloc);
    for v in 0..count {
        if is_left(named, computed, v) {
            chosen.push(v as u32)?;
        }
    }
    Ok(chosen)
}

/// Whether a variable is in the one set and not in the other.
fn is_left(named: &Marks, computed: &Marks, v: usize) -> bool
    ensures { result ≡ (closures.is_marked named.now.marks v && not (closures.is_marked computed.now.marks v)) }
{
    named.has(v) && !computed.has(v)
}

/// Adds the variables that a fact names.
#[tactic(auto, using(crate::proofs::Marking::mark_four))]
pub(crate) fn add_fact(marks: &mut Marks, lines: &[Line], lemmas: &[Numbered], fact: &Fact)
    ensures { marks.new.marks ≡ closures.mark_all marks.old.marks (free.fact_variables lines.now lemmas.now fact.now) }
{
    add_uses(marks, lines, fact.uses.as_slice());
    add_hyps(marks, lines, lemmas, fact.hyps.as_slice());
    add_bits(marks, fact.cube.as_slice());
    add_claim(marks, lines, &fact.claim);
}

/// Adds the variables that the line of place `k` reads.
fn add_read(marks: &mut Marks, lines: &[Line], k: usize)
    ensures { marks.new.marks ≡ closures.mark_all marks.old.marks (slices.read_in (slice_get lines.now k)) }
{
    match lines.get(k) {
        Some(line) => marks.add_names(line),
        None => (),
    }
}

/// Adds the variables that the line of place `k` defines.
fn add_defined(marks: &mut Marks, lines: &[Line], k: usize)
    ensures { marks.new.marks ≡ closures.mark_all marks.old.marks (slices.defined_in (slice_get lines.now k)) }
{
    match lines.get(k) {
        Some(Line::Input(_, v)) => marks.add(*v),
        Some(Line::Step(instr)) => marks.add_all(instr.outs.as_slice()),
        _ => (),
    }
}

/// Adds the variables of a used instruction.
#[tactic(auto, using(crate::proofs::Marking::mark_append))]
fn add_use(marks: &mut Marks, lines: &[Line], k: usize)
    ensures { marks.new.marks ≡ closures.mark_all marks.old.marks (slices.named_in (slice_get lines.now k)) }
{
    add_defined(marks, lines, k);
    add_read(marks, lines, k);
}

/// Adds the variables of used instructions.
fn add_uses(marks: &mut Marks, lines: &[Line], uses: &[u32])
    ensures { marks.new.marks ≡ closures.mark_all marks.old.marks (flat_map (λ k. slices.named_in (slice_get lines.now k)) uses.now) }
{
    for j in 0..uses.len() {
        add_use(marks, lines, uses[j] as usize);
    }
}

/// Adds the results of an instruction that computes them.
fn add_results(marks: &mut Marks, lines: &[Line], k: usize)
    ensures { marks.new.marks ≡ closures.mark_all marks.old.marks (free.computed_in (slice_get lines.now k)) }
{
    match lines.get(k) {
        Some(Line::Step(instr)) => match instr.op {
            Op::Nondet => (),
            _ => marks.add_all(instr.outs.as_slice()),
        },
        _ => (),
    }
}

/// Adds the results of used instructions that compute them.
fn add_computed(marks: &mut Marks, lines: &[Line], uses: &[u32])
    ensures { marks.new.marks ≡ closures.mark_all marks.old.marks (free.computed_variables lines.now uses.now) }
{
    for j in 0..uses.len() {
        add_results(marks, lines, uses[j] as usize);
    }
}

/// Adds the variables of bits.
fn add_bits(marks: &mut Marks, bits: &[BitLit])
    ensures { marks.new.marks ≡ closures.mark_all marks.old.marks (free.bit_variables bits.now) }
{
    for j in 0..bits.len() {
        marks.add(bits[j].var);
    }
}

/// Adds the variables that a hypothesis names.
fn add_hyp(marks: &mut Marks, lines: &[Line], lemmas: &[Numbered], hyp: &Hyp)
    ensures { marks.new.marks ≡ closures.mark_all marks.old.marks (free.hyp_variables lines.now lemmas.now hyp.now) }
{
    match hyp {
        Hyp::Line(k) => add_read(marks, lines, *k as usize),
        Hyp::Lemma(number) => match lemma_of(lemmas, *number) {
            Some(lemma) => add_bits(marks, lemma.clause.as_slice()),
            None => (),
        },
    }
}

/// Adds the variables that hypotheses name.
fn add_hyps(marks: &mut Marks, lines: &[Line], lemmas: &[Numbered], hyps: &[Hyp])
    ensures { marks.new.marks ≡ closures.mark_all marks.old.marks (flat_map (free.hyp_variables lines.now lemmas.now) hyps.now) }
{
    for j in 0..hyps.len() {
        add_hyp(marks, lines, lemmas, &hyps[j]);
    }
}

/// Adds the variables that a claim names.
fn add_claim(marks: &mut Marks, lines: &[Line], claim: &Claim)
    ensures { marks.new.marks ≡ closures.mark_all marks.old.marks (free.claim_variables lines.now claim.now) }
{
    match claim {
        Claim::Goal(goal) => add_read(marks, lines, goal_place(lines, *goal)),
        Claim::Lemma(lemma) => add_bits(marks, lemma.clause.as_slice()),
    }
}
