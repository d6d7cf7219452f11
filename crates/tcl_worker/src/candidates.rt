//! The candidates for lemmas.

ghost use Rattle.std.specs.Prelude.{◌≡◌, ◌++◌, IfOk, OnOk, option_copied, slice_get};
ghost use Rattle.tcl_worker.specs.Candidates as words;

use std::alloc::{AllocError, Global};
use tcl_goals::{
    BitClause, BitLit, Claim, Cube, Fact, Hyps, Lemma, Lemmas, Numbered, Uses, fact_variables,
};
use tcl_lang::{Ssa, Variable};
use tcl_list::Listing;

/// The bits that are tried for a claim: the highest of each of its variables, by number, first with the value 0, then with the
/// value 1. The only error is that memory has run out.
#[tactic(auto, unfolding(crate::specs::Candidates::candidate_bits))]
pub(crate) fn candidate_bits(
    alloc: Global,
    ssa: &Ssa,
    claim: &Claim,
) -> Result<Listing<BitLit>, AllocError>
    ensures { IfOk result (λ bits. bits ≡ words.candidate_bits ssa.now claim.now) }
{
    let variables = claimed_variables(alloc, ssa, claim)?;
    bits_of_all(alloc, ssa.variables().as_slice(), variables.as_slice())
}

/// The variables of a claim, by number.
fn claimed_variables(alloc: Global, ssa: &Ssa, claim: &Claim) -> Result<Listing<u32>, AllocError>
    ensures { IfOk result (λ vs. vs ≡ words.claimed_variables ssa.now claim.now) }
{
    let none = Lemmas::new(alloc);
    let alone = Fact {
        claim: claim.copy()?,
        hyps: Hyps::new(alloc),
        cube: Cube::new(alloc),
        uses: Uses::new(alloc),
    };
    fact_variables(alloc, ssa, &none, &alone)
}

/// The highest bits of these variables.
#[tactic(auto, using(crate::proofs::HighestBits::bits_more), unfolding(crate::specs::Candidates::bits_of_all))]
fn bits_of_all(
    alloc: Global,
    variables: &[Variable],
    chosen: &[u32],
) -> Result<Listing<BitLit>, AllocError>
    ensures { IfOk result (λ bits. bits ≡ words.bits_of_all variables.now chosen.now) }
{
    let mut bits = Listing::new(alloc);
    for k in 0..chosen.len() {
        add_bits_of(&mut bits, variables, chosen[k])?;
    }
    Ok(bits)
}

/// Adds the highest bit of the variable of this number.
fn add_bits_of(
    bits: &mut Listing<BitLit>,
    variables: &[Variable],
    var: u32,
) -> Result<(), AllocError>
    ensures { OnOk result (bits.new ≡ bits.old ++ words.highest_bits var (slice_get variables.now var)) }
{
    add_highest(bits, var, variables.get(var as usize))
}

/// Adds the highest bit of a variable, if there is one, with both values.
fn add_highest(
    bits: &mut Listing<BitLit>,
    var: u32,
    variable: Option<&Variable>,
) -> Result<(), AllocError>
    ensures { OnOk result (bits.new ≡ bits.old ++ words.highest_bits var (option_copied variable.entry)) }
{
    match variable {
        None => Ok(()),
        Some(variable) => {
            let bit = variable.ty.width.saturating_sub(1);
            bits.push(BitLit {
                var,
                bit,
                value: false,
            })?;
            bits.push(BitLit {
                var,
                bit,
                value: true,
            })
        }
    }
}

/// Whether a lemma of the list has this one bit as its clause.
pub(crate) fn is_known(lemmas: &[Numbered], bit: BitLit) -> bool
    ensures { result ≡ words.is_known lemmas.now bit }
{
    lemmas
        .iter()
        .any(|lemma| is_unit(bit, lemma.lemma.clause.as_slice()))
}

/// Whether these bits are this one alone.
fn is_unit(bit: BitLit, clause: &[BitLit]) -> bool
    ensures { result ≡ words.is_unit bit clause.now }
{
    match clause {
        [own] => is_same(*own, bit),
        _ => false,
    }
}

/// Whether this is the same bit with the same value.
fn is_same(a: BitLit, b: BitLit) -> bool
    ensures { result ≡ words.same_lit a b }
{
    a.var == b.var && (a.bit == b.bit && a.value == b.value)
}

/// The fact of a candidate: the lemma of the claim's goal with this one bit as its clause, from the hypotheses and uses of a
/// fact, with an empty cube. The only error is that memory has run out.
pub(crate) fn candidate_fact(alloc: Global, fact: &Fact, bit: BitLit) -> Result<Fact, AllocError>
    ensures { IfOk result (λ candidate. candidate ≡ words.candidate_fact fact.now bit) }
{
    let mut clause = BitClause::new(alloc);
    clause.push(bit)?;
    let lemma = Lemma {
        level: level_of(&fact.claim),
        clause,
    };
    Ok(Fact {
        claim: Claim::Lemma(lemma),
        hyps: fact.hyps.copy()?,
        cube: Cube::new(alloc),
        uses: fact.uses.copy()?,
    })
}

/// The level of a lemma that is made for a claim.
fn level_of(claim: &Claim) -> u32
    ensures { result ≡ words.level_of claim.now }
{
    match claim {
        Claim::Goal(goal) => *goal,
        Claim::Lemma(lemma) => lemma.level,
    }
}
