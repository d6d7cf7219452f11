// Bits of variables: the clauses that say that all have their values, that none has, or that one has.

ghost use Rattle.std.specs.Prelude.{◌≡◌, [], map, slice_index_or, IfOk, OnOk};
ghost use Rattle.tcl_blast.specs.Blasted.{bit_lit, with_clause, with_bits, without_bits};

use crate::blasted::Blasted;
use std::alloc::{AllocError, Global};
use tcl_circuits::Lits;
use tcl_cnf::Lit;
use tcl_goals::BitLit;
use tcl_list::Listing;
use tcl_words::Words;

/// Appends, for each bit, the clause that it has its value.
pub(crate) fn add_bits(
    alloc: Global,
    blasted: &mut Blasted,
    bits: &[BitLit],
) -> Result<(), AllocError>
    ensures { OnOk result (blasted.new ≡ with_bits blasted.old bits.now) }
{
    for bit in bits {
        let lit = bit_lit(&blasted.words, bit);
        blasted.add_unit(alloc, lit)?;
    }
    Ok(())
}

/// Appends, for each bit, the clause that it has not its value.
pub(crate) fn deny_bits(
    alloc: Global,
    blasted: &mut Blasted,
    bits: &[BitLit],
) -> Result<(), AllocError>
    ensures { OnOk result (blasted.new ≡ without_bits blasted.old bits.now) }
{
    for bit in bits {
        let lit = bit_lit(&blasted.words, bit).negation();
        blasted.add_unit(alloc, lit)?;
    }
    Ok(())
}

/// Appends the clause that one of the bits has its value.
pub(crate) fn add_choice(
    alloc: Global,
    blasted: &mut Blasted,
    bits: &[BitLit],
) -> Result<(), AllocError>
    ensures { OnOk result (blasted.new ≡ with_clause blasted.old (map (bit_lit blasted.old.words) bits.now)) }
{
    let lits = lits_of(alloc, &blasted.words, bits)?;
    blasted.add_clause(alloc, lits.as_slice())
}

/// The literals of bits.
fn lits_of(alloc: Global, words: &Words, bits: &[BitLit]) -> Result<Lits, AllocError>
    ensures { IfOk result (λ lits. lits ≡ map (bit_lit words.now) bits.now) }
{
    let mut lits = Listing::new(alloc);
    for bit in bits {
        lits.push(bit_lit(words, bit))?;
    }
    Ok(lits)
}

/// The literal that a bit has its value; of a bit that no variable has it says that false has it.
fn bit_lit(words: &Words, bit: &BitLit) -> Lit
    ensures { result ≡ bit_lit words.now bit.now }
{
    let lit = lit_at(words, bit.var, bit.bit);
    if bit.value { lit } else { lit.negation() }
}

/// The literal of a bit; false where there is none.
fn lit_at(words: &Words, variable: u32, bit: u32) -> Lit
    ensures { result ≡ slice_index_or (slice_index_or words.now variable []) bit 1 }
{
    match words.as_slice().get(variable as usize) {
        Some(lits) => lit_of(lits, bit),
        None => Lit::from_number(1),
    }
}

/// The literal of a bit of a word; false where there is none.
fn lit_of(lits: &Lits, bit: u32) -> Lit
    ensures { result ≡ slice_index_or lits.now bit 1 }
{
    match lits.as_slice().get(bit as usize) {
        Some(lit) => *lit,
        None => Lit::from_number(1),
    }
}
