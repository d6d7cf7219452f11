// Words that are made of the literals of others, or of known bits, without a gate.

ghost use Rattle.std.specs.Prelude.{◌≡◌, ◌+◌, ◌≤◌, ◌-◌, ◌^◌, ◌==◌, ◌++◌, pos, unsigned_abs, Bool, List, IfOk, OnOk, length, take, drop, replicate, map};
ghost use Rattle.std.specs.Int.{int_div_euclid, int_rem_euclid};
ghost use Rattle.tcl_cnf.specs.Literal.{neg};
ghost use Rattle.tcl_bits.specs.Value.{number_bits};
ghost use Rattle.tcl_bits.specs.Circuit.{flipped_bits, extended_bits, shifted_bits};
ghost use Rattle.tcl_gates.specs.declared.gate.Gate.{Gate};
ghost use Rattle.tcl_gates.specs.Meaning.{word_bits, AreWithin};
ghost use Rattle.tcl_circuits.specs.Circuits.{last_lit, fill_lit, extended, shifted, constant_lit, constant};

use crate::lits::{Lits, not};
use std::alloc::{AllocError, Global};
use tcl_cnf::Lit;

/// The literals below a bit: the lowest `count`, or all where there are fewer.
pub fn low_part(alloc: Global, a: &Lits, count: usize) -> Result<Lits, AllocError>
    ensures { IfOk result (λ word. word ≡ take count a.now) }
{
    Ok(Lits::from_vec(Vec::from_slice(alloc, &a.as_slice()[..count.min(a.len())])?))
}

/// The literals from a bit on: all but the lowest `count`, or none where there are fewer.
pub fn high_part(alloc: Global, a: &Lits, count: usize) -> Result<Lits, AllocError>
    ensures { IfOk result (λ word. word ≡ drop count a.now) }
{
    Ok(Lits::from_vec(Vec::from_slice(alloc, &a.as_slice()[count.min(a.len())..])?))
}

/// Copies of a literal.
pub(crate) fn copies(alloc: Global, lit: Lit, count: usize) -> Result<Lits, AllocError>
    ensures { IfOk result (λ word. word ≡ replicate count lit) }
{
    let mut word = Lits::new(alloc);
    for k in 0..count {
        word.push(lit)?;
    }
    Ok(word)
}

/// Every bit of a word negated.
pub fn negated_word(alloc: Global, a: &Lits) -> Result<Lits, AllocError>
    ensures word { IfOk result (λ word. word ≡ map neg a.now) }
    ensures value { IfOk result (λ word. (gates : List Gate) (free : List Bool) → AreWithin (length gates) a.now
        → word_bits gates free word ≡ flipped_bits (word_bits gates free a.now)) }
{
    let mut word = Lits::new(alloc);
    for k in 0..a.len() {
        word.push(not(*a.at(k)))?;
    }
    Ok(word)
}

/// Puts literals behind others.
pub(crate) fn append(a: &mut Lits, b: &Lits) -> Result<(), AllocError>
    ensures { OnOk result (a.new ≡ a.old ++ b.now) }
{
    for k in 0..b.len() {
        a.push(*b.at(k))?;
    }
    Ok(())
}

/// A word of the bits of two: the first has the lower ones.
pub fn join(alloc: Global, low: &Lits, high: &Lits) -> Result<Lits, AllocError>
    ensures { IfOk result (λ word. word ≡ low.now ++ high.now) }
{
    let mut word = low_part(alloc, low, low.len())?;
    append(&mut word, high)?;
    Ok(word)
}

/// The last literal, or false where there is none.
pub(crate) fn last_of(a: &Lits) -> Lit
    ensures { result ≡ last_lit 1 a.now }
{
    let mut last = Lit::from_number(1);
    for k in 0..a.len() {
        last = *a.at(k);
    }
    last
}

/// The bit that a word is extended by: its highest where it is signed, and else false.
fn fill_of(a: &Lits, signed: bool) -> Lit
    ensures { result ≡ fill_lit signed a.now }
{
    if signed {
        last_of(a)
    } else {
        Lit::from_number(1)
    }
}

/// A word at another width: its low bits, and where the width is greater its highest bit if it is signed, else false.
#[tactic(auto, using(crate::proofs::Values::extended_value), unfolding(crate::specs::Circuits::extended))]
pub fn extend(alloc: Global, a: &Lits, signed: bool, width: u32) -> Result<Lits, AllocError>
    ensures word { IfOk result (λ word. word ≡ extended signed width a.now) }
    ensures value { IfOk result (λ word. (gates : List Gate) (free : List Bool) → AreWithin (length gates) a.now
        → word_bits gates free word ≡ extended_bits signed width (word_bits gates free a.now)) }
{
    let width = width as usize;
    let mut word = low_part(alloc, a, width)?;
    let fill = fill_of(a, signed);
    let rest = copies(alloc, fill, width.saturating_sub(a.len()))?;
    append(&mut word, &rest)?;
    Ok(word)
}

/// A word shifted up by `count` bits, at most as many as it has: false bits come in below, and the highest are lost.
#[tactic(auto, using(crate::proofs::Values::shifted_value), unfolding(crate::specs::Circuits::shifted))]
pub fn shift(alloc: Global, a: &Lits, count: u32) -> Result<Lits, AllocError>
    ensures word { IfOk result (λ word. word ≡ shifted count a.now) }
    ensures value { IfOk result (λ word. (gates : List Gate) (free : List Bool) → AreWithin (length gates) a.now
        → word_bits gates free word ≡ shifted_bits count (word_bits gates free a.now)) }
{
    let count = count as usize;
    let mut word = copies(alloc, Lit::from_number(1), count)?;
    let rest = low_part(alloc, a, a.len().saturating_sub(count))?;
    append(&mut word, &rest)?;
    Ok(word)
}

/// The word of an integer: its lowest `width` bits in two's complement, each of them literal 0, which is true, or its
/// negation.
#[tactic(auto, using(crate::proofs::Values::constant_value))]
pub fn constant(alloc: Global, width: u32, n: i128) -> Result<Lits, AllocError>
    ensures word { IfOk result (λ word. word ≡ constant width n) }
    ensures value { IfOk result (λ word. (gates : List Gate) (free : List Bool) → word_bits gates free word
        ≡ number_bits width (unsigned_abs (int_rem_euclid n (pos (2 ^ width))))) }
{
    let mut word = Lits::new(alloc);
    add_bits(&mut word, width, n)?;
    Ok(word)
}

/// Puts the lowest `width` bits of an integer behind a word.
#[tactic(auto, using(crate::proofs::Constants::bits_none))]
fn add_bits(word: &mut Lits, width: u32, n: i128) -> Result<(), AllocError>
    ensures { OnOk result (word.new ≡ word.old ++ constant width n) }
{
    if width == 0 {
        return Ok(());
    }
    let lowest = known(is_odd(n));
    word.push(lowest)?;
    add_bits(word, width - 1, half(n))?;
    Ok(())
}

/// The literal of a bit that is known.
fn known(bit: bool) -> Lit
    ensures { result ≡ constant_lit bit }
{
    Lit::from_number(if bit { 0 } else { 1 })
}

/// The lowest bit of an integer in two's complement.
fn is_odd(n: i128) -> bool
    ensures { result ≡ (unsigned_abs (int_rem_euclid n (pos 2)) == 1) }
{
    n.rem_euclid(2).unsigned_abs() == 1
}

/// The integer of the bits above the lowest.
fn half(n: i128) -> i128
    ensures { result ≡ int_div_euclid n (pos 2) }
{
    n.div_euclid(2)
}
