// Words met bit by bit.

ghost use Rattle.std.specs.Prelude.{◌≡◌, ◌/◌, ◌≤◌, ◌&&◌, ◌||◌, Bool, List, IfOk, OnOk, OnErr, length};
ghost use Rattle.tcl_bits.specs.Circuit.{xor_bit, met_bits, chosen_bits};
ghost use Rattle.tcl_gates.specs.Meaning.{lit_bit, word_bits, AreWithin, IsPart};
ghost use Rattle.tcl_circuits.specs.Circuits.{bitwise_and, bitwise_or, bitwise_xor, choose};

use crate::links::Meet;
use crate::lits::Lits;
use crate::meeting::meet;
use crate::parts::negated_word;
use std::alloc::{AllocError, Global};
use tcl_cnf::Lit;
use tcl_gates::Gates;

/// Both of two words of one length, bit by bit. Of words of two lengths it takes as many bits as the shorter one has.
///
/// After an `Err`, which is that memory has run out, the gates are those before with a part of the circuit behind them.
#[tactic(auto, unfolding(crate::specs::Circuits::bitwise_and))]
pub fn bitwise_and(alloc: Global, gates: &mut Gates, a: &Lits, b: &Lits) -> Result<Lits, AllocError>
    requires first { AreWithin (length gates.old) a.now }
    requires second { AreWithin (length gates.old) b.now }
    ensures made { OnOk result (gates.new ≡ (bitwise_and gates.old a.now b.now).gates) }
    ensures word { IfOk result (λ word. word ≡ (bitwise_and gates.old a.now b.now).word) }
    ensures value { IfOk result (λ word. (free : List Bool) → word_bits gates.new free word
        ≡ met_bits (λ x y. x && y) (word_bits gates.old free a.now) (word_bits gates.old free b.now)) }
    ensures within { IfOk result (λ word. AreWithin (length gates.new) word) }
    ensures longer { OnOk result (length gates.old ≤ length gates.new) }
    ensures part { OnErr result (IsPart gates.old gates.new (bitwise_and gates.old a.now b.now).gates) }
{
    let word = meet(alloc, gates, &Meet::And, a, b)?;
    Ok(word)
}

/// Exactly one of two words of one length, bit by bit. Of words of two lengths it takes as many bits as the shorter one
/// has.
///
/// After an `Err`, which is that memory has run out, the gates are those before with a part of the circuit behind them.
#[tactic(auto, unfolding(crate::specs::Circuits::bitwise_xor))]
pub fn bitwise_xor(alloc: Global, gates: &mut Gates, a: &Lits, b: &Lits) -> Result<Lits, AllocError>
    requires first { AreWithin (length gates.old) a.now }
    requires second { AreWithin (length gates.old) b.now }
    ensures made { OnOk result (gates.new ≡ (bitwise_xor gates.old a.now b.now).gates) }
    ensures word { IfOk result (λ word. word ≡ (bitwise_xor gates.old a.now b.now).word) }
    ensures value { IfOk result (λ word. (free : List Bool) → word_bits gates.new free word
        ≡ met_bits xor_bit (word_bits gates.old free a.now) (word_bits gates.old free b.now)) }
    ensures within { IfOk result (λ word. AreWithin (length gates.new) word) }
    ensures longer { OnOk result (length gates.old ≤ length gates.new) }
    ensures part { OnErr result (IsPart gates.old gates.new (bitwise_xor gates.old a.now b.now).gates) }
{
    let word = meet(alloc, gates, &Meet::Xor, a, b)?;
    Ok(word)
}

/// Either of two words of one length, bit by bit: the negation of neither. Of words of two lengths it takes as many bits
/// as the shorter one has.
///
/// After an `Err`, which is that memory has run out, the gates are those before with a part of the circuit behind them.
#[tactic(auto, using(tcl_gates::proofs::Shown::part_none, tcl_gates::proofs::Shown::part_all, crate::proofs::Loops::meet_begins, tcl_gates::proofs::Shown::within_negated, crate::proofs::Values::or_word), unfolding(crate::specs::Circuits::bitwise_or))]
pub fn bitwise_or(alloc: Global, gates: &mut Gates, a: &Lits, b: &Lits) -> Result<Lits, AllocError>
    requires first { AreWithin (length gates.old) a.now }
    requires second { AreWithin (length gates.old) b.now }
    ensures made { OnOk result (gates.new ≡ (bitwise_or gates.old a.now b.now).gates) }
    ensures word { IfOk result (λ word. word ≡ (bitwise_or gates.old a.now b.now).word) }
    ensures value { IfOk result (λ word. (free : List Bool) → word_bits gates.new free word
        ≡ met_bits (λ x y. x || y) (word_bits gates.old free a.now) (word_bits gates.old free b.now)) }
    ensures within { IfOk result (λ word. AreWithin (length gates.new) word) }
    ensures longer { OnOk result (length gates.old ≤ length gates.new) }
    ensures part { OnErr result (IsPart gates.old gates.new (bitwise_or gates.old a.now b.now).gates) }
{
    let x = negated_word(alloc, a)?;
    let y = negated_word(alloc, b)?;
    let neither = meet(alloc, gates, &Meet::And, &x, &y)?;
    let word = negated_word(alloc, &neither)?;
    Ok(word)
}

/// The first of two words of one length where the literal is true, and else the second: a choice for each bit. Of words
/// of two lengths it takes as many bits as the shorter one has.
///
/// After an `Err`, which is that memory has run out, the gates are those before with a part of the circuit behind them.
#[tactic(auto, unfolding(crate::specs::Circuits::choose))]
pub fn choose(
    alloc: Global,
    gates: &mut Gates,
    c: Lit,
    a: &Lits,
    b: &Lits,
) -> Result<Lits, AllocError>
    requires chosen { c / 2 ≤ length gates.old }
    requires first { AreWithin (length gates.old) a.now }
    requires second { AreWithin (length gates.old) b.now }
    ensures made { OnOk result (gates.new ≡ (choose gates.old c a.now b.now).gates) }
    ensures word { IfOk result (λ word. word ≡ (choose gates.old c a.now b.now).word) }
    ensures value { IfOk result (λ word. (free : List Bool) → word_bits gates.new free word
        ≡ chosen_bits (lit_bit gates.old free c) (word_bits gates.old free a.now) (word_bits gates.old free b.now)) }
    ensures within { IfOk result (λ word. AreWithin (length gates.new) word) }
    ensures longer { OnOk result (length gates.old ≤ length gates.new) }
    ensures part { OnErr result (IsPart gates.old gates.new (choose gates.old c a.now b.now).gates) }
{
    let word = meet(alloc, gates, &Meet::Choice(c), a, b)?;
    Ok(word)
}
