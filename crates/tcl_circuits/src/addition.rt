// The adder, and the difference and the negation, which are adders of negated bits.

ghost use Rattle.std.specs.Prelude.{◌≡◌, ◌/◌, ◌≤◌, Bool, List, IfOk, OnOk, OnErr, length, []};
ghost use Rattle.tcl_bits.specs.Circuit.{sum_bits, carry_out, difference_bits, borrow_out, negation_bits};
ghost use Rattle.tcl_gates.specs.Meaning.{lit_bit, word_bits, AreWithin, IsPart};
ghost use Rattle.tcl_circuits.specs.Circuits.{carried, add_lit, adder, difference, negation};

use crate::lits::{Lits, not};
use crate::parts::{copies, negated_word};
use std::alloc::{AllocError, Global};
use tcl_cnf::Lit;
use tcl_gates::{Gate, Gates};

/// What an adder gives: the bits of the sum, and the carry above them.
#[derive(Drop)]
pub struct Sum {
    pub word: Lits,
    pub carry: Lit,
}

/// One full adder: puts the sum's bit behind the word, and returns the carry.
fn full_adder(
    gates: &mut Gates,
    word: &mut Lits,
    x: Lit,
    y: Lit,
    carry: Lit,
) -> Result<Lit, AllocError>
    requires first { x / 2 ≤ length gates.old }
    requires second { y / 2 ≤ length gates.old }
    requires third { carry / 2 ≤ length gates.old }
    ensures made { OnOk result (gates.new ≡ (add_lit (carried gates.old word.old carry) x y).gates) }
    ensures word { OnOk result (word.new ≡ (add_lit (carried gates.old word.old carry) x y).word) }
    ensures carry { IfOk result (λ next. next ≡ (add_lit (carried gates.old word.old carry) x y).carry) }
    ensures within { IfOk result (λ next. next / 2 ≤ length gates.new) }
    ensures part { OnErr result (IsPart gates.old gates.new (add_lit (carried gates.old word.old carry) x y).gates) }
{
    let half = gates.push(Gate::Xor(x, y))?;
    let sum = gates.push(Gate::Xor(half, carry))?;
    let next = gates.push(Gate::Major(x, y, carry))?;
    word.push(sum)?;
    Ok(next)
}

/// The sum of two words of one length and a carry, by a chain of full adders from the lowest bit up. Of words of two
/// lengths it takes as many bits as the shorter one has.
///
/// After an `Err`, which is that memory has run out, the gates are those before with a part of the circuit behind them.
pub fn adder(
    alloc: Global,
    gates: &mut Gates,
    a: &Lits,
    b: &Lits,
    carry: Lit,
) -> Result<Sum, AllocError>
    requires first { AreWithin (length gates.old) a.now }
    requires second { AreWithin (length gates.old) b.now }
    requires third { carry / 2 ≤ length gates.old }
    ensures made { OnOk result (gates.new ≡ (adder gates.old a.now b.now carry).gates) }
    ensures word { IfOk result (λ sum. sum.word ≡ (adder gates.old a.now b.now carry).word) }
    ensures carry { IfOk result (λ sum. sum.carry ≡ (adder gates.old a.now b.now carry).carry) }
    ensures word_value { IfOk result (λ sum. (free : List Bool) → word_bits gates.new free sum.word
        ≡ sum_bits (word_bits gates.old free a.now) (word_bits gates.old free b.now) (lit_bit gates.old free carry)) }
    ensures carry_value { IfOk result (λ sum. (free : List Bool) → lit_bit gates.new free sum.carry
        ≡ carry_out (word_bits gates.old free a.now) (word_bits gates.old free b.now) (lit_bit gates.old free carry)) }
    ensures within { IfOk result (λ sum. AreWithin (length gates.new) sum.word × (sum.carry / 2 ≤ length gates.new)) }
    ensures longer { OnOk result (length gates.old ≤ length gates.new) }
    ensures part { OnErr result (IsPart gates.old gates.new (adder gates.old a.now b.now carry).gates) }
{
    let mut word = Lits::new(alloc);
    let mut next = carry;
    for k in 0..a.len().min(b.len()) {
        next = full_adder(gates, &mut word, *a.at(k), *b.at(k), next)?;
    }
    Ok(Sum { word, carry: next })
}

/// The difference of two words of one length with a borrow: the sum with the negated bits and the negated borrow. The
/// carry of what it gives is the borrow above the word, which is the adder's carry negated.
///
/// After an `Err`, which is that memory has run out, the gates are those before with a part of the circuit behind them.
#[tactic(auto, using(tcl_gates::proofs::Shown::part_none, crate::proofs::Adders::adder_begins, tcl_gates::proofs::Shown::within_negated, crate::proofs::Values::difference_word, crate::proofs::Values::difference_borrow), unfolding(crate::specs::Circuits::difference))]
pub fn difference(
    alloc: Global,
    gates: &mut Gates,
    a: &Lits,
    b: &Lits,
    borrow: Lit,
) -> Result<Sum, AllocError>
    requires first { AreWithin (length gates.old) a.now }
    requires second { AreWithin (length gates.old) b.now }
    requires third { borrow / 2 ≤ length gates.old }
    ensures made { OnOk result (gates.new ≡ (difference gates.old a.now b.now borrow).gates) }
    ensures word { IfOk result (λ sum. sum.word ≡ (difference gates.old a.now b.now borrow).word) }
    ensures carry { IfOk result (λ sum. sum.carry ≡ (difference gates.old a.now b.now borrow).carry) }
    ensures word_value { IfOk result (λ sum. (free : List Bool) → word_bits gates.new free sum.word
        ≡ difference_bits (word_bits gates.old free a.now) (word_bits gates.old free b.now) (lit_bit gates.old free borrow)) }
    ensures carry_value { IfOk result (λ sum. (free : List Bool) → lit_bit gates.new free sum.carry
        ≡ borrow_out (word_bits gates.old free a.now) (word_bits gates.old free b.now) (lit_bit gates.old free borrow)) }
    ensures within { IfOk result (λ sum. AreWithin (length gates.new) sum.word × (sum.carry / 2 ≤ length gates.new)) }
    ensures longer { OnOk result (length gates.old ≤ length gates.new) }
    ensures part { OnErr result (IsPart gates.old gates.new (difference gates.old a.now b.now borrow).gates) }
{
    let flipped = negated_word(alloc, b)?;
    let no_borrow = not(borrow);
    let sum = adder(alloc, gates, a, &flipped, no_borrow)?;
    let above = not(sum.carry);
    Ok(Sum {
        word: sum.word,
        carry: above,
    })
}

/// The negated number: the sum of zero, the negated bits and a carry.
///
/// After an `Err`, which is that memory has run out, the gates are those before with a part of the circuit behind them.
#[tactic(auto, using(tcl_gates::proofs::Shown::part_none, crate::proofs::Adders::adder_begins, tcl_gates::proofs::Shown::within_negated, tcl_gates::proofs::Shown::within_ones, crate::proofs::Values::negation_word), unfolding(crate::specs::Circuits::negation))]
pub fn negation(alloc: Global, gates: &mut Gates, a: &Lits) -> Result<Lits, AllocError>
    requires { AreWithin (length gates.old) a.now }
    ensures made { OnOk result (gates.new ≡ (negation gates.old a.now).gates) }
    ensures word { IfOk result (λ word. word ≡ (negation gates.old a.now).word) }
    ensures value { IfOk result (λ word. (free : List Bool) → word_bits gates.new free word
        ≡ negation_bits (word_bits gates.old free a.now)) }
    ensures within { IfOk result (λ word. AreWithin (length gates.new) word) }
    ensures longer { OnOk result (length gates.old ≤ length gates.new) }
    ensures part { OnErr result (IsPart gates.old gates.new (negation gates.old a.now).gates) }
{
    let zeros = copies(alloc, Lit::from_number(1), a.len())?;
    let flipped = negated_word(alloc, a)?;
    let sum = adder(alloc, gates, &zeros, &flipped, Lit::of(0))?;
    Ok(sum.word)
}
