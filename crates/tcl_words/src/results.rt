// The words of the results of each instruction.

ghost use Rattle.std.specs.Prelude.{◌≡◌, ◌+◌, ◌-◌, ◌/◌, ◌<◌, ◌≤◌, IfOk, OnOk, OnErr, length, take, drop, map, false, true, List, [], ◌∷◌, ◌++◌};
ghost use Rattle.tcl_cnf.specs.Literal.{neg};
ghost use Rattle.tcl_gates.specs.Meaning.{AreWithin, IsPart};
ghost use Rattle.tcl_circuits.specs.Circuits.{product, choose, bitwise_and, bitwise_or, bitwise_xor, extended, shifted};
ghost use Rattle.tcl_words.specs.Chains as chains;
ghost use Rattle.tcl_words.specs.Instructions.{sum_alone, carry_first, one_word, high_first, wide_product, first_lit, result_lits};
ghost use Rattle.tcl_words.specs.Listed.{listed};

use crate::chain::{Chain, chained};
use std::alloc::{AllocError, Global};
use tcl_circuits::{
    Lits, bitwise_and, bitwise_or, bitwise_xor, choose, extend, high_part, join, low_part,
    negated_word, product, shift,
};
use tcl_cnf::Lit;
use tcl_gates::Gates;
use tcl_lang::{Op, Ty};

/// The words of the results of an instruction, from left to right.
#[derive(Drop)]
pub(crate) enum ResultWords {
    One(Lits),
    Two(Lits, Lits),
}

/// A word of one literal.
fn bit_word(alloc: Global, lit: Lit) -> Result<Lits, AllocError>
    ensures { IfOk result (λ word. word ≡ lit ∷ []) }
{
    let mut word = Lits::new(alloc);
    word.push(lit)?;
    Ok(word)
}

/// The literal of a word of one bit.
pub(crate) fn first_of(a: &Lits) -> Lit
    ensures { result ≡ first_lit a.now }
{
    if a.is_empty() {
        Lit::from_number(1)
    } else {
        *a.at(0)
    }
}

/// The sum or the difference of two words.
fn chain_alone(
    alloc: Global,
    gates: &mut Gates,
    chain: Chain,
    a: &Lits,
    b: &Lits,
    carry: Lit,
) -> Result<ResultWords, AllocError>
    requires first { AreWithin (length gates.old) a.now }
    requires second { AreWithin (length gates.old) b.now }
    requires third { carry / 2 ≤ length gates.old }
    ensures made { OnOk result (gates.new ≡ (sum_alone (chains.chained chain gates.old a.now b.now carry)).gates) }
    ensures words { IfOk result (λ words. listed words ≡ (sum_alone (chains.chained chain gates.old a.now b.now carry)).words) }
    ensures part { OnErr result (IsPart gates.old gates.new (sum_alone (chains.chained chain gates.old a.now b.now carry)).gates) }
{
    let sum = chained(alloc, gates, chain, a, b, carry)?;
    Ok(ResultWords::One(sum.word))
}

/// The carry out of such a sum or the borrow out of such a difference, and the word.
#[tactic(auto, using(tcl_gates::proofs::Shown::part_all, crate::proofs::Parts::chained_begins))]
fn carry_and_chain(
    alloc: Global,
    gates: &mut Gates,
    chain: Chain,
    a: &Lits,
    b: &Lits,
    carry: Lit,
) -> Result<ResultWords, AllocError>
    requires first { AreWithin (length gates.old) a.now }
    requires second { AreWithin (length gates.old) b.now }
    requires third { carry / 2 ≤ length gates.old }
    ensures made { OnOk result (gates.new ≡ (carry_first (chains.chained chain gates.old a.now b.now carry)).gates) }
    ensures words { IfOk result (λ words. listed words ≡ (carry_first (chains.chained chain gates.old a.now b.now carry)).words) }
    ensures part { OnErr result (IsPart gates.old gates.new (carry_first (chains.chained chain gates.old a.now b.now carry)).gates) }
{
    let sum = chained(alloc, gates, chain, a, b, carry)?;
    let high = bit_word(alloc, sum.carry)?;
    Ok(ResultWords::Two(high, sum.word))
}

/// The product of two words at their width.
fn plain_product(
    alloc: Global,
    gates: &mut Gates,
    a: &Lits,
    b: &Lits,
) -> Result<ResultWords, AllocError>
    requires first { AreWithin (length gates.old) a.now }
    requires second { AreWithin (length gates.old) b.now }
    ensures made { OnOk result (gates.new ≡ (one_word (product gates.old a.now b.now)).gates) }
    ensures words { IfOk result (λ words. listed words ≡ (one_word (product gates.old a.now b.now)).words) }
    ensures part { OnErr result (IsPart gates.old gates.new (one_word (product gates.old a.now b.now)).gates) }
{
    let word = product(alloc, gates, a, b)?;
    Ok(ResultWords::One(word))
}

/// The product of two words at twice their width.
#[tactic(auto, using(tcl_gates::proofs::Shown::part_none, tcl_circuits::proofs::Rows::product_begins, tcl_circuits::proofs::Within::within_extended))]
pub(crate) fn wide_product(
    alloc: Global,
    gates: &mut Gates,
    signed: bool,
    a: &Lits,
    b: &Lits,
) -> Result<Lits, AllocError>
    requires first { AreWithin (length gates.old) a.now }
    requires second { AreWithin (length gates.old) b.now }
    requires narrow { length a.now ≤ 64 }
    ensures made { OnOk result (gates.new ≡ (wide_product gates.old signed a.now b.now).gates) }
    ensures word { IfOk result (λ word. word ≡ (wide_product gates.old signed a.now b.now).word) }
    ensures within { IfOk result (λ word. AreWithin (length gates.new) word) }
    ensures longer { OnOk result (length gates.old ≤ length gates.new) }
    ensures part { OnErr result (IsPart gates.old gates.new (wide_product gates.old signed a.now b.now).gates) }
{
    let wide = 2 * a.len() as u32;
    let x = extend(alloc, a, signed, wide)?;
    let y = extend(alloc, b, signed, wide)?;
    let word = product(alloc, gates, &x, &y)?;
    Ok(word)
}

/// The product of two words at twice their width, as one word.
fn whole_product(
    alloc: Global,
    gates: &mut Gates,
    signed: bool,
    a: &Lits,
    b: &Lits,
) -> Result<ResultWords, AllocError>
    requires first { AreWithin (length gates.old) a.now }
    requires second { AreWithin (length gates.old) b.now }
    requires narrow { length a.now ≤ 64 }
    ensures made { OnOk result (gates.new ≡ (one_word (wide_product gates.old signed a.now b.now)).gates) }
    ensures words { IfOk result (λ words. listed words ≡ (one_word (wide_product gates.old signed a.now b.now)).words) }
    ensures part { OnErr result (IsPart gates.old gates.new (one_word (wide_product gates.old signed a.now b.now)).gates) }
{
    let word = wide_product(alloc, gates, signed, a, b)?;
    Ok(ResultWords::One(word))
}

/// The high and the low part of the product at twice the width.
#[tactic(auto, using(tcl_gates::proofs::Shown::part_all, crate::proofs::Parts::wide_begins))]
fn product_parts(
    alloc: Global,
    gates: &mut Gates,
    ty: Ty,
    a: &Lits,
    b: &Lits,
) -> Result<ResultWords, AllocError>
    requires first { AreWithin (length gates.old) a.now }
    requires second { AreWithin (length gates.old) b.now }
    requires narrow { length a.now ≤ 64 }
    ensures made { OnOk result (gates.new ≡ (high_first ty.width (wide_product gates.old ty.signed a.now b.now)).gates) }
    ensures words { IfOk result (λ words. listed words ≡ (high_first ty.width (wide_product gates.old ty.signed a.now b.now)).words) }
    ensures part { OnErr result (IsPart gates.old gates.new (high_first ty.width (wide_product gates.old ty.signed a.now b.now)).gates) }
{
    let whole = wide_product(alloc, gates, ty.signed, a, b)?;
    let high = high_part(alloc, &whole, ty.width as usize)?;
    let low = low_part(alloc, &whole, ty.width as usize)?;
    Ok(ResultWords::Two(high, low))
}

/// The part of a word from a bit on, extended, and its low bits with zeros above them.
fn split_word(alloc: Global, ty: Ty, amount: u32, a: &Lits) -> Result<ResultWords, AllocError>
    ensures { IfOk result (λ words. listed words ≡ extended ty.signed ty.width (drop amount a.now) ∷ extended false ty.width (take amount a.now) ∷ []) }
{
    let high = high_part(alloc, a, amount as usize)?;
    let low = low_part(alloc, a, amount as usize)?;
    let high = extend(alloc, &high, ty.signed, ty.width)?;
    let low = extend(alloc, &low, false, ty.width)?;
    Ok(ResultWords::Two(high, low))
}

/// The same word.
#[tactic(auto, using(tcl_circuits::proofs::Within::take_own))]
fn same_word(alloc: Global, a: &Lits) -> Result<ResultWords, AllocError>
    ensures { IfOk result (λ words. listed words ≡ a.now ∷ []) }
{
    let word = low_part(alloc, a, a.len())?;
    Ok(ResultWords::One(word))
}

/// The word shifted up within its width.
fn shifted_word(alloc: Global, a: &Lits, amount: u32) -> Result<ResultWords, AllocError>
    ensures { IfOk result (λ words. listed words ≡ shifted amount a.now ∷ []) }
{
    let word = shift(alloc, a, amount)?;
    Ok(ResultWords::One(word))
}

/// Two words in one, the second one below.
fn joined_word(alloc: Global, high: &Lits, low: &Lits) -> Result<ResultWords, AllocError>
    ensures { IfOk result (λ words. listed words ≡ (low.now ++ high.now) ∷ []) }
{
    let word = join(alloc, low, high)?;
    Ok(ResultWords::One(word))
}

/// The word at another width.
fn extended_word(
    alloc: Global,
    a: &Lits,
    signed: bool,
    width: u32,
) -> Result<ResultWords, AllocError>
    ensures { IfOk result (λ words. listed words ≡ extended signed width a.now ∷ []) }
{
    let word = extend(alloc, a, signed, width)?;
    Ok(ResultWords::One(word))
}

/// Every bit flipped.
fn flipped_word(alloc: Global, a: &Lits) -> Result<ResultWords, AllocError>
    ensures { IfOk result (λ words. listed words ≡ map neg a.now ∷ []) }
{
    let word = negated_word(alloc, a)?;
    Ok(ResultWords::One(word))
}

/// The first of two words where the literal is true, and else the second.
fn chosen_word(
    alloc: Global,
    gates: &mut Gates,
    c: Lit,
    a: &Lits,
    b: &Lits,
) -> Result<ResultWords, AllocError>
    requires chosen { c / 2 ≤ length gates.old }
    requires first { AreWithin (length gates.old) a.now }
    requires second { AreWithin (length gates.old) b.now }
    ensures made { OnOk result (gates.new ≡ (one_word (choose gates.old c a.now b.now)).gates) }
    ensures words { IfOk result (λ words. listed words ≡ (one_word (choose gates.old c a.now b.now)).words) }
    ensures part { OnErr result (IsPart gates.old gates.new (one_word (choose gates.old c a.now b.now)).gates) }
{
    let word = choose(alloc, gates, c, a, b)?;
    Ok(ResultWords::One(word))
}

/// Both of two words, bit by bit.
fn and_word(alloc: Global, gates: &mut Gates, a: &Lits, b: &Lits) -> Result<ResultWords, AllocError>
    requires first { AreWithin (length gates.old) a.now }
    requires second { AreWithin (length gates.old) b.now }
    ensures made { OnOk result (gates.new ≡ (one_word (bitwise_and gates.old a.now b.now)).gates) }
    ensures words { IfOk result (λ words. listed words ≡ (one_word (bitwise_and gates.old a.now b.now)).words) }
    ensures part { OnErr result (IsPart gates.old gates.new (one_word (bitwise_and gates.old a.now b.now)).gates) }
{
    let word = bitwise_and(alloc, gates, a, b)?;
    Ok(ResultWords::One(word))
}

/// Either of two words, bit by bit.
fn or_word(alloc: Global, gates: &mut Gates, a: &Lits, b: &Lits) -> Result<ResultWords, AllocError>
    requires first { AreWithin (length gates.old) a.now }
    requires second { AreWithin (length gates.old) b.now }
    ensures made { OnOk result (gates.new ≡ (one_word (bitwise_or gates.old a.now b.now)).gates) }
    ensures words { IfOk result (λ words. listed words ≡ (one_word (bitwise_or gates.old a.now b.now)).words) }
    ensures part { OnErr result (IsPart gates.old gates.new (one_word (bitwise_or gates.old a.now b.now)).gates) }
{
    let word = bitwise_or(alloc, gates, a, b)?;
    Ok(ResultWords::One(word))
}

/// Exactly one of two words, bit by bit.
fn xor_word(alloc: Global, gates: &mut Gates, a: &Lits, b: &Lits) -> Result<ResultWords, AllocError>
    requires first { AreWithin (length gates.old) a.now }
    requires second { AreWithin (length gates.old) b.now }
    ensures made { OnOk result (gates.new ≡ (one_word (bitwise_xor gates.old a.now b.now)).gates) }
    ensures words { IfOk result (λ words. listed words ≡ (one_word (bitwise_xor gates.old a.now b.now)).words) }
    ensures part { OnErr result (IsPart gates.old gates.new (one_word (bitwise_xor gates.old a.now b.now)).gates) }
{
    let word = bitwise_xor(alloc, gates, a, b)?;
    Ok(ResultWords::One(word))
}

/// The results of an instruction at the type `ty`, where `from` is the type of its first operand, by its row.
#[tactic(auto, using(tcl_gates::proofs::Shown::part_none, tcl_gates::proofs::Shown::begins_same, crate::proofs::Parts::within_first))]
pub(crate) fn result_words(
    alloc: Global,
    gates: &mut Gates,
    op: Op,
    ty: Ty,
    from: Ty,
    amount: u32,
    a: &Lits,
    b: &Lits,
    c: &Lits,
) -> Result<ResultWords, AllocError>
    requires first { AreWithin (length gates.old) a.now }
    requires second { AreWithin (length gates.old) b.now }
    requires third { AreWithin (length gates.old) c.now }
    requires narrow { length a.now ≤ 64 }
    ensures made { OnOk result (gates.new ≡ (result_lits gates.old op ty from amount a.now b.now c.now).gates) }
    ensures words { IfOk result (λ words. listed words ≡ (result_lits gates.old op ty from amount a.now b.now c.now).words) }
    ensures part { OnErr result (IsPart gates.old gates.new (result_lits gates.old op ty from amount a.now b.now c.now).gates) }
{
    match op {
        Op::Mov => same_word(alloc, a),
        Op::Add => chain_alone(alloc, gates, Chain::Sum, a, b, Lit::from_number(1)),
        Op::Adds => carry_and_chain(alloc, gates, Chain::Sum, a, b, Lit::from_number(1)),
        Op::Adc => chain_alone(alloc, gates, Chain::Sum, a, b, first_of(c)),
        Op::Adcs => carry_and_chain(alloc, gates, Chain::Sum, a, b, first_of(c)),
        Op::Sub => chain_alone(alloc, gates, Chain::Difference, a, b, Lit::from_number(1)),
        Op::Subb => carry_and_chain(alloc, gates, Chain::Difference, a, b, Lit::from_number(1)),
        Op::Sbb => chain_alone(alloc, gates, Chain::Difference, a, b, first_of(c)),
        Op::Sbbs => carry_and_chain(alloc, gates, Chain::Difference, a, b, first_of(c)),
        Op::Mul => plain_product(alloc, gates, a, b),
        Op::Mull => product_parts(alloc, gates, ty, a, b),
        Op::Mulj => whole_product(alloc, gates, ty.signed, a, b),
        Op::Shl => shifted_word(alloc, a, amount),
        Op::Split => split_word(alloc, ty, amount, a),
        Op::Join => joined_word(alloc, a, b),
        Op::Cast => extended_word(alloc, a, from.signed, ty.width),
        Op::Vpc => extended_word(alloc, a, from.signed, ty.width),
        Op::Cmov => chosen_word(alloc, gates, first_of(a), b, c),
        Op::And => and_word(alloc, gates, a, b),
        Op::Or => or_word(alloc, gates, a, b),
        Op::Xor => xor_word(alloc, gates, a, b),
        Op::Not => flipped_word(alloc, a),
        Op::Nondet => same_word(alloc, a),
    }
}
