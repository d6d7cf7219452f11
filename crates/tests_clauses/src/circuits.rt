//! Circuits of narrow words at all operands against integer arithmetic, and how many gates one circuit of each kind has.

ghost use Rattle.std.specs.Prelude.{IfOk, ◌≤◌, length};
ghost use Rattle.tcl_gates.specs.Meaning.{AreWithin};

use std::alloc::{AllocError, Global};
use std::process::Abort;
use std::test::Fail;
use tcl_circuits::{
    Lits, adder, bitwise_and, bitwise_or, bitwise_xor, choose, constant, difference, equal, extend,
    in_range, less, negation, product, shift,
};
use tcl_cnf::Lit;
use tcl_gates::{Gate, Gates};

// A word of fresh free bits.
#[tactic(auto, using(tcl_gates::proofs::Shown::within_grown, tcl_gates::proofs::Shown::within_none, tcl_gates::proofs::Shown::within_append, tcl_gates::proofs::Shown::within_one))]
fn free_word(alloc: Global, gates: &mut Gates, width: u32) -> Result<Lits, AllocError>
    ensures within { IfOk result (λ word. AreWithin (length gates.new) word) }
    ensures longer { length gates.old ≤ length gates.new }
{
    let mut word = Lits::new(alloc);
    for k in 0..width {
        word.push(gates.push(Gate::Free)?)?;
    }
    Ok(word)
}

fn read(values: &[bool], lit: Lit) -> bool {
    let place = lit.variable() as usize;
    let value = place < values.len() && values[place];
    if lit.is_negated() { !value } else { value }
}

// The values of all variables, where bit k of the number is that of free variable k.
fn evaluate(alloc: Global, gates: &Gates, free: u64) -> Result<Vec<bool>, AllocError> {
    let mut values = Vec::new(alloc);
    values.push(true)?;
    let mut rest = free;
    for k in 0..gates.len() {
        let value = match *gates.at(k) {
            Gate::And(a, b) => read(&values, a) && read(&values, b),
            Gate::Xor(a, b) => read(&values, a) != read(&values, b),
            Gate::Major(a, b, c) => {
                let count = read(&values, a) as u8
                    + read(&values, b) as u8
                    + read(&values, c) as u8;
                count >= 2
            }
            Gate::Choice(c, a, b) => {
                if read(&values, c) {
                    read(&values, a)
                } else {
                    read(&values, b)
                }
            }
            Gate::Free => {
                let bit = rest % 2 == 1;
                rest /= 2;
                bit
            }
        };
        values.push(value)?;
    }
    Ok(values)
}

// The unsigned number of a word.
fn number(values: &[bool], word: &Lits) -> u64 {
    let mut total = 0u64;
    for lit in word.as_slice().iter().rev() {
        total = total
            .wrapping_mul(2)
            .wrapping_add(read(values, *lit) as u64);
    }
    total
}

// 2 to the width.
fn end_of(width: u32) -> u64 {
    1u64.wrapping_shl(width)
}

fn low(n: u64, width: u32) -> u64 {
    n & end_of(width).wrapping_sub(1)
}

// The bits of a number with the sign bit of this width flipped, by which signed numbers are in order.
fn ordered(n: u64, width: u32) -> u64 {
    n ^ (end_of(width) / 2)
}

fn expect(rt: &impl Abort, name: &str, a: u64, b: u64, found: u64, expected: u64) {
    assert!(rt;
        found == expected,
        "{name} at {a}, {b}: {found} and not {expected}"
    );
}

// What is made of two words a and b of free bits.
#[derive(Clone, Copy)]
enum Made {
    Sum,
    Carry,
    Difference,
    Borrow,
    Negation,
    Product,
    And,
    Or,
    Xor,
    First,
    Second,
    Shift,
    Signed,
    Unsigned,
    Less,
    SignedLess,
    Equal,
    OneBit,
    OneSignedBit,
    MinusTwo,
}

const MADE: &[(Made, &str)] = &[
    (Made::Sum, "sum"),
    (Made::Carry, "carry"),
    (Made::Difference, "difference"),
    (Made::Borrow, "borrow"),
    (Made::Negation, "negation"),
    (Made::Product, "product"),
    (Made::And, "and"),
    (Made::Or, "or"),
    (Made::Xor, "xor"),
    (Made::First, "the first"),
    (Made::Second, "the second"),
    (Made::Shift, "shift"),
    (Made::Signed, "signed"),
    (Made::Unsigned, "unsigned"),
    (Made::Less, "less"),
    (Made::SignedLess, "signed less"),
    (Made::Equal, "equal"),
    (Made::OneBit, "one bit"),
    (Made::OneSignedBit, "one signed bit"),
    (Made::MinusTwo, "minus two"),
];

// A word of one literal.
fn bit(alloc: Global, lit: Lit) -> Result<Lits, AllocError> {
    let mut word = Lits::new(alloc);
    word.push(lit)?;
    Ok(word)
}

// The word that is made, or the literal as a word of one bit. Sums carry 1, and differences borrow 1.
fn word_of(
    alloc: Global,
    gates: &mut Gates,
    made: Made,
    width: u32,
    a: &Lits,
    b: &Lits,
) -> Result<Lits, AllocError>
    requires first { AreWithin (length gates.old) a.now }
    requires second { AreWithin (length gates.old) b.now }
{
    match made {
        Made::Sum => Ok(adder(alloc, gates, a, b, Lit::of(0))?.word),
        Made::Carry => bit(alloc, adder(alloc, gates, a, b, Lit::of(0))?.carry),
        Made::Difference => Ok(difference(alloc, gates, a, b, Lit::of(0))?.word),
        Made::Borrow => bit(alloc, difference(alloc, gates, a, b, Lit::of(0))?.carry),
        Made::Negation => negation(alloc, gates, a),
        Made::Product => product(alloc, gates, a, b),
        Made::And => bitwise_and(alloc, gates, a, b),
        Made::Or => bitwise_or(alloc, gates, a, b),
        Made::Xor => bitwise_xor(alloc, gates, a, b),
        Made::First => choose(alloc, gates, Lit::of(0), a, b),
        Made::Second => choose(alloc, gates, Lit::from_number(1), a, b),
        Made::Shift => shift(alloc, a, 1),
        Made::Signed => extend(alloc, a, true, width.wrapping_add(2)),
        Made::Unsigned => extend(alloc, a, false, width.wrapping_add(2)),
        Made::Less => bit(alloc, less(alloc, gates, false, a, b)?),
        Made::SignedLess => bit(alloc, less(alloc, gates, true, a, b)?),
        Made::Equal => bit(alloc, equal(gates, a, b)?),
        Made::OneBit => bit(alloc, in_range(alloc, gates, a, false, 1)?),
        Made::OneSignedBit => bit(alloc, in_range(alloc, gates, a, true, 1)?),
        Made::MinusTwo => constant(alloc, width, -2),
    }
}

// What it must be where the words are x and y.
fn wanted(made: Made, width: u32, x: u64, y: u64) -> u64 {
    match made {
        Made::Sum => low(x.wrapping_add(y).wrapping_add(1), width),
        Made::Carry => x.wrapping_add(y).wrapping_add(1).wrapping_shr(width),
        Made::Difference => low(x.wrapping_sub(y).wrapping_sub(1), width),
        Made::Borrow => (x <= y) as u64,
        Made::Negation => low(0u64.wrapping_sub(x), width),
        Made::Product => low(x.wrapping_mul(y), width),
        Made::And => x & y,
        Made::Or => x | y,
        Made::Xor => x ^ y,
        Made::First | Made::Unsigned => x,
        Made::Second => y,
        Made::Shift => low(x.wrapping_mul(2), width),
        Made::Signed => x.wrapping_add(sign_bits(x, width)),
        Made::Less => (x < y) as u64,
        Made::SignedLess => is_below(x, y, width) as u64,
        Made::Equal => (x == y) as u64,
        Made::OneBit => (x < 2) as u64,
        Made::OneSignedBit => is_zero_or_minus_one(x, width) as u64,
        Made::MinusTwo => low(0u64.wrapping_sub(2), width),
    }
}

// What two bits of sign add to a word.
fn sign_bits(x: u64, width: u32) -> u64 {
    if x >= end_of(width) / 2 {
        end_of(width).wrapping_mul(3)
    } else {
        0
    }
}

fn is_below(x: u64, y: u64, width: u32) -> bool {
    ordered(x, width) < ordered(y, width)
}

fn is_zero_or_minus_one(x: u64, width: u32) -> bool {
    x == 0 || x == end_of(width).wrapping_sub(1)
}

// What is made of two words of free bits, behind the gates of which it is made.
#[tactic(auto, using(tcl_gates::proofs::Shown::within_grown))]
fn circuit(alloc: Global, made: Made, width: u32) -> Result<(Gates, Lits), AllocError> {
    let mut gates = Gates::new(alloc);
    let a = free_word(alloc, &mut gates, width)?;
    let b = free_word(alloc, &mut gates, width)?;
    let word = word_of(alloc, &mut gates, made, width, &a, &b)?;
    Ok((gates, word))
}

fn number_at(alloc: Global, gates: &Gates, word: &Lits, free: u64) -> Result<u64, AllocError> {
    let values = evaluate(alloc, gates, free)?;
    Ok(number(&values, word))
}

fn expect_made(
    rt: &impl Abort,
    alloc: Global,
    made: Made,
    name: &str,
    width: u32,
) -> Result<(), AllocError> {
    let (gates, word) = circuit(alloc, made, width)?;
    for free in 0..end_of(width.wrapping_mul(2)) {
        let x = low(free, width);
        let y = free.wrapping_shr(width);
        let found = number_at(alloc, &gates, &word, free)?;
        expect(rt, name, x, y, found, wanted(made, width, x, y));
    }
    Ok(())
}

#[test]
fn narrow_words_at_all_operands(rt: HostRuntime) -> Result<(), Fail> {
    for width in 1..4u32 {
        for (made, name) in MADE {
            expect_made(&rt, rt.alloc(), *made, name, width)?;
        }
    }
    Ok(())
}

// How many gates are made of words of a width, by hand: w a word, 3 a full adder, 4 a bit of a further row of a product.
// The full product of two words is the product at twice their width.
const COUNTS: &[(Made, &str, u32, usize)] = &[
    (Made::Sum, "sum", 32, 96),
    (Made::Sum, "sum", 64, 192),
    (Made::Product, "product", 32, 2_016),
    (Made::Product, "product", 64, 8_128),
    (Made::Product, "product", 128, 32_640),
    (Made::SignedLess, "comparison", 32, 32),
    (Made::SignedLess, "comparison", 64, 64),
];

// The gates behind those of the free bits.
fn gate_count(alloc: Global, made: Made, width: u32) -> Result<usize, AllocError> {
    let (gates, _) = circuit(alloc, made, width)?;
    Ok(
        gates
            .len()
            .saturating_sub(width as usize)
            .saturating_sub(width as usize),
    )
}

fn expect_count(rt: &impl Abort, name: &str, width: u32, found: usize, expected: usize) {
    assert!(rt;
        found == expected,
        "{name} of {width} bits: {found} gates and not {expected}"
    );
}

#[test]
fn circuits_have_so_many_gates(rt: HostRuntime) -> Result<(), Fail> {
    for (made, name, width, expected) in COUNTS {
        let found = gate_count(rt.alloc(), *made, *width)?;
        expect_count(&rt, name, *width, found, *expected);
    }
    Ok(())
}
