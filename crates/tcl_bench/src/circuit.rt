// Word circuits in their plainest forms: ripple carry adders, and products by shifting and adding. Words have their lowest
// bit first, and what lies beyond their last bit is dropped.

ghost use Rattle.std.specs.Prelude.{◌≡◌, ◌/◌, ◌+◌, ◌<◌, true};
ghost use Rattle.tcl_gates.specs.Gates.{IsBelow};

use std::alloc::{AllocError, Global};
use tcl_cnf::Lit;
use tcl_gates::{Gate, Gates};

/// A word of fresh free bits.
pub(crate) fn input(alloc: Global, gates: &mut Gates, width: u32) -> Result<Vec<Lit>, AllocError> {
    let mut word = Vec::new(alloc);
    for _bit in 0..width {
        word.push(gates.push(Gate::Free)?)?;
    }
    Ok(word)
}

/// The sum, as long as the shorter word.
pub(crate) fn sum(
    alloc: Global,
    gates: &mut Gates,
    a: &[Lit],
    b: &[Lit],
) -> Result<Vec<Lit>, AllocError> {
    let mut carry = Lit::of(0).negation();
    let mut word = Vec::new(alloc);
    for (x, y) in a.iter().zip(b) {
        let (bit, next) = full_adder(gates, *x, *y, carry)?;
        word.push(bit)?;
        carry = next;
    }
    Ok(word)
}

/// The sum of three bits and its carry.
fn full_adder(gates: &mut Gates, x: Lit, y: Lit, carry: Lit) -> Result<(Lit, Lit), AllocError> {
    let half = add(gates, Gate::Xor(x, y))?;
    let bit = add(gates, Gate::Xor(half, carry))?;
    Ok((bit, add(gates, Gate::Major(x, y, carry))?))
}

/// The product, as long as the first word.
pub(crate) fn product(
    alloc: Global,
    gates: &mut Gates,
    a: &[Lit],
    b: &[Lit],
) -> Result<Vec<Lit>, AllocError> {
    let mut total = Vec::new(alloc);
    for (shift, y) in b.iter().enumerate() {
        let row = masked(alloc, gates, a, *y)?;
        total = if shift == 0 {
            row
        } else {
            sum_from(alloc, gates, &total, &row, shift)?
        };
    }
    Ok(total)
}

/// The first word plus the second one shifted up by so many places, as long as the first.
fn sum_from(
    alloc: Global,
    gates: &mut Gates,
    a: &[Lit],
    b: &[Lit],
    shift: usize,
) -> Result<Vec<Lit>, AllocError> {
    if shift > a.len() {
        return Vec::from_slice(alloc, a);
    }
    let mut word = Vec::from_slice(alloc, &a[..shift])?;
    for lit in &sum(alloc, gates, &a[shift..], b)? {
        word.push(*lit)?;
    }
    Ok(word)
}

/// The word where the bit is true, and else 0.
fn masked(
    alloc: Global,
    gates: &mut Gates,
    word: &[Lit],
    bit: Lit,
) -> Result<Vec<Lit>, AllocError> {
    let mut bits = Vec::new(alloc);
    for lit in word {
        bits.push(add(gates, Gate::And(*lit, bit))?)?;
    }
    Ok(bits)
}

/// For each pair of bits whether they differ.
pub(crate) fn differences(
    alloc: Global,
    gates: &mut Gates,
    a: &[Lit],
    b: &[Lit],
) -> Result<Vec<Lit>, AllocError> {
    let mut bits = Vec::new(alloc);
    for (x, y) in a.iter().zip(b) {
        let bit = add(gates, Gate::Xor(*x, *y))?;
        bits.push(bit)?;
    }
    Ok(bits)
}

/// Appends a gate. A gate with a literal of a later variable is answered as one for which there is no memory.
fn add(gates: &mut Gates, gate: Gate) -> Result<Lit, AllocError> {
    if !is_below(gates.len(), &gate) {
        return Err(AllocError);
    }
    gates.push(gate)
}

/// Whether the gate's literals are of variables up to this number.
fn is_below(count: usize, gate: &Gate) -> bool
    ensures { result ≡ true → IsBelow (count + 1) gate.now }
{
    match *gate {
        Gate::And(a, b) => is_old(count, a) && is_old(count, b),
        Gate::Xor(a, b) => is_old(count, a) && is_old(count, b),
        Gate::Major(a, b, c) => is_old(count, a) && is_old(count, b) && is_old(count, c),
        Gate::Choice(a, b, c) => is_old(count, a) && is_old(count, b) && is_old(count, c),
        Gate::Free => true,
    }
}

fn is_old(count: usize, lit: Lit) -> bool
    ensures { result ≡ true → lit / 2 < count + 1 }
{
    lit.variable() as usize <= count
}
