// Words of free bits, and the values of gates.

ghost use Rattle.std.specs.Prelude.{◌≡◌, IfOk, ◌≤◌, length};
ghost use Rattle.tcl_gates.specs.Meaning.{AreWithin};

use std::alloc::{AllocError, Global};
use tcl_circuits::Lits;
use tcl_cnf::Lit;
use tcl_gates::{Gate, Gates};

// A word of fresh free bits.
#[tactic(auto, using(tcl_gates::proofs::Shown::within_grown, tcl_gates::proofs::Shown::within_none, tcl_gates::proofs::Shown::within_append, tcl_gates::proofs::Shown::within_one))]
pub(crate) fn free_word(alloc: Global, gates: &mut Gates, width: u32) -> Result<Lits, AllocError>
    ensures within { IfOk result (λ word. AreWithin (length gates.new) word) }
    ensures longer { length gates.old ≤ length gates.new }
    ensures count { IfOk result (λ word. length word ≡ width) }
{
    let mut word = Lits::new(alloc);
    for k in 0..width {
        word.push(gates.push(Gate::Free)?)?;
    }
    Ok(word)
}

pub(crate) fn read(values: &[bool], lit: Lit) -> bool {
    let place = lit.variable() as usize;
    let value = place < values.len() && values[place];
    if lit.is_negated() { !value } else { value }
}

fn majority(a: bool, b: bool, c: bool) -> bool {
    a && b || a && c || b && c
}

fn value_of(values: &[bool], gate: Gate, free: bool) -> bool {
    match gate {
        Gate::And(a, b) => read(values, a) && read(values, b),
        Gate::Xor(a, b) => read(values, a) != read(values, b),
        Gate::Major(a, b, c) => majority(read(values, a), read(values, b), read(values, c)),
        Gate::Choice(c, a, b) => {
            if read(values, c) {
                read(values, a)
            } else {
                read(values, b)
            }
        }
        Gate::Free => free,
    }
}

// The values of all variables, where bit k of the number is that of the gate of this place, if it is free.
pub(crate) fn evaluate(alloc: Global, gates: &Gates, free: u32) -> Result<Vec<bool>, AllocError> {
    let mut values = Vec::new(alloc);
    values.push(true)?;
    let mut rest = free;
    for k in 0..gates.len() {
        let value = value_of(&values, *gates.at(k), rest % 2 == 1);
        values.push(value)?;
        rest /= 2;
    }
    Ok(values)
}

// The number of a word, by its type's sign.
pub(crate) fn number(values: &[bool], word: &[Lit], signed: bool) -> i128 {
    let mut total = 0i128;
    let mut weight = 1i128;
    for lit in word {
        if read(values, *lit) {
            total = total.wrapping_add(weight);
        }
        weight = weight.wrapping_mul(2);
    }
    if signed && total.wrapping_mul(2) >= weight {
        total.wrapping_sub(weight)
    } else {
        total
    }
}
