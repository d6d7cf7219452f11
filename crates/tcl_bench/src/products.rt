// Products of words of free bits.

ghost use Rattle.std.specs.Prelude.{IfOk, OnErr, ◌≤◌, length};
ghost use Rattle.tcl_gates.specs.Meaning.{AreWithin};

use std::alloc::{AllocError, Global};
use tcl_circuits::{Lits, product};
use tcl_gates::{Gate, Gates};

/// Makes the circuit of a product of two words of so many bits so many times, and says how many gates there are.
pub(crate) fn products_text(alloc: Global, width: u32, count: u32) -> Result<String, AllocError> {
    let gates = product_gates(alloc, width, count)?;
    format!(in alloc; "gates {}\n", gates.len())
}

/// The circuit of so many such products.
#[tactic(auto, using(tcl_gates::proofs::Shown::within_grown, tcl_gates::proofs::Shown::within_none))]
fn product_gates(alloc: Global, width: u32, count: u32) -> Result<Gates, AllocError> {
    let mut gates = Gates::new(alloc);
    let a = free_word(alloc, &mut gates, width)?;
    let b = free_word(alloc, &mut gates, width)?;
    push_products(alloc, &mut gates, &a, &b, count)?;
    Ok(gates)
}

#[tactic(auto, using(tcl_gates::proofs::Shown::within_grown))]
fn push_products(
    alloc: Global,
    gates: &mut Gates,
    a: &Lits,
    b: &Lits,
    count: u32,
) -> Result<(), AllocError>
    requires first { AreWithin (length gates.old) a.now }
    requires second { AreWithin (length gates.old) b.now }
{
    for _ in 0..count {
        let _word = product(alloc, gates, a, b)?;
    }
    Ok(())
}

/// A word of fresh free bits.
#[tactic(auto, using(tcl_gates::proofs::Shown::within_grown, tcl_gates::proofs::Shown::within_none, tcl_gates::proofs::Shown::within_append, tcl_gates::proofs::Shown::within_one))]
fn free_word(alloc: Global, gates: &mut Gates, width: u32) -> Result<Lits, AllocError>
    ensures within { IfOk result (λ word. AreWithin (length gates.new) word) }
    ensures longer { length gates.old ≤ length gates.new }
{
    let mut word = Lits::new(alloc);
    for k in 0..width {
        word.push(gates.push(Gate::Free)?)?;
    }
    Ok(word)
}
