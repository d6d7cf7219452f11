// The product by rows.

ghost use Rattle.std.specs.Prelude.{◌≡◌, ◌+◌, ◌/◌, ◌≤◌, Bool, List, IfOk, OnOk, OnErr, length};
ghost use Rattle.tcl_bits.specs.Circuit.{product_bits};
ghost use Rattle.tcl_gates.specs.Meaning.{word_bits, AreWithin, IsPart};
ghost use Rattle.tcl_circuits.specs.Circuits.{wires, row_added, product};

use crate::addition::adder;
use crate::links::Meet;
use crate::lits::Lits;
use crate::meeting::meet;
use crate::parts::{append, copies, high_part, low_part};
use std::alloc::{AllocError, Global};
use tcl_cnf::Lit;
use tcl_gates::Gates;

/// One row more: the bits from `place` on are replaced by their sum with the row.
#[tactic(auto, using(tcl_gates::proofs::Shown::part_none, tcl_gates::proofs::Shown::part_all, crate::proofs::Rows::meet_then_adder, tcl_gates::proofs::Shown::within_take, tcl_gates::proofs::Shown::within_copies))]
fn add_row(
    alloc: Global,
    gates: &mut Gates,
    sum: &Lits,
    a: &Lits,
    y: Lit,
    place: usize,
) -> Result<Lits, AllocError>
    requires sum { AreWithin (length gates.old) sum.now }
    requires first { AreWithin (length gates.old) a.now }
    requires second { y / 2 ≤ length gates.old }
    ensures made { OnOk result (gates.new ≡ (row_added a.now place (wires gates.old sum.now) y).gates) }
    ensures word { IfOk result (λ word. word ≡ (row_added a.now place (wires gates.old sum.now) y).word) }
    ensures within { IfOk result (λ word. AreWithin (length gates.new) word) }
    ensures part { OnErr result (IsPart gates.old gates.new (row_added a.now place (wires gates.old sum.now) y).gates) }
{
    let count = a.len().saturating_sub(place);
    let factor = low_part(alloc, a, count)?;
    let bits = copies(alloc, y, count)?;
    let high = high_part(alloc, sum, place)?;
    let mut word = low_part(alloc, sum, place)?;
    let row = meet(alloc, gates, &Meet::And, &factor, &bits)?;
    let added = adder(alloc, gates, &high, &row, Lit::from_number(1))?;
    append(&mut word, &added.word)?;
    Ok(word)
}

/// The product of two words of one length, with as many bits as they have: the row of the lowest bit, and then for each
/// further bit its row, as far as it lies within the word, added from that bit on. A second word of another length has a row
/// for each of its bits.
///
/// After an `Err`, which is that memory has run out, the gates are those before with a part of the circuit behind them.
#[tactic(auto, using(tcl_gates::proofs::Shown::part_none, crate::proofs::Rows::product_begins, tcl_gates::proofs::Shown::within_copies, tcl_gates::proofs::Shown::within_ones))]
pub fn product(alloc: Global, gates: &mut Gates, a: &Lits, b: &Lits) -> Result<Lits, AllocError>
    requires first { AreWithin (length gates.old) a.now }
    requires second { AreWithin (length gates.old) b.now }
    ensures made { OnOk result (gates.new ≡ (product gates.old a.now b.now).gates) }
    ensures word { IfOk result (λ word. word ≡ (product gates.old a.now b.now).word) }
    ensures value { IfOk result (λ word. (free : List Bool) → word_bits gates.new free word
        ≡ product_bits (word_bits gates.old free a.now) (word_bits gates.old free b.now)) }
    ensures within { IfOk result (λ word. AreWithin (length gates.new) word) }
    ensures longer { OnOk result (length gates.old ≤ length gates.new) }
    ensures part { OnErr result (IsPart gates.old gates.new (product gates.old a.now b.now).gates) }
{
    if b.is_empty() {
        return copies(alloc, Lit::from_number(1), a.len());
    }
    let bits = copies(alloc, *b.at(0), a.len())?;
    let mut sum = meet(alloc, gates, &Meet::And, a, &bits)?;
    for k in 1..b.len() {
        sum = add_row(alloc, gates, &sum, a, *b.at(k), k)?;
    }
    Ok(sum)
}
