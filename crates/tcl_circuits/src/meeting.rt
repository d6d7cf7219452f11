// Two words met bit by bit.

ghost use Rattle.std.specs.Prelude.{◌≡◌, ◌+◌, ◌/◌, ◌≤◌, IfOk, OnOk, OnErr, length, []};
ghost use Rattle.tcl_gates.specs.Gates.{IsBelow};
ghost use Rattle.tcl_gates.specs.Meaning.{AreWithin, IsPart};
ghost use Rattle.tcl_circuits.specs.Circuits.{wires, meet_gate, meet_lit, meet, MeetWithin};

use crate::links::Meet;
use crate::lits::Lits;
use std::alloc::{AllocError, Global};
use tcl_cnf::Lit;
use tcl_gates::{Gate, Gates};

/// The gate of a pair of bits.
fn gate_of(kind: &Meet, x: Lit, y: Lit) -> Gate
    ensures { result ≡ meet_gate kind.now x y }
{
    match *kind {
        Meet::And => Gate::And(x, y),
        Meet::Xor => Gate::Xor(x, y),
        Meet::Choice(c) => Gate::Choice(c, x, y),
    }
}

/// One pair: puts the gate's literal behind the word.
fn meet_pair(
    gates: &mut Gates,
    word: &mut Lits,
    kind: &Meet,
    x: Lit,
    y: Lit,
) -> Result<(), AllocError>
    requires first { x / 2 ≤ length gates.old }
    requires second { y / 2 ≤ length gates.old }
    requires choice { MeetWithin (length gates.old) kind.now }
    ensures made { OnOk result (gates.new ≡ (meet_lit kind.now (wires gates.old word.old) x y).gates) }
    ensures word { OnOk result (word.new ≡ (meet_lit kind.now (wires gates.old word.old) x y).word) }
    ensures longer { length gates.old ≤ length gates.new }
    ensures part { OnErr result (IsPart gates.old gates.new (meet_lit kind.now (wires gates.old word.old) x y).gates) }
{
    let lit = gates.push(gate_of(kind, x, y))?;
    word.push(lit)?;
    Ok(())
}

/// Two words met bit by bit, from the lowest on.
pub(crate) fn meet(
    alloc: Global,
    gates: &mut Gates,
    kind: &Meet,
    a: &Lits,
    b: &Lits,
) -> Result<Lits, AllocError>
    requires first { AreWithin (length gates.old) a.now }
    requires second { AreWithin (length gates.old) b.now }
    requires choice { MeetWithin (length gates.old) kind.now }
    ensures made { OnOk result (gates.new ≡ (meet kind.now gates.old a.now b.now).gates) }
    ensures word { IfOk result (λ word. word ≡ (meet kind.now gates.old a.now b.now).word) }
    ensures within { IfOk result (λ word. AreWithin (length gates.new) word) }
    ensures longer { OnOk result (length gates.old ≤ length gates.new) }
    ensures part { OnErr result (IsPart gates.old gates.new (meet kind.now gates.old a.now b.now).gates) }
{
    let mut word = Lits::new(alloc);
    for k in 0..a.len().min(b.len()) {
        meet_pair(gates, &mut word, kind, *a.at(k), *b.at(k))?;
    }
    Ok(word)
}
