// Chains of gates, which hand one bit on from each pair of bits to the next.

ghost use Rattle.std.specs.Prelude.{◌≡◌, ◌+◌, ◌/◌, ◌≤◌, IfOk, OnOk, OnErr, length, []};
ghost use Rattle.tcl_gates.specs.Meaning.{AreWithin, IsPart};
ghost use Rattle.tcl_circuits.specs.Circuits.{wire, link, links, chain};

use crate::links::Link;
use crate::lits::{Lits, not};
use std::alloc::AllocError;
use tcl_cnf::Lit;
use tcl_gates::{Gate, Gates};

/// One link: returns the literal that it hands on.
fn add_link(gates: &mut Gates, kind: Link, last: Lit, x: Lit, y: Lit) -> Result<Lit, AllocError>
    requires handed { last / 2 ≤ length gates.old }
    requires first { x / 2 ≤ length gates.old }
    requires second { y / 2 ≤ length gates.old }
    ensures made { OnOk result (gates.new ≡ (link kind (wire gates.old last) x y).gates) }
    ensures lit { IfOk result (λ lit. lit ≡ (link kind (wire gates.old last) x y).lit) }
    ensures within { IfOk result (λ lit. lit / 2 ≤ length gates.new) }
    ensures part { OnErr result (IsPart gates.old gates.new (link kind (wire gates.old last) x y).gates) }
{
    match kind {
        Link::Less => gates.push(Gate::Major(x, not(y), last)),
        Link::Equal => {
            let differ = gates.push(Gate::Xor(x, y))?;
            gates.push(Gate::And(last, not(differ)))
        }
        Link::Clear => gates.push(Gate::And(last, not(x))),
    }
}

/// The literal behind the last link, from the lowest pair on; the first literal is true.
pub(crate) fn chain(gates: &mut Gates, kind: Link, a: &Lits, b: &Lits) -> Result<Lit, AllocError>
    requires first { AreWithin (length gates.old) a.now }
    requires second { AreWithin (length gates.old) b.now }
    ensures made { OnOk result (gates.new ≡ (chain kind gates.old a.now b.now).gates) }
    ensures lit { IfOk result (λ lit. lit ≡ (chain kind gates.old a.now b.now).lit) }
    ensures within { IfOk result (λ lit. lit / 2 ≤ length gates.new) }
    ensures longer { OnOk result (length gates.old ≤ length gates.new) }
    ensures part { OnErr result (IsPart gates.old gates.new (chain kind gates.old a.now b.now).gates) }
{
    let mut last = Lit::of(0);
    for k in 0..a.len().min(b.len()) {
        last = add_link(gates, kind, last, *a.at(k), *b.at(k))?;
    }
    Ok(last)
}
