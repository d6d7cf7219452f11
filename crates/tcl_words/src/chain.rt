// Sums with a carry and differences with a borrow, in one form.

ghost use Rattle.std.specs.Prelude.{◌≡◌, ◌/◌, ◌≤◌, IfOk, OnOk, OnErr, length};
ghost use Rattle.tcl_gates.specs.Meaning.{AreWithin, IsPart};
ghost use Rattle.tcl_words.specs.Chains as chains;

use std::alloc::{AllocError, Global};
use tcl_circuits::{Lits, Sum, adder, difference};
use tcl_cnf::Lit;
use tcl_gates::Gates;

/// What is made of two words bit by bit, from the lowest on.
#[derive(Clone, Copy)]
pub(crate) enum Chain {
    /// Their sum and a carry.
    Sum,
    /// Their difference less a borrow.
    Difference,
}

/// The sum or the difference of two words, with the carry into it and out of it, or the borrow.
pub(crate) fn chained(
    alloc: Global,
    gates: &mut Gates,
    chain: Chain,
    a: &Lits,
    b: &Lits,
    carry: Lit,
) -> Result<Sum, AllocError>
    requires first { AreWithin (length gates.old) a.now }
    requires second { AreWithin (length gates.old) b.now }
    requires third { carry / 2 ≤ length gates.old }
    ensures made { OnOk result (gates.new ≡ (chains.chained chain gates.old a.now b.now carry).gates) }
    ensures word { IfOk result (λ sum. sum.word ≡ (chains.chained chain gates.old a.now b.now carry).word) }
    ensures carry { IfOk result (λ sum. sum.carry ≡ (chains.chained chain gates.old a.now b.now carry).carry) }
    ensures within { IfOk result (λ sum. AreWithin (length gates.new) sum.word × (sum.carry / 2 ≤ length gates.new)) }
    ensures longer { OnOk result (length gates.old ≤ length gates.new) }
    ensures part { OnErr result (IsPart gates.old gates.new (chains.chained chain gates.old a.now b.now carry).gates) }
{
    match chain {
        Chain::Sum => adder(alloc, gates, a, b, carry),
        Chain::Difference => difference(alloc, gates, a, b, carry),
    }
}
