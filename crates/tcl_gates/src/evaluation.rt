// The values of a circuit's variables.

ghost use Rattle.std.specs.Prelude.{◌≡◌, if◌then◌else◌, not, Bool, List, ℕ, ◌/◌, ◌+◌, ◌<◌, ◌≤◌, IfOk, IfSome, length, drop, slice_index_or, false};
ghost use Rattle.tcl_cnf.specs.Literal.{literal_true};
ghost use Rattle.tcl_cnf.specs.Clause.{Satisfies};
ghost use Rattle.tcl_gates.specs.Gates.{value_at, next_value, bits_behind, majority, IsBelow, values_of, clauses_of, free_count};

use crate::gate::Gate;
use crate::gates::Gates;
use std::alloc::{AllocError, Global};
use tcl_cnf::{Bits, Lit};

/// The one value of every variable, by number, where the free variables take these bits in the order of their gates.
pub fn value_of(alloc: Global, gates: &Gates, free: &[bool]) -> Result<Bits, AllocError>
    requires { length free.now ≡ free_count gates.now }
    ensures values { IfOk result (λ values. values ≡ values_of gates.now free.now) }
    ensures meets { IfOk result (λ values. Satisfies (value_at values) (clauses_of gates.now)) }
{
    gates.known();
    let mut values = Vec::new(alloc);
    values.push(true)?;
    let mut next = 0;
    for k in 0..gates.len() {
        let gate = gates.at(k);
        let value = value_of_gate(&values, free, next, gate);
        values.push(value)?;
        next += bits_used(gate);
    }
    Ok(Bits::from_vec(values))
}

/// How many free bits the gate takes.
fn bits_used(gate: &Gate) -> usize
    ensures few { result ≤ 1 }
    ensures behind { (free : List Bool) → bits_behind free gate.now ≡ drop result free }
{
    match *gate {
        Gate::Free => 1,
        Gate::And(_, _) => 0,
        Gate::Xor(_, _) => 0,
        Gate::Major(_, _, _) => 0,
        Gate::Choice(_, _, _) => 0,
    }
}

/// The value of the next gate's variable, where this free bit is the next one.
fn value_of_gate(values: &[bool], free: &[bool], next: usize, gate: &Gate) -> bool
    requires { IsBelow (length values.now) gate.now }
    ensures { result ≡ next_value values.now (drop next free.now) gate.now }
{
    match *gate {
        Gate::And(a, b) => is_true(values, a) & is_true(values, b),
        Gate::Xor(a, b) => exclusive(is_true(values, a), is_true(values, b)),
        Gate::Major(a, b, c) => majority(
            is_true(values, a),
            is_true(values, b),
            is_true(values, c),
        ),
        Gate::Choice(c, a, b) => {
            if is_true(values, c) {
                is_true(values, a)
            } else {
                is_true(values, b)
            }
        }
        Gate::Free => bit_at(free, next),
    }
}

/// The literal's value by those of the variables.
fn is_true(values: &[bool], lit: Lit) -> bool
    requires { lit / 2 < length values.now }
    ensures { result ≡ literal_true (value_at values.now) lit }
{
    let value = values[lit.variable() as usize];
    if lit.is_negated() { !value } else { value }
}

/// The bit at the place, and false behind the last one.
fn bit_at(bits: &[bool], place: usize) -> bool
    ensures { result ≡ slice_index_or (drop place bits.now) 0 false }
{
    if place < bits.len() {
        bits[place]
    } else {
        false
    }
}

/// Whether exactly one of the two is true.
fn exclusive(a: bool, b: bool) -> bool
    ensures { result ≡ (if a then not b else b) }
{
    if a { !b } else { b }
}

/// Whether at least two of the three are true.
fn majority(a: bool, b: bool, c: bool) -> bool
    ensures { result ≡ majority a b c }
{
    (a && b) || (a && c) || (b && c)
}
