// Circuits, their clauses, and the values of their variables.

ghost use Rattle.std.specs.Prelude.{◌≡◌, IfOk, [], ◌∷◌, length};
ghost use Rattle.tcl_gates.specs.Gates.{free_count};

use crate::expected::holds;
use std::alloc::{AllocError, Global};
use std::process::Abort;
use std::test::Fail;
use tcl_cnf::{Clause, Cnf, Lit};
use tcl_gates::{Gate, Gates, append_clauses, clauses_of_gates, value_of};

fn lit(number: u32) -> Lit
    ensures { result ≡ number }
{
    Lit::from_number(number)
}

/// The circuit of `x = x` for one bit x, which is variable 1: 2 is `xor(x, x)`, 3 is `and(true, -2)`.
fn same_bit(alloc: Global) -> Result<Gates, AllocError>
    ensures { IfOk result (λ gates. gates ≡ Gate.Free ∷ Gate.Xor 2 2 ∷ Gate.And 0 5 ∷ []) }
{
    let mut gates = Gates::new(alloc);
    gates.push(Gate::Free)?;
    gates.push(Gate::Xor(lit(2), lit(2)))?;
    gates.push(Gate::And(lit(0), lit(5)))?;
    Ok(gates)
}

// The clauses of that circuit, by hand from the table: two of the four clauses of the xor hold a literal and its negation.
const WHOLE: &[&[u32]] = &[&[0], &[2, 5], &[3, 5], &[0, 7], &[5, 7], &[1, 4, 6]];

// Those of its last gate.
const LAST: &[&[u32]] = &[&[0, 7], &[5, 7], &[1, 4, 6]];

// Those of its last gate, and behind them those of the last two.
const ALL: &[&[u32]] = &[
    &[0, 7],
    &[5, 7],
    &[1, 4, 6],
    &[2, 5],
    &[3, 5],
    &[0, 7],
    &[5, 7],
    &[1, 4, 6],
];

/// Whether the clauses of a copy of that circuit are these.
fn gives(alloc: Global, expected: &[&[u32]]) -> Result<bool, AllocError> {
    let gates = same_bit(alloc)?.copy()?;
    let cnf = clauses_of_gates(alloc, &gates)?;
    Ok(are_clauses(&cnf, expected))
}

#[test]
fn clauses_stand_in_the_order_of_their_gates(rt: HostRuntime) -> Result<(), Fail> {
    let is_so = gives(rt.alloc(), WHOLE)?;
    holds(&rt, "clauses in the order of their gates", is_so);
    Ok(())
}

/// Whether these are the clauses, in order.
fn are_clauses(cnf: &Cnf, expected: &[&[u32]]) -> bool {
    if cnf.len() != expected.len() {
        return false;
    }
    for (k, numbers) in expected.iter().enumerate() {
        if k >= cnf.len() || !has_all(cnf.at(k), numbers) {
            return false;
        }
    }
    true
}

/// Whether the clause has these literals alone.
fn has_all(clause: &Clause, numbers: &[u32]) -> bool {
    clause.len() == numbers.len() && numbers.iter().all(|number| clause.has(lit(*number)))
}

/// Whether the clauses of that circuit's gates from each of these numbers on, one behind the other, are these.
fn appends(alloc: Global, numbers: &[usize], expected: &[&[u32]]) -> Result<bool, AllocError> {
    let gates = same_bit(alloc)?;
    let mut cnf = Cnf::new(alloc);
    for from in numbers {
        append_clauses(alloc, &mut cnf, &gates, *from)?;
    }
    Ok(are_clauses(&cnf, expected))
}

// The clauses of the last gate alone; none behind it; then those from the second gate on.
const APPENDED: &[(&str, &[usize], &[&[u32]])] = &[
    ("the last gate's clauses", &[2], LAST),
    ("no gate, no clause", &[2, 3, 9], LAST),
    ("the clauses stand behind the others", &[2, 3, 9, 1], ALL),
];

#[test]
fn clauses_of_later_gates_are_appended(rt: HostRuntime) -> Result<(), Fail> {
    for (what, numbers, expected) in APPENDED {
        let is_so = appends(rt.alloc(), *numbers, *expected)?;
        holds(&rt, what, is_so);
    }
    Ok(())
}

/// Three free variables, and each kind of gate over them.
#[tactic(auto, unfolding(tcl_gates::specs::Gates::free_count))]
fn every_gate(alloc: Global) -> Result<Gates, AllocError>
    ensures { IfOk result (λ gates. free_count gates ≡ 3) }
{
    let mut gates = Gates::new(alloc);
    gates.push(Gate::Free)?;
    gates.push(Gate::Free)?;
    gates.push(Gate::Free)?;
    gates.push(Gate::And(lit(2), lit(4)))?;
    gates.push(Gate::Xor(lit(2), lit(4)))?;
    gates.push(Gate::Major(lit(2), lit(4), lit(6)))?;
    gates.push(Gate::Choice(lit(2), lit(4), lit(6)))?;
    gates.push(Gate::And(lit(3), lit(5)))?;
    Ok(gates)
}

// The free bits a, b, c, and by hand: a and b, exactly one of a and b, two of the three, b or c by a,
// neither a nor b.
const VALUES: &[([bool; 3], [bool; 5])] = &[
    ([false, false, false], [false, false, false, false, true]),
    ([false, false, true], [false, false, false, true, true]),
    ([false, true, false], [false, true, false, false, false]),
    ([false, true, true], [false, true, true, true, false]),
    ([true, false, false], [false, true, false, false, false]),
    ([true, false, true], [false, true, true, false, false]),
    ([true, true, false], [true, false, true, true, false]),
    ([true, true, true], [true, false, true, true, false]),
];

/// The first is true, then come the free bits, then the gates.
fn are_values(values: &[bool], free: &[bool; 3], expected: &[bool; 5]) -> bool {
    values.len() == 9
        && values[0]
        && values[1..4] == free.as_slice()[..]
        && values[4..] == expected.as_slice()[..]
}

/// Whether the variables of the circuit of every gate have these values.
fn has_values(alloc: Global, free: &[bool; 3], expected: &[bool; 5]) -> Result<bool, AllocError> {
    let gates = every_gate(alloc)?;
    let values = value_of(alloc, &gates, free)?;
    Ok(are_values(values.as_slice(), free, expected))
}

fn expect_values(rt: &impl Abort, free: &[bool; 3], is_so: bool) {
    assert!(rt;
        is_so,
        "the values at {}, {}, {}",
        free[0], free[1], free[2]
    );
}

#[test]
fn each_variable_has_its_gate_s_value(rt: HostRuntime) -> Result<(), Fail> {
    for (free, expected) in VALUES {
        let is_so = has_values(rt.alloc(), free, expected)?;
        expect_values(&rt, free, is_so);
    }
    Ok(())
}
