// The clauses of a circuit, by Tseitin's encoding.

ghost use Rattle.std.specs.Prelude.{◌≡◌, ℕ, ◌*◌, ◌+◌, ◌<◌, ◌↔◌, Bool, IfOk, OnOk, OnErr, length, take, List, [], ◌∷◌, ◌++◌};
ghost use Rattle.std.specs.Option.{option_to_list};
ghost use Rattle.tcl_cnf.specs.Clause.{clause_of, Satisfies};
ghost use Rattle.tcl_gates.specs.Gates.{clauses_of, clauses_behind, clauses_of_table, gate_table, ExtendsFree};

use crate::gate::Gate;
use crate::gates::Gates;
use std::alloc::{AllocError, Global};
use tcl_cnf::{Clause, Cnf, Lit};

/// The clauses of a circuit in the order of its gates, and before them the one that variable 0 is true. A literal that
/// occurs twice in a clause is kept once, and a clause with a literal and its negation is left out.
pub fn clauses_of_gates(alloc: Global, gates: &Gates) -> Result<Cnf, AllocError>
    ensures clauses { IfOk result (λ cnf. cnf ≡ clauses_of gates.now) }

    // Values meet the clauses exactly where they extend their own free bits by the values of the gates.
    ensures met { IfOk result (λ cnf. (v : ℕ → Bool) → Satisfies v cnf ↔ ExtendsFree v gates.now) }
{
    gates.known();
    let mut cnf = Cnf::new(alloc);
    add_clause(alloc, &mut cnf, &[Lit::of(0)])?;
    add_gates(alloc, &mut cnf, gates, 0)?;
    Ok(cnf)
}

/// Appends the clauses of the gates from number `from` on, counted from 0, in the order of the gates. The formula stays
/// where memory has run out.
pub fn append_clauses(
    alloc: Global,
    cnf: &mut Cnf,
    gates: &Gates,
    from: usize,
) -> Result<(), AllocError>
    ensures ok { OnOk result (cnf.new ≡ cnf.old ++ clauses_behind from gates.now) }
    ensures err { OnErr result (cnf.new ≡ cnf.old) }
{
    let mut more = Cnf::new(alloc);
    add_gates(alloc, &mut more, gates, from)?;
    cnf.append(more)
}

/// Adds the clauses of the gates from a number on.
fn add_gates(alloc: Global, cnf: &mut Cnf, gates: &Gates, from: usize) -> Result<(), AllocError>
    ensures { OnOk result (cnf.new ≡ cnf.old ++ clauses_behind from gates.now) }
{
    gates.known();
    for k in from..gates.len() {
        add_gate(alloc, cnf, Lit::of(k as u32 + 1), gates.at(k))?;
    }
    Ok(())
}

/// Adds the clauses that make the literal stand for the gate's value.
fn add_gate(alloc: Global, cnf: &mut Cnf, lit: Lit, gate: &Gate) -> Result<(), AllocError>
    ensures { OnOk result (cnf.new ≡ cnf.old ++ clauses_of_table (gate_table lit gate.now)) }
{
    match *gate {
        Gate::And(a, b) => add_and(alloc, cnf, lit, a, b),
        Gate::Xor(a, b) => add_xor(alloc, cnf, lit, a, b),
        Gate::Major(a, b, c) => add_major(alloc, cnf, lit, a, b, c),
        Gate::Choice(c, a, b) => add_choice(alloc, cnf, lit, c, a, b),
        Gate::Free => Ok(()),
    }
}

/// Adds the clauses that make a literal true where two others are.
fn add_and(alloc: Global, cnf: &mut Cnf, g: Lit, a: Lit, b: Lit) -> Result<(), AllocError>
    ensures { OnOk result (cnf.new ≡ cnf.old ++ clauses_of_table (gate_table g (Gate.And a b))) }
{
    let not_g = g.negation();
    let not_a = a.negation();
    let not_b = b.negation();
    add_clause(alloc, cnf, &[not_g, a])?;
    add_clause(alloc, cnf, &[not_g, b])?;
    add_clause(alloc, cnf, &[g, not_a, not_b])?;
    Ok(())
}

/// Adds the clauses that make a literal true where exactly one of two others is.
fn add_xor(alloc: Global, cnf: &mut Cnf, g: Lit, a: Lit, b: Lit) -> Result<(), AllocError>
    ensures { OnOk result (cnf.new ≡ cnf.old ++ clauses_of_table (gate_table g (Gate.Xor a b))) }
{
    let not_g = g.negation();
    let not_a = a.negation();
    let not_b = b.negation();
    add_clause(alloc, cnf, &[not_g, a, b])?;
    add_clause(alloc, cnf, &[not_g, not_a, not_b])?;
    add_clause(alloc, cnf, &[g, not_a, b])?;
    add_clause(alloc, cnf, &[g, a, not_b])?;
    Ok(())
}

/// Adds the clauses that make a literal true where at least two of three others are.
fn add_major(alloc: Global, cnf: &mut Cnf, g: Lit, a: Lit, b: Lit, c: Lit) -> Result<(), AllocError>
    ensures { OnOk result (cnf.new ≡ cnf.old ++ clauses_of_table (gate_table g (Gate.Major a b c))) }
{
    let not_g = g.negation();
    let not_a = a.negation();
    let not_b = b.negation();
    let not_c = c.negation();
    add_clause(alloc, cnf, &[not_a, not_b, g])?;
    add_clause(alloc, cnf, &[not_a, not_c, g])?;
    add_clause(alloc, cnf, &[not_b, not_c, g])?;
    add_clause(alloc, cnf, &[a, b, not_g])?;
    add_clause(alloc, cnf, &[a, c, not_g])?;
    add_clause(alloc, cnf, &[b, c, not_g])?;
    Ok(())
}

/// Adds the clauses that give a literal the value of one of two others, by a third.
fn add_choice(
    alloc: Global,
    cnf: &mut Cnf,
    g: Lit,
    c: Lit,
    a: Lit,
    b: Lit,
) -> Result<(), AllocError>
    ensures { OnOk result (cnf.new ≡ cnf.old ++ clauses_of_table (gate_table g (Gate.Choice c a b))) }
{
    let not_g = g.negation();
    let not_a = a.negation();
    let not_b = b.negation();
    let not_c = c.negation();
    add_clause(alloc, cnf, &[not_c, not_a, g])?;
    add_clause(alloc, cnf, &[not_c, a, not_g])?;
    add_clause(alloc, cnf, &[c, not_b, g])?;
    add_clause(alloc, cnf, &[c, b, not_g])?;
    Ok(())
}

/// Adds the clause of these literals, unless it is always true.
fn add_clause(alloc: Global, cnf: &mut Cnf, lits: &[Lit]) -> Result<(), AllocError>
    ensures { OnOk result (cnf.new ≡ cnf.old ++ option_to_list (clause_of lits.now)) }
{
    if let Some(clause) = Clause::from_lits(alloc, lits)? {
        cnf.push(clause)?;
    }
    Ok(())
}
