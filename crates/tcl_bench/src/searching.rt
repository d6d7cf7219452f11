// Searches, and the same formulas in the format of the DIMACS challenge of 1993.

ghost use Rattle.std.specs.Prelude.{◌≡◌, ◌<◌, ◌≤◌, length};

use crate::formula::Formula;
use std::alloc::{AllocError, Global};
use tcl_cnf::{Clause, Cnf, Log};
use tcl_port::{Poll, Port};
use tcl_sat::{Found, search};

/// How many clauses a search may derive where no word says it.
pub(crate) const BUDGET: u32 = 131_072;

// In rounds of how many.
const ROUND: u32 = 1_024;

// A port that counts the polls, and never cancels.
#[derive(Drop)]
pub(crate) struct Patient {
    pub(crate) polls: u64,
}

impl Port for Patient {
    ghost polls = { λ p. p.polls };

    ghost cancels = { λ _. 0 };

    fn poll(&mut self) -> Poll {
        self.polls = self.polls.saturating_add(1);
        Poll::Go
    }
}

// The answer of a search, how many clauses it derived, and how many literals these have.
#[derive(Clone, Copy)]
struct Outcome {
    name: &'static str,
    derived: usize,
    literals: u64,
}

/// Searches until so many clauses are derived, and says the answer with the number of derived clauses, of which there is one
/// for each conflict, and of their literals.
pub(crate) fn search_text(
    alloc: Global,
    formula: Formula,
    budget: u32,
) -> Result<String, AllocError> {
    let cnf = formula.clauses(alloc)?;
    let mut port = Patient { polls: 0 };
    let Outcome {
        name,
        derived,
        literals,
    } = outcome_of(alloc, &cnf, budget.max(1), &mut port)?;
    let polls = port.polls;
    format!(in alloc;
        "{name} {derived} literals {literals}\nclauses {} polls {polls}\n",
        cnf.len()
    )
}

fn outcome_of(
    alloc: Global,
    cnf: &Cnf,
    budget: u32,
    port: &mut Patient,
) -> Result<Outcome, AllocError>
    requires { 1 ≤ budget }
{
    let found = search(alloc, cnf, budget, ROUND, port)?;
    let outcome = Outcome {
        name: name_of(&found),
        derived: derived_by(&found),
        literals: literals_by(&found),
    };
    drop(found);
    Ok(outcome)
}

fn name_of(found: &Found) -> &'static str {
    match found {
        Found::Refutes(_) => "refutes",
        Found::Model(_) => "model",
        Found::Spent(_) => "spent",
        Found::Stopped => "stopped",
    }
}

/// How many clauses the log has behind the given ones, where there is a log.
fn derived_by(found: &Found) -> usize {
    match found {
        Found::Refutes(log) => log.len().saturating_sub(log.given()),
        Found::Spent(log) => log.len().saturating_sub(log.given()),
        Found::Model(_) => 0,
        Found::Stopped => 0,
    }
}

/// How many literals the derived clauses have, where there is a log.
fn literals_by(found: &Found) -> u64 {
    match found {
        Found::Refutes(log) => derived_literals(log),
        Found::Spent(log) => derived_literals(log),
        Found::Model(_) => 0,
        Found::Stopped => 0,
    }
}

fn derived_literals(log: &Log) -> u64 {
    let mut count = 0_u64;
    for k in log.given()..log.len() {
        count = count.saturating_add(literals_at(log, k));
    }
    count
}

fn literals_at(log: &Log, k: usize) -> u64
    requires { k < length log.now.clauses }
{
    match u32::try_from(k) {
        Ok(k) => log.clause(k).len() as u64,
        Err(_) => 0,
    }
}

/// The formula, whose variables are numbered from 1 there.
pub(crate) fn formula_text(alloc: Global, formula: Formula) -> Result<String, AllocError> {
    let cnf = formula.clauses(alloc)?;
    let mut text = String::new(alloc);
    write_formula(&mut text, &cnf)?;
    Ok(text)
}

fn write_formula(text: &mut String, cnf: &Cnf) -> Result<(), AllocError> {
    write!(&mut *text, "p cnf {} {}\n", variables_of(cnf), cnf.len())?;
    for k in 0..cnf.len() {
        write_clause(text, cnf.at(k))?;
    }
    Ok(())
}

fn write_clause(text: &mut String, clause: &Clause) -> Result<(), AllocError> {
    for lit in clause.lits() {
        let sign = if lit.is_negated() { "-" } else { "" };
        write!(&mut *text, "{sign}{} ", lit.variable() as u64 + 1)?;
    }
    text.push_str("0\n")
}

/// One more than the greatest variable.
fn variables_of(cnf: &Cnf) -> u64 {
    let mut count = 0;
    for k in 0..cnf.len() {
        for lit in cnf.at(k).lits() {
            count = count.max(lit.variable() as u64 + 1);
        }
    }
    count
}
