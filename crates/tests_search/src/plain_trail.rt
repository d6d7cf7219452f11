// A trail by plain scans of all clauses, with nothing kept of them.

use std::alloc::{AllocError, Global};
use tcl_cnf::{Clause, Cnf, Lit};

/// A true literal.
#[derive(Clone, Copy)]
struct True {
    lit: Lit,
    is_assumed: bool,
}

/// The clauses, and the true literals in order.
#[derive(Drop)]
pub(crate) struct PlainTrail {
    clauses: Cnf,
    trues: Vec<True>,
}

/// What a clause is.
#[derive(Clone, Copy)]
enum Look {
    Settled,
    Falsified,
    Unit(Lit),
}

impl PlainTrail {
    pub(crate) fn new(alloc: Global) -> PlainTrail {
        PlainTrail {
            clauses: Cnf::new(alloc),
            trues: Vec::new(alloc),
        }
    }

    pub(crate) fn add(&mut self, clause: Clause) -> Result<(), AllocError> {
        self.clauses.push(clause)?;
        Ok(())
    }

    pub(crate) fn assume(&mut self, lit: Lit) -> Result<(), AllocError> {
        append(&mut self.trues, lit, true)
    }

    /// Makes the literals of unit clauses true until there is none. The answer is whether no clause is false.
    pub(crate) fn propagate(&mut self) -> Result<bool, AllocError> {
        propagate_over(&self.clauses, &mut self.trues)
    }

    pub(crate) fn is_true(&self, lit: Lit) -> bool {
        is_true(&self.trues, lit)
    }

    pub(crate) fn len(&self) -> usize {
        self.trues.len()
    }

    /// How many literals are assumed up to this one, or of one that is not true how many are assumed.
    pub(crate) fn level_of(&self, lit: Lit) -> u32 {
        level_in(&self.trues, lit)
    }

    /// How many literals are assumed.
    pub(crate) fn levels(&self) -> u32 {
        levels_in(&self.trues)
    }

    /// Leaves the literals up to the level.
    pub(crate) fn back_to(&mut self, level: u32) {
        let kept = kept_in(&self.trues, level);
        self.trues.truncate(kept);
    }
}

fn append(trues: &mut Vec<True>, lit: Lit, is_assumed: bool) -> Result<(), AllocError> {
    trues.push(True { lit, is_assumed })?;
    Ok(())
}

fn propagate_over(clauses: &Cnf, trues: &mut Vec<True>) -> Result<bool, AllocError> {
    // Each pass but the last makes a literal true.
    for _pass in 0..u32::MAX {
        let before = trues.len();
        if !pass(clauses, trues)? {
            return Ok(false);
        }
        if trues.len() == before {
            return Ok(true);
        }
    }
    Ok(true)
}

/// Looks at each clause in turn. The answer is whether none is false.
fn pass(clauses: &Cnf, trues: &mut Vec<True>) -> Result<bool, AllocError> {
    for k in 0..clauses.len() {
        match look_at(clauses.at(k), trues) {
            Look::Settled => {}
            Look::Falsified => return Ok(false),
            Look::Unit(lit) => append(trues, lit, false)?,
        }
    }
    Ok(true)
}

fn look_at(clause: &Clause, trues: &[True]) -> Look {
    let mut unit = None;
    for lit in clause.lits() {
        if is_true(trues, *lit) {
            return Look::Settled;
        }
        if !is_true(trues, lit.negation()) {
            if unit.is_some() {
                return Look::Settled;
            }
            unit = Some(*lit);
        }
    }
    match unit {
        None => Look::Falsified,
        Some(lit) => Look::Unit(lit),
    }
}

fn is_true(trues: &[True], lit: Lit) -> bool {
    trues.iter().any(|entry| entry.lit.number() == lit.number())
}

fn level_in(trues: &[True], lit: Lit) -> u32 {
    let mut level = 0_u32;
    for entry in trues {
        if entry.is_assumed {
            level = level.saturating_add(1);
        }
        if entry.lit.number() == lit.number() {
            return level;
        }
    }
    level
}

fn levels_in(trues: &[True]) -> u32 {
    let mut levels = 0_u32;
    for entry in trues {
        if entry.is_assumed {
            levels = levels.saturating_add(1);
        }
    }
    levels
}

/// How many literals there are up to the level.
fn kept_in(trues: &[True], level: u32) -> usize {
    let mut passed = 0_u32;
    for (k, entry) in trues.iter().enumerate() {
        if entry.is_assumed {
            if passed == level {
                return k;
            }
            passed = passed.saturating_add(1);
        }
    }
    trues.len()
}
