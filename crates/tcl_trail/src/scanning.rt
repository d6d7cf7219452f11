// Looks at clauses one after another.

ghost use Rattle.std.specs.Prelude.{◌≡◌, ℕ, ◌/◌, ◌<◌, true, Some, None, length, slice_get, List, [], ◌∷◌, ◌++◌};
ghost use Rattle.tcl_cnf.specs.Clause.{has};
ghost use Rattle.tcl_trail.specs.Assignment.{lits_of};
ghost use Rattle.tcl_trail.specs.Trail.{IsEntry, variable_count};
ghost use Rattle.tcl_trail.specs.Scan.{look_from, IsLook};
ghost use Rattle.tcl_trail.specs.Turns.{IsTurn, IsPass};
ghost use Rattle.tcl_trail.specs.Watching.{IsHeld};
ghost use Rattle.tcl_trail.specs.Visits.{state_of, IsShortPass};

use crate::assigned::Assigned;
use crate::entry::Entry;
use crate::propagation::{Pass, Turn};
use crate::scan::Look;
use crate::watching::Watching;
use tcl_cnf::{Clause, Lit};

/// What a clause of these literals is.
pub(crate) fn look_over(assigned: &Assigned, lits: &[Lit]) -> Look
    ensures { result ≡ look_from (lits_of assigned.now.entries) None lits.now }
{
    let mut single = None;
    for lit in lits {
        if assigned.is_true(*lit) {
            return Look::Settled;
        }
        if !assigned.is_true(lit.negation()) {
            if single.is_some() {
                return Look::Settled;
            }
            single = Some(*lit);
        }
    }
    match single {
        None => Look::Falsified,
        Some(lit) => Look::Unit(lit),
    }
}

/// What the clause of this number is.
pub(crate) fn look_at(clauses: &[Clause], assigned: &Assigned, k: usize) -> Look
    requires held { IsHeld clauses.now assigned.now }
    requires within { k < length clauses.now }
    ensures { (c : List ℕ) → slice_get clauses.now k ≡ Some c → IsLook (lits_of assigned.now.entries) c result }
{
    let clause = &clauses[k];
    clause.known();
    look_over(assigned, clause.lits())
}

/// Makes a literal true.
pub(crate) fn append(_clauses: &[Clause], assigned: &mut Assigned, entry: Entry)
    requires held { IsHeld _clauses.now assigned.old }
    requires one { IsEntry _clauses.now (lits_of assigned.old.entries) entry }
    requires known { entry.lit / 2 < variable_count _clauses.now }
    ensures held { IsHeld _clauses.now assigned.new }
    ensures entries { assigned.new.entries ≡ assigned.old.entries ++ entry ∷ [] }
{
    assigned.push(entry);
}

/// Looks at the clause of this number, and makes its literal true where it is unit.
pub(crate) fn turn(clauses: &[Clause], assigned: &mut Assigned, k: usize) -> Turn
    requires held { IsHeld clauses.now assigned.old }
    requires within { k < length clauses.now }
    ensures held { IsHeld clauses.now assigned.new }
    ensures turn { IsTurn (state_of clauses.now assigned.old) (state_of clauses.now assigned.new) k result }
{
    match look_at(clauses, assigned, k) {
        Look::Settled => Turn::Settled,
        Look::Falsified => Turn::Falsified,
        Look::Unit(lit) => {
            append(
                clauses,
                assigned,
                Entry {
                    lit,
                    reason: Some(k as u32),
                },
            );
            Turn::Given
        }
    }
}

/// Looks at each clause in turn, up to the first one that is false.
pub(crate) fn pass(clauses: &[Clause], assigned: &mut Assigned) -> Pass
    requires { IsHeld clauses.now assigned.old }
    ensures held { IsHeld clauses.now assigned.new }
    ensures pass { IsPass (state_of clauses.now assigned.old) (state_of clauses.now assigned.new) result }
{
    let mut moved = false;
    for k in 0..clauses.len() {
        match turn(clauses, assigned, k) {
            Turn::Settled => {}
            Turn::Given => moved = true,
            Turn::Falsified => return Pass::Stopped(k as u32),
        }
    }
    if moved { Pass::Moved } else { Pass::Closed }
}

/// Looks at each clause that is not watched.
pub(crate) fn pass_shorts(clauses: &[Clause], assigned: &mut Assigned, watching: &Watching) -> Pass
    requires held { IsHeld clauses.now assigned.old }
    requires below { (k : ℕ) → has k watching.now.shorts ≡ true → k < length clauses.now }
    ensures held { IsHeld clauses.now assigned.new }
    ensures pass { IsShortPass (state_of clauses.now assigned.old) (state_of clauses.now assigned.new) watching.now.shorts result }
{
    let mut moved = false;
    for j in 0..watching.short_count() {
        let number = watching.short_at(j);
        match turn(clauses, assigned, number as usize) {
            Turn::Settled => {}
            Turn::Given => moved = true,
            Turn::Falsified => return Pass::Stopped(number),
        }
    }
    if moved { Pass::Moved } else { Pass::Closed }
}
