// How a search goes down: literals are assumed and propagated until a clause is false or each variable has a value.

ghost use Rattle.std.specs.Prelude.{◌≡◌, ◌/◌, ◌<◌, None, MatchOption, IfSome};
ghost use Rattle.tcl_trail.specs.Assignment.{lits_of, value_in};
ghost use Rattle.tcl_trail.specs.Trail.{variable_count};
ghost use Rattle.tcl_sat.specs.State.{WasQuiet, AreValued, IsEnd};

use crate::order::Order;
use tcl_cnf::Lit;
use tcl_trail::{Step, Trail};

/// The end of a descent.
#[derive(Clone, Copy)]
pub(crate) enum Descent {
    // The clause of this number is false.
    Conflict(u32),
    // Each variable has a value, and no clause is false.
    Valued,
}

/// A literal that has no value, or none where each variable has one.
fn pick(trail: &Trail, order: &mut Order) -> Option<Lit>
    ensures { MatchOption result (AreValued trail.now) (λ lit. (lit / 2 < variable_count trail.now.clauses) × (value_in (lits_of trail.now.entries) lit ≡ None)) }
{
    match next_in_order(trail, order) {
        Some(lit) => Some(lit),
        None => first_unvalued(trail),
    }
}

/// The next literal in the order that has no value, if there is one.
fn next_in_order(trail: &Trail, order: &mut Order) -> Option<Lit>
    ensures { IfSome result (λ lit. (lit / 2 < variable_count trail.now.clauses) × (value_in (lits_of trail.now.entries) lit ≡ None)) }
{
    trail.known();
    for _place in 0..order.len() {
        let variable = order.pop()?;
        if variable < trail.variables() {
            let lit = order.literal(variable);
            if trail.value(lit).is_none() {
                return Some(lit);
            }
        }
    }
    None
}

/// The first variable that has no value, if there is one.
fn first_unvalued(trail: &Trail) -> Option<Lit>
    ensures { MatchOption result (AreValued trail.now) (λ lit. (lit / 2 < variable_count trail.now.clauses) × (value_in (lits_of trail.now.entries) lit ≡ None)) }
{
    trail.known();
    for variable in 0..trail.variables() {
        let lit = Lit::of(variable);
        if trail.value(lit).is_none() {
            return Some(lit);
        }
    }
    None
}

/// Assumes and propagates literals.
pub(crate) fn descend(trail: &mut Trail, order: &mut Order) -> Descent
    requires quiet { WasQuiet trail.old.clauses trail.old.entries }
    ensures clauses { trail.new.clauses ≡ trail.old.clauses }
    ensures quiet { WasQuiet trail.new.clauses trail.new.entries }
    ensures end { IsEnd trail.new result }
{
    'levels: loop {
        if let Step::Conflict(number) = trail.propagate() {
            return Descent::Conflict(number);
        }
        let Some(lit) = pick(trail, order) else {
            return Descent::Valued;
        };
        trail.assume(lit);
        trail.known();
    }
}
