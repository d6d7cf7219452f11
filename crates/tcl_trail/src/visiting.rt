// Visits the clauses that watch a literal which became false.

ghost use Rattle.std.specs.Prelude.{◌≡◌, ℕ, ◌+◌, ◌<◌, ◌≤◌, MatchBool, MatchOption, true, false, Some, None, length, slice_get, List, [], ◌∷◌, ◌++◌};
ghost use Rattle.tcl_cnf.specs.Clause.{has, without};
ghost use Rattle.tcl_cnf.specs.Propagation.{is_false};
ghost use Rattle.tcl_trail.specs.Assignment.{lits_of};
ghost use Rattle.tcl_trail.specs.Trail.{IsStep};
ghost use Rattle.tcl_trail.specs.Watching.{listed, IsHeld, IsWatching, IsNext, IsLastLevel, AreVisited, IsFree, AreFalseBetween};
ghost use Rattle.tcl_trail.specs.Visits.{IsOther, HasNoOther, Visits, IsVisit, IsGiven, GivesFalse, Drains, IsDrain, IsRound, IsVisited, state_of};

use crate::assigned::Assigned;
use crate::entry::Entry;
use crate::pair::{Free, Pair};
use crate::propagation::{Drain, Pass, Visit};
use crate::scanning::{append, pass, pass_shorts};
use crate::step::Step;
use crate::watching::Watching;
use tcl_cnf::{Clause, Lit};

/// The other watched literal.
fn other_of(pair: Pair, lit: Lit) -> Option<Lit>
    ensures { MatchOption result (HasNoOther pair lit) (λ other. IsOther pair lit other) }
{
    if pair.first.number() == pair.second.number() {
        None
    } else if pair.first.number() == lit.number() {
        Some(pair.second)
    } else if pair.second.number() == lit.number() {
        Some(pair.first)
    } else {
        None
    }
}

/// A literal of these, another one than this, that is not false. The search begins at this place and goes round.
#[tactic(auto, using(crate::proofs::VisitLemmas::round_false))]
fn free_lit(assigned: &Assigned, lits: &[Lit], other: Lit, from: usize) -> Option<Free>
    ensures { MatchOption result (is_false (lits_of assigned.now.entries) (without other lits.now) ≡ true) (λ free. IsFree (lits_of assigned.now.entries) lits.now other free.lit) }
{
    let start = from.min(lits.len());
    match free_between(assigned, lits, other, start, lits.len()) {
        Some(free) => Some(free),
        None => free_between(assigned, lits, other, 0, start),
    }
}

/// The first such literal from one place up to another.
fn free_between(
    assigned: &Assigned,
    lits: &[Lit],
    other: Lit,
    from: usize,
    to: usize,
) -> Option<Free>
    requires { to ≤ length lits.now }
    ensures { MatchOption result (AreFalseBetween (lits_of assigned.now.entries) lits.now other from to) (λ free. IsFree (lits_of assigned.now.entries) lits.now other free.lit) }
{
    for k in from..to {
        let lit = lits[k];
        if lit.number() != other.number() && !assigned.is_true(lit.negation()) {
            let place = u32::try_from(k).unwrap_or(0);
            return Some(Free { lit, place });
        }
    }
    None
}

/// Makes the last literal of a clause true whose other literals are false. Where that one is false, too, the answer is
/// `false`.
fn give(clauses: &[Clause], assigned: &mut Assigned, number: u32, lit: Lit) -> bool
    requires held { IsHeld clauses.now assigned.old }
    requires clause { IsGiven clauses.now (lits_of assigned.old.entries) number lit }
    requires fresh { has lit (lits_of assigned.old.entries) ≡ false }
    ensures held { IsHeld clauses.now assigned.new }
    ensures given { MatchBool result (assigned.new.entries ≡ assigned.old.entries ++ record { lit = lit; reason = Some number } ∷ []) (GivesFalse clauses.now assigned.old assigned.new number) }
{
    if assigned.is_true(lit.negation()) {
        return false;
    }
    append(
        clauses,
        assigned,
        Entry {
            lit,
            reason: Some(number),
        },
    );
    true
}

/// Visits the clause at this place of the literal's list.
fn visit_at(
    clauses: &[Clause],
    assigned: &mut Assigned,
    watching: &mut Watching,
    lit: Lit,
    i: usize,
) -> Visit
    requires held { IsHeld clauses.now assigned.old }
    requires watching { IsWatching clauses.now assigned.old.entries watching.old }
    requires next { IsNext assigned.old.entries watching.old.head lit }
    requires visited { AreVisited clauses.now watching.old assigned.old.entries lit i }
    requires within { i < length (listed watching.old.lists lit) }
    ensures visits { Visits clauses.now assigned.old assigned.new watching.old watching.new }
    ensures visit { IsVisit clauses.now assigned.new watching.old watching.new lit i result }
{
    let seen = watching.watch_at(lit, i);
    if assigned.is_true(seen.blocker) {
        return Visit::Kept;
    }
    let number = seen.number;
    let k = number as usize;
    if k >= clauses.len() {
        return Visit::Kept;
    }
    let Some(pair) = watching.pair(k) else {
        return Visit::Kept;
    };
    let start = pair.from as usize;
    let Some(other) = other_of(pair, lit) else {
        return Visit::Kept;
    };
    if assigned.is_true(other) {
        watching.reblock(lit, i, number, other);
        return Visit::Kept;
    }
    let clause = &clauses[k];
    match free_lit(assigned, clause.lits(), other, start) {
        Some(free) => {
            let next = Pair {
                first: free.lit,
                second: other,
                from: free.place,
            };
            if watching.rewatch(lit, i, number, free.lit, next) {
                Visit::Moved
            } else {
                Visit::Stuck
            }
        }
        None => {
            if give(clauses, assigned, number, other) {
                Visit::Kept
            } else {
                Visit::Conflict(number)
            }
        }
    }
}

/// The first place of the literal's list from this one on where the blocker is not true, or the end of the list. A clause
/// whose blocker is true is not looked at.
fn skip_blocked(
    _clauses: &[Clause],
    assigned: &Assigned,
    watching: &Watching,
    lit: Lit,
    from: usize,
) -> usize
    requires watching { IsWatching _clauses.now assigned.now.entries watching.now }
    requires next { IsNext assigned.now.entries watching.now.head lit }
    requires visited { AreVisited _clauses.now watching.now assigned.now.entries lit from }
    ensures visited { AreVisited _clauses.now watching.now assigned.now.entries lit result }
    ensures onward { from ≤ result }
{
    let mut i = from;
    'blocked: while i < watching.count(lit) {
        let watch = watching.watch_at(lit, i);
        if !assigned.is_true(watch.blocker) {
            return i;
        }
        i += 1;
    }
    i
}

/// Visits all clauses that watch the literal.
fn visit_all(
    clauses: &[Clause],
    assigned: &mut Assigned,
    watching: &mut Watching,
    lit: Lit,
) -> Drain
    requires held { IsHeld clauses.now assigned.old }
    requires watching { IsWatching clauses.now assigned.old.entries watching.old }
    requires next { IsNext assigned.old.entries watching.old.head lit }
    ensures drains { Drains clauses.now assigned.old assigned.new watching.new }
    ensures drain { IsVisited clauses.now assigned.new watching.old watching.new result }
{
    let mut i = 0;
    'visits: while i < watching.count(lit) {
        match visit_at(clauses, assigned, watching, lit, i) {
            Visit::Kept => i = skip_blocked(clauses, assigned, watching, lit, i + 1),
            Visit::Moved => {}
            Visit::Conflict(number) => return Drain::Conflict(number),
            Visit::Stuck => return Drain::Stuck,
        }
    }
    watching.advance();
    Drain::Done
}

/// Sees all entries that were not seen.
fn drain(clauses: &[Clause], assigned: &mut Assigned, watching: &mut Watching) -> Drain
    requires held { IsHeld clauses.now assigned.old }
    requires watching { IsWatching clauses.now assigned.old.entries watching.old }
    requires last { IsLastLevel assigned.old.entries watching.old.head }
    ensures drains { Drains clauses.now assigned.old assigned.new watching.new }
    ensures drain { IsDrain clauses.now assigned.new watching.new result }
{
    'entries: while watching.head() < assigned.len() {
        let lit = assigned.at(watching.head()).lit.negation();
        match visit_all(clauses, assigned, watching, lit) {
            Drain::Done => {}
            Drain::Conflict(number) => return Drain::Conflict(number),
            Drain::Stuck => return Drain::Stuck,
        }
    }
    Drain::Done
}

/// Whether no entry behind this one is assumed.
fn is_last_level(assigned: &Assigned, head: usize) -> bool
    ensures { MatchBool result (IsLastLevel assigned.now.entries head) Unit }
{
    for k in head..assigned.len() {
        if k > head && assigned.at(k).reason.is_none() {
            return false;
        }
    }
    true
}

/// Sees all entries, and looks at the clauses that are not watched; or looks at all clauses.
fn round(clauses: &[Clause], assigned: &mut Assigned, watching: &mut Watching) -> Pass
    requires held { IsHeld clauses.now assigned.old }
    requires watching { IsWatching clauses.now assigned.old.entries watching.old }
    ensures drains { Drains clauses.now assigned.old assigned.new watching.new }
    ensures round { IsRound (state_of clauses.now assigned.old) (state_of clauses.now assigned.new) result }
{
    if !is_last_level(assigned, watching.head()) {
        return pass(clauses, assigned);
    }
    match drain(clauses, assigned, watching) {
        Drain::Conflict(number) => Pass::Stopped(number),
        Drain::Stuck => pass(clauses, assigned),
        Drain::Done => pass_shorts(clauses, assigned, watching),
    }
}

/// Makes literals true until no clause is unit or one is false.
pub(crate) fn propagate(
    clauses: &[Clause],
    assigned: &mut Assigned,
    watching: &mut Watching,
) -> Step
    requires held { IsHeld clauses.now assigned.old }
    requires watching { IsWatching clauses.now assigned.old.entries watching.old }
    ensures drains { Drains clauses.now assigned.old assigned.new watching.new }
    ensures step { IsStep clauses.now (lits_of assigned.new.entries) result }
{
    'rounds: loop {
        match round(clauses, assigned, watching) {
            Pass::Closed => return Step::Quiet,
            Pass::Stopped(number) => return Step::Conflict(number),
            Pass::Moved => {}
        }
    }
}
