// The analysis of a conflict. The false clause is resolved with the reasons of its literals, from the last literal of the
// trail downwards, up to the first clause with a single literal of the last level: the first unique implication point
// (Marques-Silva, Sakallah, IEEE Trans. Computers 48, 1999). The literals of that level are counted as they come and go.

ghost use Rattle.std.specs.Prelude.{◌≡◌, ◌+◌, ◌<◌, ◌≤◌, ◌==◌, true, false, if◌then◌else◌, IfOk, OnOk, MatchOption, length, take, ◌++◌, ◌∷◌, []};
ghost use Rattle.tcl_cnf.specs.Literal.{neg};
ghost use Rattle.tcl_cnf.specs.Clause.{has, put, union, without, IsIncreasing};
ghost use Rattle.tcl_trail.specs.Assignment.{lits_of};
ghost use Rattle.tcl_sat.specs.Analysis.{IsFloor, TellsFront, AreGiven, IsDerived, IsPresent, IsPoint, IsTurned, IsJump, open_one, open_count};

use crate::derivation::Derivation;
use crate::turned::Turned;
use std::alloc::AllocError;
use tcl_cnf::{Lit, Log};
use tcl_trail::Trail;

/// The place of the last assumed literal.
pub(crate) fn floor_of(trail: &Trail) -> Option<u32>
    ensures { MatchOption result (AreGiven trail.now.entries) (λ floor. IsFloor trail.now.entries floor) }
{
    let mut place = trail.len();
    while place > 0 {
        place -= 1;
        if trail.reason_at(place).is_none() {
            return Some(place);
        }
    }
    None
}

/// The level of the last assumed literal: what is true below the floor is of a lower one.
pub(crate) fn level_at(trail: &Trail, floor: u32) -> u32
    requires { IsFloor trail.now.entries floor }
    ensures { TellsFront trail.now.entries floor result }
{
    trail.known();
    trail.level_of(trail.at(floor))
}

/// 1 for a literal that is not false below the floor, and 0 for one that is.
fn count_of(trail: &Trail, _floor: u32, level: u32, lit: Lit) -> usize
    requires { TellsFront trail.now.entries _floor level }
    ensures count { result ≡ open_one (take _floor (lits_of trail.now.entries)) lit }
    ensures few { result ≤ 1 }
{
    if trail.level_of(lit.negation()) < level {
        0
    } else {
        1
    }
}

/// How many of the literals are not false below the floor.
fn open_among(trail: &Trail, floor: u32, level: u32, lits: &[Lit]) -> usize
    requires { TellsFront trail.now.entries floor level }
    ensures { result ≡ open_count (take floor (lits_of trail.now.entries)) lits.now }
{
    let mut count = 0;
    for lit in lits {
        count += count_of(trail, floor, level, *lit);
    }
    count
}

/// Puts the literal into the clause, and counts it where it is not false below the floor. A count that does not fit is
/// answered as one for which there is no memory.
fn put_counted(
    trail: &Trail,
    floor: u32,
    level: u32,
    lit: Lit,
    count: usize,
    derivation: &mut Derivation,
) -> Result<usize, AllocError>
    requires tells { TellsFront trail.now.entries floor level }
    requires count { count ≡ open_count (take floor (lits_of trail.now.entries)) derivation.old.clause }
    ensures put { OnOk result (derivation.new ≡ record derivation.old { clause = put lit derivation.old.clause }) }
    ensures count { IfOk result (λ n. n ≡ open_count (take floor (lits_of trail.now.entries)) derivation.new.clause) }
{
    derivation.known();
    if derivation.has(lit) {
        return Ok(count);
    }
    let Some(more) = count.checked_add(count_of(trail, floor, level, lit)) else {
        return Err(AllocError);
    };
    derivation.put(lit)?;
    Ok(more)
}

/// Puts all literals but this one into the clause, and counts them.
#[tactic(auto, using(tcl_cnf::proofs::ResolutionLemmas::others_more))]
fn put_others_counted(
    trail: &Trail,
    floor: u32,
    level: u32,
    lits: &[Lit],
    lit: Lit,
    count: usize,
    derivation: &mut Derivation,
) -> Result<usize, AllocError>
    requires tells { TellsFront trail.now.entries floor level }
    requires count { count ≡ open_count (take floor (lits_of trail.now.entries)) derivation.old.clause }
    ensures put { OnOk result (derivation.new ≡ record derivation.old { clause = union derivation.old.clause (without lit lits.now) }) }
    ensures count { IfOk result (λ n. n ≡ open_count (take floor (lits_of trail.now.entries)) derivation.new.clause) }
{
    let mut open = count;
    for other in lits {
        open = put_other_counted(trail, floor, level, *other, lit, open, derivation)?;
    }
    Ok(open)
}

/// Puts the literal into the clause, if it is not this one, and counts it.
fn put_other_counted(
    trail: &Trail,
    floor: u32,
    level: u32,
    other: Lit,
    lit: Lit,
    count: usize,
    derivation: &mut Derivation,
) -> Result<usize, AllocError>
    requires tells { TellsFront trail.now.entries floor level }
    requires count { count ≡ open_count (take floor (lits_of trail.now.entries)) derivation.old.clause }
    ensures put { OnOk result (derivation.new ≡ record derivation.old { clause = if other == lit then derivation.old.clause else put other derivation.old.clause }) }
    ensures count { IfOk result (λ n. n ≡ open_count (take floor (lits_of trail.now.entries)) derivation.new.clause) }
{
    if other.number() == lit.number() {
        return Ok(count);
    }
    put_counted(trail, floor, level, other, count, derivation)
}

/// Resolves the clause with the reason of a literal that is true at the floor or above, and counts.
fn resolve_counted(
    trail: &Trail,
    floor: u32,
    level: u32,
    lit: Lit,
    number: u32,
    reason: &[Lit],
    count: usize,
    derivation: &mut Derivation,
) -> Result<usize, AllocError>
    requires tells { TellsFront trail.now.entries floor level }
    requires count { count ≡ open_count (take floor (lits_of trail.now.entries)) derivation.old.clause }
    requires there { has (neg lit) derivation.old.clause ≡ true }
    requires above { has lit (take floor (lits_of trail.now.entries)) ≡ false }
    ensures resolved { OnOk result (derivation.new ≡ record { chain = derivation.old.chain ++ number ∷ []; clause = union (without (neg lit) derivation.old.clause) (without lit reason.now) }) }
    ensures count { IfOk result (λ n. n ≡ open_count (take floor (lits_of trail.now.entries)) derivation.new.clause) }
{
    derivation.known();
    let left = count - 1;
    derivation.cancel(lit, number)?;
    put_others_counted(trail, floor, level, reason, lit, left, derivation)
}

/// Looks at the literal at this place of the trail. Where its negation is in the clause, it is the point, or its reason
/// replaces it.
fn turn(
    log: &Log,
    trail: &Trail,
    floor: u32,
    level: u32,
    place: u32,
    count: usize,
    derivation: &mut Derivation,
) -> Result<Turned, AllocError>
    requires agree { log.now.clauses ≡ trail.now.clauses }
    requires floor { IsFloor trail.now.entries floor }
    requires tells { TellsFront trail.now.entries floor level }
    requires above { floor ≤ place }
    requires within { place < length trail.now.entries }
    requires present { IsPresent trail.now.clauses trail.now.entries derivation.old floor (place + 1) }
    requires count { count ≡ open_count (take floor (lits_of trail.now.entries)) derivation.old.clause }
    ensures { IfOk result (λ turned. IsTurned trail.now.clauses trail.now.entries derivation.new floor place turned) }
{
    trail.known();
    derivation.known();
    let lit = trail.at(place);
    let negated = lit.negation();
    if !derivation.has(negated) {
        return Ok(Turned::Further(count));
    }
    if count == 1 {
        return Ok(Turned::Point(negated));
    }
    let Some(number) = trail.reason_at(place) else {
        unreachable!()
    };
    let reason = log.clause(number);
    let next = resolve_counted(
        trail,
        floor,
        level,
        lit,
        number,
        reason.lits(),
        count,
        derivation,
    )?;
    Ok(Turned::Further(next))
}

/// Resolves a false clause of these literals up to the first unique implication point, which is the answer.
pub(crate) fn explain(
    log: &Log,
    trail: &Trail,
    floor: u32,
    level: u32,
    lits: &[Lit],
    derivation: &mut Derivation,
) -> Result<Lit, AllocError>
    requires agree { log.now.clauses ≡ trail.now.clauses }
    requires floor { IsFloor trail.now.entries floor }
    requires tells { TellsFront trail.now.entries floor level }
    requires lits { lits.now ≡ derivation.old.clause }
    requires present { IsPresent trail.now.clauses trail.now.entries derivation.old floor (length trail.now.entries) }
    ensures { IfOk result (λ point. IsPoint trail.now.clauses trail.now.entries derivation.new floor point) }
{
    let mut count = open_among(trail, floor, level, lits);
    let mut place = trail.len();
    while place > floor {
        place -= 1;
        match turn(log, trail, floor, level, place, count, derivation)? {
            Turned::Point(point) => return Ok(point),
            Turned::Further(next) => count = next,
        }
    }
    unreachable!()
}

/// Replaces the literal at this place by its reason, where its negation is in the clause.
fn sink(log: &Log, trail: &Trail, place: u32, derivation: &mut Derivation) -> Result<(), AllocError>
    requires agree { log.now.clauses ≡ trail.now.clauses }
    requires given { AreGiven trail.now.entries }
    requires within { place < length trail.now.entries }
    requires derived { IsDerived trail.now.clauses trail.now.entries derivation.old (place + 1) }
    ensures { OnOk result (IsDerived trail.now.clauses trail.now.entries derivation.new place) }
{
    trail.known();
    let lit = trail.at(place);
    if !derivation.has(lit.negation()) {
        return Ok(());
    }
    let Some(number) = trail.reason_at(place) else {
        unreachable!()
    };
    derivation.resolve(lit, number, log.clause(number))?;
    Ok(())
}

/// Resolves the false clause down to the empty one, where no literal is assumed.
pub(crate) fn sink_all(
    log: &Log,
    trail: &Trail,
    derivation: &mut Derivation,
) -> Result<(), AllocError>
    requires agree { log.now.clauses ≡ trail.now.clauses }
    requires given { AreGiven trail.now.entries }
    requires derived { IsDerived trail.now.clauses trail.now.entries derivation.old (length trail.now.entries) }
    ensures { OnOk result (IsDerived trail.now.clauses trail.now.entries derivation.new 0) }
{
    let mut place = trail.len();
    while place > 0 {
        place -= 1;
        sink(log, trail, place, derivation)?;
    }
    Ok(())
}

/// The greatest level of the other literals.
pub(crate) fn jump_level(trail: &Trail, lits: &[Lit], point: Lit) -> u32
    ensures { IsJump trail.now.entries lits.now point result }
{
    let mut best = 0;
    for lit in lits {
        if lit.number() != point.number() {
            let level = trail.level_of(lit.negation());
            if best < level {
                best = level;
            }
        }
    }
    best
}
