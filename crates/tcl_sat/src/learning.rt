// Learning: the clause of a conflict is logged, the trail goes back to where that clause is unit, and gets it.

ghost use Rattle.std.specs.Prelude.{◌≡◌, ◌<◌, IfOk, OnOk, MatchBool, Some, List, ℕ, [], length, slice_get};
ghost use Rattle.tcl_cnf.specs.Resolution.{chain_of};
ghost use Rattle.tcl_trail.specs.Assignment.{lits_of};
ghost use Rattle.tcl_trail.specs.Trail.{IsFalseAt};
ghost use Rattle.tcl_sat.specs.Analysis.{AreGiven, IsFloor, IsPoint};
ghost use Rattle.tcl_sat.specs.State.{IsState, AddsOne, GoesOn};

use crate::analysis;
use crate::derivation::Derivation;
use crate::minimization::Minimizer;
use crate::order::Order;
use crate::restart::Restarts;
use std::alloc::{AllocError, Global};
use tcl_cnf::{Lit, Log, LogFault};
use tcl_trail::Trail;

/// What learning keeps besides the log and the trail: the order of decisions, the lengths of learnt clauses that tell when to
/// start again, and tables that serve all conflicts.
#[derive(Drop)]
pub(crate) struct Learner {
    pub(crate) order: Order,
    pub(crate) restarts: Restarts,
    derivation: Derivation,
    minimizer: Minimizer,
}

impl Learner {
    pub(crate) fn new(alloc: Global, variables: u32) -> Result<Learner, AllocError> {
        Ok(Learner {
            order: Order::new(alloc, variables)?,
            restarts: Restarts::new(),
            derivation: Derivation::new(alloc),
            minimizer: Minimizer::new(alloc),
        })
    }
}

/// Logs what was derived, and answers the number of the new clause.
fn log_derived(log: &mut Log, derivation: &Derivation) -> Result<u32, AllocError>
    requires { chain_of log.old.clauses derivation.now.chain ≡ Some derivation.now.clause }
    ensures added { OnOk result (AddsOne log.old log.new derivation.now.clause) }
    ensures number { IfOk result (λ number. number ≡ length log.old.clauses) }
{
    match log.resolve(derivation.chain()) {
        Ok(number) => Ok(number),
        Err(LogFault::Memory) => Err(AllocError),
        Err(LogFault::Bad) => unreachable!(),
    }
}

/// Derives the empty clause from a false clause, where no literal is assumed.
fn refute(
    log: &mut Log,
    trail: &Trail,
    derivation: &mut Derivation,
    number: u32,
) -> Result<(), AllocError>
    requires agree { log.old.clauses ≡ trail.now.clauses }
    requires given { AreGiven trail.now.entries }
    requires falsified { IsFalseAt trail.now.clauses (lits_of trail.now.entries) number }
    ensures { OnOk result (AddsOne log.old log.new []) }
{
    trail.known();
    derivation.begin(number, log.clause(number))?;
    analysis::sink_all(log, trail, derivation)?;
    log_derived(log, derivation)?;
    Ok(())
}

/// Derives the clause that is learnt from a conflict above the floor, the place of the last assumed literal, and answers the
/// first unique implication point.
fn derive_above(
    log: &Log,
    trail: &Trail,
    learner: &mut Learner,
    number: u32,
    floor: u32,
) -> Result<Lit, AllocError>
    requires state { IsState log.now trail.now }
    requires floor { IsFloor trail.now.entries floor }
    requires falsified { IsFalseAt trail.now.clauses (lits_of trail.now.entries) number }
    ensures { IfOk result (λ point. IsPoint trail.now.clauses trail.now.entries learner.new.derivation floor point) }
{
    trail.known();
    let clause = log.clause(number);
    learner.derivation.begin(number, clause)?;
    let level = analysis::level_at(trail, floor);
    let point = analysis::explain(
        log,
        trail,
        floor,
        level,
        clause.lits(),
        &mut learner.derivation,
    )?;
    learner.order.touch_all(learner.derivation.seen());
    learner
        .minimizer
        .minimize(log, trail, floor, level, point, &mut learner.derivation)?;
    Ok(point)
}

/// Learns the clause of a conflict above the floor.
fn learn_above(
    log: &mut Log,
    trail: &mut Trail,
    learner: &mut Learner,
    number: u32,
    floor: u32,
) -> Result<(), AllocError>
    requires state { IsState log.old trail.old }
    requires floor { IsFloor trail.old.entries floor }
    requires falsified { IsFalseAt trail.old.clauses (lits_of trail.old.entries) number }
    ensures { OnOk result (GoesOn log.old log.new trail.new) }
{
    trail.known();
    let point = derive_above(log, trail, learner, number, floor)?;
    let learnt = log_derived(log, &learner.derivation)?;
    let clause = log.clause(learnt);
    learner.restarts.take_in(clause.len());
    let level = analysis::jump_level(trail, clause.lits(), point);
    release_above(trail, &mut learner.order, level)?;
    trail.back_to(level);
    trail.add(clause)?;
    Ok(())
}

/// Learns from a conflict, at this clause. The answer is whether the search goes on: where no literal is assumed, the
/// empty clause is derived and it ends.
pub(crate) fn learn(
    log: &mut Log,
    trail: &mut Trail,
    learner: &mut Learner,
    number: u32,
) -> Result<bool, AllocError>
    requires state { IsState log.old trail.old }
    requires falsified { IsFalseAt trail.old.clauses (lits_of trail.old.entries) number }
    ensures { IfOk result (λ more. MatchBool more (GoesOn log.old log.new trail.new) (AddsOne log.old log.new [])) }
{
    match analysis::floor_of(trail) {
        None => {
            refute(log, trail, &mut learner.derivation, number)?;
            Ok(false)
        }
        Some(floor) => {
            learn_above(log, trail, learner, number, floor)?;
            Ok(true)
        }
    }
}

/// Gives the variables of the literals above the level back to the order, with their values.
pub(crate) fn release_above(
    trail: &Trail,
    order: &mut Order,
    level: u32,
) -> Result<(), AllocError> {
    let mut place = trail.len();
    while place > 0 {
        place -= 1;
        let lit = trail.at(place);
        if trail.level_of(lit) <= level {
            return Ok(());
        }
        order.release(lit)?;
    }
    Ok(())
}
