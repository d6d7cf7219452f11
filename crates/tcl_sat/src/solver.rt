// The search: rounds of conflicts, from each of which one clause is learnt.

ghost use Rattle.std.specs.Prelude.{◌≡◌, ◌==◌, ◌<◌, ◌≤◌, if◌then◌else◌, None, Ok, IfOk, IfSome, OnOk, OnErr, length};
ghost use Rattle.tcl_cnf.specs.Propagation.{ConflictsAtOnce};
ghost use Rattle.tcl_port.specs.Polling.{counted, Rose};
ghost use Rattle.tcl_sat.specs.Found.{IsFound, IsDecided, IsPolled, IsStopped};
ghost use Rattle.tcl_sat.specs.State.{IsState, IsBegun, IsTurn, IsRunEnd, IsRunStopped, IsRunBounded};

use crate::descent::{self, Descent};
use crate::found::Found;
use crate::learning::{self, Learner};
use crate::values;
use std::alloc::{AllocError, Global};
use tcl_cnf::{Cnf, Log};
use tcl_port::{Poll, Port};
use tcl_trail::Trail;

/// What going down to the next conflict did.
#[derive(Clone, Copy)]
pub(crate) enum Turn {
    // A clause was learnt.
    Learnt,
    // The empty clause was derived.
    Emptied,
    // Each variable has a value, and no clause is false.
    Met,
}

/// How the rounds end.
#[derive(Clone, Copy)]
pub(crate) enum End {
    Refuted,
    Satisfied,
    Spent,
    Stopped,
}

/// A search under way.
#[derive(Drop)]
struct Solver {
    log: Log,
    trail: Trail,
    learner: Learner,
}

/// Searches for values that make every clause true, or for a derivation of the empty clause.
///
/// Each conflict logs one clause, and every clause is kept. At most `budget` clauses are derived; the port is polled
/// before each round of at most `round` conflicts.
pub fn search<P: Port>(
    alloc: Global,
    cnf: &Cnf,
    budget: u32,
    round: u32,
    port: &mut P,
) -> Result<Found, AllocError>
    requires budget { 1 ≤ budget }
    requires round { 1 ≤ round }

    ensures found { IfOk result (λ found. IsFound cnf.now budget found) }
    // Where unit propagation alone meets a false clause, there is neither a model nor a spent budget.
    ensures decided { ConflictsAtOnce cnf.now → IfOk result (λ found. IsDecided found) }

    ensures asked { OnOk result (Rose (P.polls port.old) (P.polls port.new)) }
    ensures polled { IfOk result (λ found. IsPolled round (P.polls port.old) (P.polls port.new) found) }
    ensures stopped { IfOk result (λ found. IsStopped (P.cancels port.old) (P.cancels port.new) found) }
    ensures memory { OnErr result (P.cancels port.new ≡ P.cancels port.old) }
{
    let mut solver = Solver::begin(alloc, cnf)?;
    let variables = solver.trail.variables();
    solver.trail.known();
    match solver.run(budget, round, port)? {
        End::Refuted => Ok(Found::Refutes(solver.into_log())),
        End::Satisfied => {
            solver.trail.known();
            let bits = values::bits_of(alloc, &solver.trail, variables)?;
            Ok(Found::Model(bits))
        }
        End::Spent => Ok(Found::Spent(solver.into_log())),
        End::Stopped => Ok(Found::Stopped),
    }
}

impl Solver {
    /// Nothing is learnt yet.
    fn begin(alloc: Global, cnf: &Cnf) -> Result<Solver, AllocError>
        ensures { IfOk result (λ solver. IsBegun cnf.now solver.log solver.trail) }
    {
        let log = Log::begin(cnf.copy()?);
        let trail = Trail::new(alloc, cnf)?;
        let learner = Learner::new(alloc, trail.variables())?;
        Ok(Solver {
            log,
            trail,
            learner,
        })
    }

    /// Gives up the log.
    fn into_log(self) -> Log
        ensures { result ≡ self.log }
    {
        let Solver {
            log,
            trail: _,
            learner: _,
        } = self;
        log
    }

    /// Goes on from conflict to conflict, as long as budget and port allow.
    fn run<P: Port>(&mut self, budget: u32, round: u32, port: &mut P) -> Result<End, AllocError>
        requires budget { 1 ≤ budget }
        requires round { 1 ≤ round }
        requires state { IsState self.old.log self.old.trail }
        requires begun { self.old.log.given ≡ length self.old.log.clauses }
        ensures end { IfOk result (λ end. IsRunEnd self.old.log.clauses budget self.new.log self.new.trail end) }
        ensures asked { OnOk result (Rose (P.polls port.old) (P.polls port.new)) }
        ensures bounded { IfOk result (λ end. IsRunBounded round (P.polls port.old) (P.polls port.new) self.new.log end) }
        ensures stopped { IfOk result (λ end. IsRunStopped (P.cancels port.old) (P.cancels port.new) end) }
        ensures memory { OnErr result (P.cancels port.new ≡ P.cancels port.old) }
    {
        let mut left = 0;
        for learnt in 0..budget {
            let Some(allowed) = conflicts_allowed(port, left, round) else {
                return Ok(End::Stopped);
            };
            match self.next_conflict()? {
                Turn::Learnt => {}
                Turn::Emptied => return Ok(End::Refuted),
                Turn::Met => return Ok(End::Satisfied),
            }
            left = allowed - 1;
        }
        Ok(End::Spent)
    }

    /// Goes down to the next conflict, and learns from it.
    fn next_conflict(&mut self) -> Result<Turn, AllocError>
        requires { IsState self.old.log self.old.trail }
        ensures { IfOk result (λ turn. IsTurn self.old.log self.new.log self.new.trail turn) }
    {
        self.start_again()?;
        let Descent::Conflict(number) = descent::descend(&mut self.trail, &mut self.learner.order)
        else {
            return Ok(Turn::Met);
        };
        if learning::learn(&mut self.log, &mut self.trail, &mut self.learner, number)? {
            Ok(Turn::Learnt)
        } else {
            Ok(Turn::Emptied)
        }
    }

    /// Takes all assumptions back, where a restart is due.
    fn start_again(&mut self) -> Result<(), AllocError>
        requires { IsState self.old.log self.old.trail }
        ensures log { OnOk result (self.new.log ≡ self.old.log) }
        ensures state { OnOk result (IsState self.new.log self.new.trail) }
    {
        if self.learner.restarts.is_due() {
            learning::release_above(&self.trail, &mut self.learner.order, 0)?;
            self.trail.back_to(0);
        }
        Ok(())
    }
}

/// How many conflicts are allowed before the next poll, where `left` are left of a round; none where the port answers
/// that the search is not wanted any more.
fn conflicts_allowed<P: Port>(port: &mut P, left: u32, round: u32) -> Option<u32>
    ensures polls { P.polls port.new ≡ (if left == 0 then counted (P.polls port.old) else P.polls port.old) }
    ensures go { IfSome result (λ allowed. (allowed ≡ (if left == 0 then round else left)) × (P.cancels port.new ≡ P.cancels port.old)) }
    ensures stop { result ≡ None → (left ≡ 0) × (P.cancels port.new ≡ counted (P.cancels port.old)) }
{
    if left > 0 {
        return Some(left);
    }
    match port.poll() {
        Poll::Go => Some(round),
        Poll::Cancelled => None,
    }
}
