// Minimization of a learnt clause: a literal is resolved away where its negation follows from the negations of others by
// reasons (Sörensson, Biere, SAT 2009).
//
// From each literal of the clause the reasons are followed downwards, depth first. A literal whose level no literal of the
// clause has cannot follow. Those that follow are listed behind all that they follow from, so that in the other direction
// none is brought back once it was resolved away. That the list is right is no matter of truth: any literal that is true
// below the floor may be resolved away, at any time.

ghost use Rattle.std.specs.Prelude.{◌≡◌, ◌<◌, ◌≤◌, OnOk, length};
ghost use Rattle.tcl_sat.specs.Analysis.{TellsFront, IsPoint};

use crate::derivation::Derivation;
use std::alloc::{AllocError, Global};
use tcl_cnf::{Lit, Log};
use tcl_trail::Trail;

/// What is known of a true literal.
#[derive(Clone, Copy)]
enum State {
    Unknown,
    // Its negation is in the clause, and its reason was not followed yet.
    Waiting,
    // Its negation is in the clause, and stays there as far as is known.
    Kept,
    // It follows from the negations of the clause's other literals.
    Follows,
    // It does not follow.
    Blocked,
}

/// A literal whose reason is being followed, from this place of it on.
#[derive(Clone, Copy)]
struct Frame {
    lit: Lit,
    from: usize,
}

/// What is next in a reason.
#[derive(Clone, Copy)]
enum Next {
    // Nothing: all its other literals follow.
    Done,
    // One of its literals does not follow.
    Stuck,
    // This literal has to follow, before the reason goes on at this place.
    Cause(Lit, usize),
}

/// The tables of the minimization, which serve all conflicts of a search.
#[derive(Drop)]
pub(crate) struct Minimizer {
    // by the numbers of literals
    states: Vec<State>,
    // the literals with a state
    touched: Vec<Lit>,
    frames: Vec<Frame>,
    // the literals that follow, behind those that they follow from
    following: Vec<Lit>,
    // a bit for each level of a literal of the clause, modulo 64
    levels: u64,
}

impl Minimizer {
    pub(crate) fn new(alloc: Global) -> Minimizer {
        Minimizer {
            states: Vec::new(alloc),
            touched: Vec::new(alloc),
            frames: Vec::new(alloc),
            following: Vec::new(alloc),
            levels: 0,
        }
    }

    /// Resolves literals below the floor away, by their reasons.
    pub(crate) fn minimize(
        &mut self,
        log: &Log,
        trail: &Trail,
        floor: u32,
        level: u32,
        point: Lit,
        derivation: &mut Derivation,
    ) -> Result<(), AllocError>
        requires agree { log.now.clauses ≡ trail.now.clauses }
        requires within { floor ≤ length trail.now.entries }
        requires tells { TellsFront trail.now.entries floor level }
        requires point { IsPoint trail.now.clauses trail.now.entries derivation.old floor point }
        ensures { OnOk result (IsPoint trail.now.clauses trail.now.entries derivation.new floor point) }
    {
        self.find(log, trail, point, derivation)?;
        let mut count = self.following.len();
        while count > 0 {
            count -= 1;
            let lit = self.following[count];
            drop_lit(log, trail, floor, level, point, lit, derivation)?;
        }
        Ok(())
    }

    /// Lists the literals that follow from the negations of the clause's literals but the point.
    fn find(
        &mut self,
        log: &Log,
        trail: &Trail,
        point: Lit,
        derivation: &Derivation,
    ) -> Result<(), AllocError> {
        self.clear(trail)?;
        for lit in derivation.seen() {
            if derivation.has(*lit) && lit.number() != point.number() {
                self.admit(trail, lit.negation())?;
            }
        }
        for lit in derivation.seen() {
            self.follow(log, trail, lit.negation())?;
        }
        Ok(())
    }

    /// Forgets the last conflict, and makes room for each literal. Level 0 is always among those of the clause.
    fn clear(&mut self, trail: &Trail) -> Result<(), AllocError> {
        forget(&mut self.states, &self.touched);
        self.touched.clear();
        self.frames.clear();
        self.following.clear();
        self.levels = 1;
        let len = 2 * trail.variables() as usize;
        if self.states.len() < len {
            self.states.resize(len, State::Unknown)?;
        }
        Ok(())
    }

    /// Takes in that the negation of the literal is in the clause.
    fn admit(&mut self, trail: &Trail, lit: Lit) -> Result<(), AllocError> {
        let state = match trail.reason(lit) {
            None => State::Kept,
            Some(_) => State::Waiting,
        };
        self.set(lit, state)?;
        self.levels |= bit_of(trail.level_of(lit));
        Ok(())
    }

    /// Gives the literal a state.
    fn set(&mut self, lit: Lit, state: State) -> Result<(), AllocError> {
        self.touched.push(lit)?;
        put_state(&mut self.states, lit, state);
        Ok(())
    }

    /// Follows the reason of a literal that waits, and all that it depends on.
    fn follow(&mut self, log: &Log, trail: &Trail, lit: Lit) -> Result<(), AllocError> {
        if !matches!(state_of(&self.states, lit), State::Waiting) {
            return Ok(());
        }
        self.enter(lit)?;
        for _step in 0..u64::MAX {
            let Some(Frame { lit, from }) = self.frames.pop() else {
                return Ok(());
            };
            self.step(log, trail, lit, from)?;
        }
        Ok(())
    }

    /// Starts with the reason of a literal.
    fn enter(&mut self, lit: Lit) -> Result<(), AllocError> {
        if matches!(state_of(&self.states, lit), State::Waiting) {
            put_state(&mut self.states, lit, State::Kept);
        }
        self.frames.push(Frame { lit, from: 0 })?;
        Ok(())
    }

    /// Goes on with the reason of a literal, from this place of it on.
    fn step(&mut self, log: &Log, trail: &Trail, lit: Lit, from: usize) -> Result<(), AllocError> {
        match self.next_of(log, trail, lit, from) {
            Next::Done => {
                self.set(lit, State::Follows)?;
                self.following.push(lit)?;
            }
            Next::Stuck => self.block(lit)?,
            Next::Cause(cause, from) => {
                self.frames.push(Frame { lit, from })?;
                self.enter(cause)?;
            }
        }
        Ok(())
    }

    /// What is next in the reason of a literal, from this place of it on.
    fn next_of(&self, log: &Log, trail: &Trail, lit: Lit, from: usize) -> Next {
        let Some(number) = trail.reason(lit) else {
            return Next::Stuck;
        };
        if number as usize >= log.len() {
            return Next::Stuck;
        }
        let lits = log.clause(number).lits();
        for k in from..lits.len() {
            if lits[k].number() == lit.number() {
                continue;
            }
            let cause = lits[k].negation();
            match state_of(&self.states, cause) {
                State::Kept => {}
                State::Follows => {}
                State::Waiting => return Next::Cause(cause, k + 1),
                State::Blocked => return Next::Stuck,
                State::Unknown => {
                    return if self.may_follow(trail, cause) {
                        Next::Cause(cause, k + 1)
                    } else {
                        Next::Stuck
                    };
                }
            }
        }
        Next::Done
    }

    /// Whether the literal has a reason, and a level of the clause's literals.
    fn may_follow(&self, trail: &Trail, lit: Lit) -> bool {
        trail.reason(lit).is_some() && self.levels & bit_of(trail.level_of(lit)) != 0
    }

    /// Takes in that the literal does not follow, and so none of those that wait for it, down to one of the clause.
    fn block(&mut self, lit: Lit) -> Result<(), AllocError> {
        if matches!(state_of(&self.states, lit), State::Kept) {
            return Ok(());
        }
        self.set(lit, State::Blocked)?;
        for _frame in 0..self.frames.len() {
            let Some(
                Frame {
                    lit: waiting,
                    from: _,
                },
            ) = self.frames.pop()
            else {
                return Ok(());
            };
            if matches!(state_of(&self.states, waiting), State::Kept) {
                return Ok(());
            }
            self.set(waiting, State::Blocked)?;
        }
        Ok(())
    }
}

/// A bit for a level, modulo 64.
fn bit_of(level: u32) -> u64 {
    1 << (level % 64)
}

/// The state of the literal.
fn state_of(states: &[State], lit: Lit) -> State {
    let place = lit.number() as usize;
    if place < states.len() {
        states[place]
    } else {
        State::Blocked
    }
}

/// Takes the states of these literals away.
fn forget(states: &mut [State], lits: &[Lit]) {
    for lit in lits {
        put_state(states, *lit, State::Unknown);
    }
}

/// Gives the literal a state, where the table has a place for it.
fn put_state(states: &mut [State], lit: Lit, state: State) {
    let place = lit.number() as usize;
    if place < states.len() {
        states[place] = state;
    }
}

/// Resolves the clause with the reason of the literal, where that is true below the floor and its negation is in the clause.
fn drop_lit(
    log: &Log,
    trail: &Trail,
    _floor: u32,
    level: u32,
    _point: Lit,
    lit: Lit,
    derivation: &mut Derivation,
) -> Result<(), AllocError>
    requires agree { log.now.clauses ≡ trail.now.clauses }
    requires tells { TellsFront trail.now.entries _floor level }
    requires point { IsPoint trail.now.clauses trail.now.entries derivation.old _floor _point }
    ensures { OnOk result (IsPoint trail.now.clauses trail.now.entries derivation.new _floor _point) }
{
    trail.known();
    if !derivation.has(lit.negation()) {
        return Ok(());
    }
    if !(trail.level_of(lit) < level) {
        return Ok(());
    }
    let Some(number) = trail.reason(lit) else {
        return Ok(());
    };
    derivation.resolve(lit, number, log.clause(number))?;
    Ok(())
}
