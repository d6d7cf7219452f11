//! A slow, plain model of the rules of the board, over the plan without a split: piece 2 * goal is that of the cut route, the
//! next that of the whole route.

use crate::steps::{Said, Step};
use std::alloc::{AllocError, Global};
use tcl_goals::Verdict;
use tcl_list::Listing;

// More goals than a program of the tests has.
const GOALS_BELOW: u32 = 1000;

#[derive(Clone, Copy, PartialEq, Eq)]
pub(crate) enum Place {
    Unclaimed,
    Held(u32),
    Proved,
    Ended,
    Broken,
    // by a break of this smaller goal
    Strayed(u32),
    Cancelled,
}

#[derive(Clone, Copy, PartialEq, Eq)]
struct GoalState {
    admitted: bool,
    broken: bool,
}

#[derive(Clone, Copy, PartialEq, Eq)]
struct LemmaState {
    level: u32,
    admitted: bool,
}

#[derive(Drop)]
pub(crate) struct Model {
    places: Listing<Place>,
    goals: Listing<GoalState>,
    lemmas: Listing<LemmaState>,
    events: u32,
}

// What is told of a goal.
#[derive(Clone, Copy, PartialEq, Eq)]
pub(crate) enum Known {
    Proved,
    Refuted,
    Spent,
    Strayed(u32),
    Open,
}

impl Model {
    pub(crate) fn begin(alloc: Global, goals: u32) -> Result<Self, AllocError> {
        let mut model = Model {
            places: Listing::new(alloc),
            goals: Listing::new(alloc),
            lemmas: Listing::new(alloc),
            events: 0,
        };
        for _ in 0..goals {
            model.goals.push(GoalState {
                admitted: false,
                broken: false,
            })?;
            model.places.push(Place::Unclaimed)?;
            model.places.push(Place::Unclaimed)?;
        }
        Ok(model)
    }

    fn goal(&self, goal: u32) -> GoalState {
        match self.goals.as_slice().get(goal as usize) {
            Some(state) => *state,
            None => GoalState {
                admitted: false,
                broken: false,
            },
        }
    }

    fn is_settled(&self, goal: u32) -> bool {
        let state = self.goal(goal);
        state.admitted || state.broken
    }

    fn place(&self, piece: u32) -> Place {
        match self.places.as_slice().get(piece as usize) {
            Some(place) => *place,
            None => Place::Cancelled,
        }
    }

    fn put(&mut self, piece: u32, place: Place) {
        if (piece as usize) < self.places.len() {
            self.places.set(piece as usize, place);
        }
        self.count();
    }

    fn count(&mut self) {
        self.events = self.events.saturating_add(1);
    }

    fn put_goal(&mut self, goal: u32, state: GoalState) {
        if (goal as usize) < self.goals.len() {
            self.goals.set(goal as usize, state);
        }
    }

    // the piece that the worker holds
    fn held(&self, worker: u32) -> Option<u32> {
        for k in 0..self.places.len() {
            if self.places.as_slice()[k] == Place::Held(worker) {
                return u32::try_from(k).ok();
            }
        }
        None
    }

    fn next(&self) -> Option<u32> {
        for k in 0..self.places.len() {
            let piece = u32::try_from(k).ok()?;
            if self.place(piece) == Place::Unclaimed && !self.is_settled(piece / 2) {
                return Some(piece);
            }
        }
        None
    }

    fn claim(&mut self, worker: u32) -> Said {
        if worker >= 64 || self.held(worker).is_some() {
            return Said::Nothing;
        }
        let Some(piece) = self.next() else {
            return Said::NoPiece;
        };
        self.put(piece, Place::Held(worker));
        Said::Piece(piece)
    }

    fn poll(&mut self, worker: u32) -> Said {
        let Some(piece) = self.held(worker) else {
            return Said::Nothing;
        };
        if !self.is_settled(piece / 2) {
            return Said::Go;
        }
        self.put(piece, Place::Cancelled);
        Said::Cancelled
    }

    fn prove(&mut self, worker: u32, goal: u32) -> Said {
        let Some(piece) = self.held(worker) else {
            return Said::NotHeld;
        };
        if piece / 2 != goal {
            return Said::Foreign;
        }
        self.put(piece, Place::Proved);
        Said::Taken
    }

    fn break_goal(&mut self, worker: u32, goal: u32) -> Said {
        let Some(piece) = self.held(worker) else {
            return Said::NotHeld;
        };
        if goal > piece / 2 {
            return Said::Foreign;
        }
        let place = if goal == piece / 2 {
            Place::Broken
        } else {
            Place::Strayed(goal)
        };
        self.put(piece, place);
        let state = self.goal(goal);
        if state.broken {
            return Said::Settled;
        }
        self.put_goal(
            goal,
            GoalState {
                admitted: state.admitted,
                broken: true,
            },
        );
        Said::Taken
    }

    fn end(&mut self, worker: u32) -> Said {
        let Some(piece) = self.held(worker) else {
            return Said::NotHeld;
        };
        self.put(piece, Place::Ended);
        Said::Taken
    }

    fn lemma(&mut self, worker: u32, level: u32) -> Result<Said, AllocError> {
        if self.held(worker).is_none() {
            return Ok(Said::NotHeld);
        }
        if self.lemmas.len() >= 512 {
            return Ok(Said::Full);
        }
        self.lemmas.push(LemmaState {
            level,
            admitted: false,
        })?;
        self.count();
        Ok(Said::Taken)
    }

    fn lemma_citing(&mut self, worker: u32, level: u32, number: u32) -> Result<Said, AllocError> {
        if self.held(worker).is_none() {
            return Ok(Said::NotHeld);
        }
        match self.lemmas.as_slice().get(number as usize) {
            Some(state) if state.admitted && state.level == level => self.lemma(worker, level),
            _ => Ok(Said::Foreign),
        }
    }

    fn foreign(&self, worker: u32) -> Said {
        if self.held(worker).is_some() {
            Said::Foreign
        } else {
            Said::NotHeld
        }
    }

    fn admit_goal(&mut self, goal: u32) -> Said {
        if goal as usize >= self.goals.len() || goal >= GOALS_BELOW || self.is_settled(goal) {
            return Said::No;
        }
        if self.place(2 * goal) != Place::Proved && self.place(2 * goal + 1) != Place::Proved {
            return Said::No;
        }
        self.put_goal(
            goal,
            GoalState {
                admitted: true,
                broken: false,
            },
        );
        self.count();
        Said::Yes
    }

    fn admit_lemma(&mut self, number: u32) -> Said {
        let k = number as usize;
        if k >= self.lemmas.len() || self.lemmas.as_slice()[k].admitted {
            return Said::No;
        }
        let level = self.lemmas.as_slice()[k].level;
        self.lemmas.set(
            k,
            LemmaState {
                level,
                admitted: true,
            },
        );
        self.count();
        Said::Yes
    }

    // What the rules say to a step.
    pub(crate) fn said_to(&mut self, step: Step) -> Result<Said, AllocError> {
        match step {
            Step::Claim(worker) => Ok(self.claim(worker)),
            Step::Poll(worker) => Ok(self.poll(worker)),
            Step::Prove(worker, goal) => Ok(self.prove(worker, goal)),
            Step::Break(worker, goal) => Ok(self.break_goal(worker, goal)),
            Step::End(worker) => Ok(self.end(worker)),
            Step::Lemma(worker, level) => self.lemma(worker, level),
            Step::LemmaWithCube(worker, _) => Ok(self.foreign(worker)),
            Step::LemmaCiting(worker, level, number) => self.lemma_citing(worker, level, number),
            Step::GoalAsLemma(worker, _) => Ok(self.foreign(worker)),
            Step::AdmitGoal(goal) => Ok(self.admit_goal(goal)),
            Step::AdmitLemma(number) => Ok(self.admit_lemma(number)),
        }
    }

    pub(crate) fn events(&self) -> u32 {
        self.events
    }

    pub(crate) fn lemma_count(&self) -> usize {
        self.lemmas.len()
    }

    // How many admitted lemmas have a level of at most this goal.
    pub(crate) fn usable_lemmas(&self, goal: u32) -> u32 {
        let mut usable: u32 = 0;
        for state in self.lemmas.as_slice() {
            if state.admitted && state.level <= goal {
                usable = usable.saturating_add(1);
            }
        }
        usable
    }

    pub(crate) fn verdict(&self) -> Verdict {
        let mut verdict = Verdict::Verified;
        for state in self.goals.as_slice() {
            if state.broken {
                return Verdict::Refuted;
            }
            if !state.admitted {
                verdict = Verdict::Unproved;
            }
        }
        verdict
    }

    // The cause of a piece.
    fn cause(&self, piece: u32) -> Option<Known> {
        match self.place(piece) {
            Place::Ended => Some(Known::Spent),
            Place::Strayed(goal) => Some(Known::Strayed(goal)),
            _ => None,
        }
    }

    pub(crate) fn known(&self, goal: u32) -> Known {
        let state = self.goal(goal);
        if state.admitted {
            return Known::Proved;
        }
        if state.broken {
            return Known::Refuted;
        }
        if goal >= GOALS_BELOW {
            return Known::Open;
        }
        match self.cause(2 * goal + 1) {
            Some(known) => known,
            None => match self.cause(2 * goal) {
                Some(known) => known,
                None => Known::Open,
            },
        }
    }
}
