//! Pieces of goals, and what is shown of them.

ghost use Rattle.std.specs.Prelude.{◌≡◌, ◌↔◌, IsTrue, IfOk};

use crate::fact::{Cube, Fact};
use std::alloc::{AllocError, Global};
use tcl_lang::Input;
use tcl_list::{Copies, Listing, Same};

/// How much a piece rests on: the slice of the goal, or all that stands before it.
#[derive(Clone, Copy, PartialEq, Eq)]
pub enum Route {
    Cut,
    Whole,
}

/// One piece of a goal, numbered from 0 over all goals of a program. Its cube gives values to the first free bits of its
/// fact.
#[derive(Drop)]
pub struct Piece {
    pub number: u32,
    pub goal: u32,
    pub route: Route,
    pub cube: Cube,
}

/// All pieces in order: by goal, then by route, then by cube.
pub type Plan = Listing<Piece>;

/// What evidence shows: a fact, or an input that refutes the goal of a number.
pub enum Shown {
    Fact(Fact),
    Breaks(u32, Input),
}

impl Drop for Shown {
    fn drop(self) {
        match self {
            Shown::Fact(fact) => drop(fact),
            Shown::Breaks(_, input) => drop(input),
        }
    }
}

/// What is known of a whole program.
#[derive(Clone, Copy, PartialEq, Eq)]
pub enum Verdict {
    Verified,
    Refuted,
    Unproved,
}

impl Piece {
    /// An equal piece with the same allocators. The only error is that memory has run out.
    pub fn copy(&self) -> Result<Self, AllocError>
        ensures copy { IfOk result (λ copy. copy ≡ self.now) }
    {
        Ok(Piece {
            number: self.number,
            goal: self.goal,
            route: self.route,
            cube: self.cube.copy()?,
        })
    }
}

impl Shown {
    /// An equal value with the same allocators. The only error is that memory has run out.
    pub fn copy(&self) -> Result<Self, AllocError>
        ensures copy { IfOk result (λ copy. copy ≡ self.now) }
    {
        match self {
            Shown::Fact(fact) => Ok(Shown::Fact(fact.copy()?)),
            Shown::Breaks(goal, input) => Ok(Shown::Breaks(*goal, input.copy()?)),
        }
    }
}

impl Copies for Piece {
    fn copy_in(&self, _alloc: Global) -> Result<Self, AllocError> {
        self.copy()
    }
}

impl Same for Piece {
    fn same(&self, other: &Self) -> bool {
        self.number == other.number
            && self.goal == other.goal
            && self.route == other.route
            && self.cube.same(&other.cube)
    }
}

impl Copies for Shown {
    fn copy_in(&self, _alloc: Global) -> Result<Self, AllocError> {
        self.copy()
    }
}
