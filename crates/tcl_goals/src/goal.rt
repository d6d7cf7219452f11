//! Goals.

use std::alloc::{AllocError, Global};
use tcl_list::{Copies, Listing, Same};

/// What a goal is: the exactness condition of an instruction, or the predicate of a line.
#[derive(Clone, Copy, PartialEq, Eq)]
pub enum Kind {
    Exact,
    Assert,
    Cut,
    Post,
}

/// A goal with its number, from 0, and the place of its line.
#[derive(Clone, Copy, PartialEq, Eq)]
pub struct Goal {
    pub number: u32,
    pub place: u32,
    pub kind: Kind,
}

/// All goals in order.
pub type Goals = Listing<Goal>;

impl Copies for Goal {
    fn copy_in(&self, _alloc: Global) -> Result<Self, AllocError> {
        Ok(*self)
    }
}

impl Same for Goal {
    fn same(&self, other: &Self) -> bool {
        *self == *other
    }
}
