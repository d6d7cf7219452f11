//! Why a piece ends without a proof.

ghost use Rattle.std.specs.Prelude.{◌≡◌, IfOk};

use crate::remainder::Remainder;
use std::alloc::{AllocError, Global};
use tcl_lang::{Input, Truth};
use tcl_list::{Copies, Same};
use tcl_port::{At, What};

/// What kept a search of cofactors from being whole.
#[derive(Clone, Copy, PartialEq, Eq)]
pub enum Note {
    /// Nothing did.
    None,
    /// A row was left out, whose leading coefficient has no inverse.
    Pivot(i128),
    /// A row or the claim was left out, where numbers became too great.
    Wide(At),
}

/// Why a piece ends without a proof. Lines are given by place.
pub enum Cause {
    /// An assignment meets all that the piece rests on, and denies the claim.
    Model,
    /// The budget of so many steps is spent.
    Steps(u32),
    /// Numbers became too great.
    Width(At),
    /// So many clauses, such a degree or so many terms are above their limit.
    Size(What, u32),
    /// This polynomial, which is not 0, is left of the claim.
    Rest(Remainder, Note),
    /// The input denies the claim, and the line of this place has this computed truth in its run.
    Stray(u32, Truth, Input),
    /// The goal is of a kind that is not proved yet.
    Later,
}

impl Drop for Cause {
    fn drop(self) {
        match self {
            Cause::Model => (),
            Cause::Steps(_) => (),
            Cause::Width(_) => (),
            Cause::Size(_, _) => (),
            Cause::Rest(remainder, _) => drop(remainder),
            Cause::Stray(_, _, input) => drop(input),
            Cause::Later => (),
        }
    }
}

impl Cause {
    /// An equal cause with the same allocators. The only error is that memory has run out.
    pub fn copy(&self) -> Result<Self, AllocError>
        ensures copy { IfOk result (λ copy. copy ≡ self.now) }
    {
        match self {
            Cause::Model => Ok(Cause::Model),
            Cause::Steps(count) => Ok(Cause::Steps(*count)),
            Cause::Width(at) => Ok(Cause::Width(*at)),
            Cause::Size(what, count) => Ok(Cause::Size(*what, *count)),
            Cause::Rest(remainder, note) => Ok(Cause::Rest(remainder.copy()?, *note)),
            Cause::Stray(place, truth, input) => Ok(Cause::Stray(*place, *truth, input.copy()?)),
            Cause::Later => Ok(Cause::Later),
        }
    }
}

impl Copies for Cause {
    fn copy_in(&self, _alloc: Global) -> Result<Self, AllocError> {
        self.copy()
    }
}
