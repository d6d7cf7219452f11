//! Facts, and the hypotheses, bits and places of which they are made.

ghost use Rattle.std.specs.Prelude.{◌≡◌, ◌↔◌, IsTrue, IfOk};

use crate::lemma::Lemma;
use std::alloc::{AllocError, Global};
use tcl_list::{Copies, Listing, Same};

/// A hypothesis: the line of a place, or the lemma of a number.
#[derive(Clone, Copy, PartialEq, Eq)]
pub enum Hyp {
    Line(u32),
    Lemma(u32),
}

/// Hypotheses in the order of their keys.
pub type Hyps = Listing<Hyp>;

/// A bit of a variable. Bit 0 is the lowest.
#[derive(Clone, Copy, PartialEq, Eq)]
pub struct Bit {
    pub var: u32,
    pub bit: u32,
}

/// A bit of a variable, with a value. Bit 0 is the lowest.
#[derive(Clone, Copy, PartialEq, Eq)]
pub struct BitLit {
    pub var: u32,
    pub bit: u32,
    pub value: bool,
}

/// Bits that all have their values.
pub type Cube = Listing<BitLit>;

/// Places of instructions.
pub type Uses = Listing<u32>;

/// What a fact claims: the goal of a number, or a lemma.
pub enum Claim {
    Goal(u32),
    Lemma(Lemma),
}

impl Drop for Claim {
    fn drop(self) {
        match self {
            Claim::Goal(_) => (),
            Claim::Lemma(lemma) => drop(lemma),
        }
    }
}

/// A claim that follows from hypotheses and the bits of a cube. The uses say which instructions show it.
#[derive(Drop)]
pub struct Fact {
    pub claim: Claim,
    pub hyps: Hyps,
    pub cube: Cube,
    pub uses: Uses,
}

/// Where a line or a lemma stands in the order of facts. Keys are compared from left to right.
#[derive(Clone, Copy, PartialEq, Eq)]
pub struct Key {
    pub place: u32,
    pub kind: u32,
    pub number: u32,
}

impl Fact {
    /// An equal fact with the same allocators. The only error is that memory has run out.
    pub fn copy(&self) -> Result<Self, AllocError>
        ensures copy { IfOk result (λ copy. copy ≡ self.now) }
    {
        Ok(Fact {
            claim: self.claim.copy()?,
            hyps: self.hyps.copy()?,
            cube: self.cube.copy()?,
            uses: self.uses.copy()?,
        })
    }
}

impl Claim {
    /// An equal claim with the same allocators. The only error is that memory has run out.
    pub fn copy(&self) -> Result<Self, AllocError>
        ensures copy { IfOk result (λ copy. copy ≡ self.now) }
    {
        match self {
            Claim::Goal(goal) => Ok(Claim::Goal(*goal)),
            Claim::Lemma(lemma) => Ok(Claim::Lemma(lemma.copy()?)),
        }
    }
}

impl Copies for Fact {
    fn copy_in(&self, _alloc: Global) -> Result<Self, AllocError> {
        self.copy()
    }
}

impl Same for Fact {
    fn same(&self, other: &Self) -> bool {
        self.claim.same(&other.claim)
            && self.hyps.same(&other.hyps)
            && self.cube.same(&other.cube)
            && self.uses.same(&other.uses)
    }
}

impl Copies for Claim {
    fn copy_in(&self, _alloc: Global) -> Result<Self, AllocError> {
        self.copy()
    }
}

impl Same for Claim {
    fn same(&self, other: &Self) -> bool {
        match (self, other) {
            (Claim::Goal(ours), Claim::Goal(theirs)) => *ours == *theirs,
            (Claim::Lemma(ours), Claim::Lemma(theirs)) => ours.same(theirs),
            _ => false,
        }
    }
}

impl Copies for Hyp {
    fn copy_in(&self, _alloc: Global) -> Result<Self, AllocError> {
        Ok(*self)
    }
}

impl Same for Hyp {
    fn same(&self, other: &Self) -> bool {
        *self == *other
    }
}

impl Copies for BitLit {
    fn copy_in(&self, _alloc: Global) -> Result<Self, AllocError> {
        Ok(*self)
    }
}

impl Same for BitLit {
    fn same(&self, other: &Self) -> bool {
        *self == *other
    }
}

impl Copies for Bit {
    fn copy_in(&self, _alloc: Global) -> Result<Self, AllocError> {
        Ok(*self)
    }
}

impl Same for Bit {
    fn same(&self, other: &Self) -> bool {
        *self == *other
    }
}
