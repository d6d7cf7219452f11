//! Remainders: polynomials as plain data, over no ring.

ghost use Rattle.std.specs.Prelude.{◌≡◌, ◌++◌, ◌∷◌, [], true, ◌↔◌, IsTrue, IfOk, OnOk, OnErr};
ghost use Rattle.tcl_goals.specs.Remainder as remainders;

use std::alloc::{AllocError, Global};
use std::marker::Model;
use tcl_list::{Copies, Listing, Same};

/// An unknown: a variable by its number, or the quotient of the line of a place.
#[derive(Clone, Copy, PartialEq, Eq)]
pub enum Name {
    Var(u32),
    Quot(u32),
}

/// A power of an unknown.
#[derive(Clone, Copy, PartialEq, Eq)]
pub struct Power {
    pub name: Name,
    pub exponent: u32,
}

/// A coefficient times powers of unknowns.
#[derive(Drop)]
pub struct Summand {
    pub coefficient: i128,
    pub powers: Listing<Power>,
}

/// A polynomial. It keeps that the unknowns of each summand increase, with exponents from 1 and quotients of places below
/// 2^32 - 1, that the summands decrease in the graded order (Cox, Little, O'Shea, Ideals, Varieties, and Algorithms, chapter
/// 2), and that no coefficient is 0 or -2^127.
#[derive(Drop)]
pub struct Remainder {
    summands: Listing<Summand>,
}

impl Model for Remainder {
    ghost use Rattle.std.specs.Prelude.{◌≡◌, true, List};
    ghost use Rattle.tcl_goals.specs.declared.remainder.Summand.{Summand};
    ghost use Rattle.tcl_goals.specs.Remainder.{is_remainder};

    ghost Value = { List Summand };

    ghost view = { λ r. r.summands };

    ghost invariant = { λ r. is_remainder r.summands ≡ true };
}

impl Remainder {
    /// The polynomial 0; takes no memory.
    pub fn new(alloc: Global) -> Self
        ensures { result ≡ [] }
    {
        Remainder {
            summands: Listing::new(alloc),
        }
    }

    /// The polynomial of summands that are in order; takes no memory.
    pub fn of(summands: Listing<Summand>) -> Self
        requires { remainders.is_remainder summands ≡ true }
        ensures { result ≡ summands }
    {
        Remainder { summands }
    }

    /// The summands, from the greatest down.
    pub fn summands(&self) -> &Listing<Summand>
        ensures summands { result.now ≡ self.now }
        ensures order { remainders.is_remainder self.now ≡ true }
    {
        &self.summands
    }

    /// Adds a summand that is in order after those before it.
    pub fn push(&mut self, summand: Summand) -> Result<(), AllocError>
        requires { remainders.is_remainder (self.old ++ summand ∷ []) ≡ true }
        ensures pushed { OnOk result (self.new ≡ self.old ++ summand ∷ []) }
        ensures unchanged { OnErr result (self.new ≡ self.old) }
    {
        self.summands.push(summand)?;
        Ok(())
    }

    /// An equal polynomial with the same allocators. The only error is that memory has run out.
    pub fn copy(&self) -> Result<Self, AllocError>
        ensures copy { IfOk result (λ copy. copy ≡ self.now) }
    {
        Ok(Remainder {
            summands: self.summands.copy()?,
        })
    }
}

impl Copies for Power {
    fn copy_in(&self, _alloc: Global) -> Result<Self, AllocError> {
        Ok(*self)
    }
}

impl Same for Power {
    fn same(&self, other: &Self) -> bool {
        *self == *other
    }
}

impl Copies for Summand {
    fn copy_in(&self, _alloc: Global) -> Result<Self, AllocError> {
        Ok(Summand {
            coefficient: self.coefficient,
            powers: self.powers.copy()?,
        })
    }
}

impl Same for Summand {
    fn same(&self, other: &Self) -> bool {
        self.coefficient == other.coefficient && self.powers.same(&other.powers)
    }
}

impl Copies for Remainder {
    fn copy_in(&self, _alloc: Global) -> Result<Self, AllocError> {
        self.copy()
    }
}

impl Same for Remainder {
    fn same(&self, other: &Self) -> bool {
        self.summands.same(&other.summands)
    }
}
