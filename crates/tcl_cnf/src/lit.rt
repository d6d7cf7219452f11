// Literals: a variable or its negation.

ghost use Rattle.std.specs.Prelude.{◌≡◌, ◌+◌, ◌*◌, ◌/◌, ◌%◌, ◌^◌, ◌<◌, ◌↔◌, IsTrue};
ghost use Rattle.tcl_cnf.specs.Literal.{neg};

use std::alloc::{AllocError, Global};
use std::marker::Model;
use tcl_list::{Copies, Same};

/// A literal: variable v, or its negation. Variables are numbered from 0 to `2^31 - 1`.
#[derive(Clone, Copy, PartialEq, Eq, PartialOrd, Ord)]
pub struct Lit(u32);

impl Model for Lit {
    ghost use Rattle.std.specs.Prelude.{ℕ};

    ghost Value = { ℕ };

    ghost view = { λ l. l.0 };

    ghost inverse = { λ n. record { 0 = n } };
}

impl Lit {
    /// The literal that is true where the variable is.
    pub fn of(variable: u32) -> Lit
        requires { variable < 2 ^ 31 }
        ensures { result ≡ 2 * variable }
    {
        Lit(2 * variable)
    }

    /// The literal of this number: `2v` is variable v, and `2v + 1` its negation.
    pub fn from_number(number: u32) -> Lit
        ensures { result ≡ number }
    {
        Lit(number)
    }

    /// The literal as a number: `2v` for variable v, and `2v + 1` for its negation.
    pub fn number(self) -> u32
        ensures { result ≡ self }
    {
        self.0
    }

    /// The variable of the literal, from 0.
    pub fn variable(self) -> u32
        ensures { result ≡ self / 2 }
    {
        self.0 / 2
    }

    /// Whether it is the negation of its variable.
    pub fn is_negated(self) -> bool
        ensures { IsTrue result ↔ (self % 2 ≡ 1) }
    {
        self.0 % 2 == 1
    }

    /// The literal of the same variable with the other sign.
    #[tactic(auto, unfolding(crate::specs::Literal::neg))]
    pub fn negation(self) -> Lit
        ensures { result ≡ neg self }
    {
        if self.0 % 2 == 0 {
            Lit(self.0 + 1)
        } else {
            Lit(self.0 - 1)
        }
    }
}

impl Default for Lit {
    fn default() -> Self {
        Lit(0)
    }
}

impl Copies for Lit {
    fn copy_in(&self, _alloc: Global) -> Result<Self, AllocError> {
        Ok(*self)
    }
}

impl Same for Lit {
    fn same(&self, other: &Self) -> bool {
        self.0 == other.0
    }
}
