//! Types of words, and words with their types.

ghost use Rattle.std.specs.Prelude.{◌≡◌, ◌↔◌, IsTrue, IfOk};

use std::alloc::{AllocError, Global};
use tcl_list::{Copies, Same};

/// The type of a word: its sign and its width in bits, `u1` to `u64` or `s2` to `s64`.
#[derive(Clone, Copy, PartialEq, Eq)]
pub struct Ty {
    pub signed: bool,
    pub width: u32,
}

/// An integer with the type that it has.
#[derive(Clone, Copy, PartialEq, Eq)]
pub struct Word {
    pub ty: Ty,
    pub value: i128,
}

impl Ty {
    ghost use Rattle.tcl_lang.specs.Types as types;

    /// `u1`, the type of a bit.
    pub fn bit() -> Self
        ensures { result ≡ types.bit_type }
    {
        Ty {
            signed: false,
            width: 1,
        }
    }

    /// Whether this is one of `u1` to `u64` and `s2` to `s64`.
    pub fn is_ty(self) -> bool
        ensures type_of_words { IsTrue result ↔ types.IsTy self }
        ensures test { result ≡ types.is_ty self }
    {
        let least = if self.signed { 2 } else { 1 };
        least <= self.width && self.width <= 64
    }

    /// The unsigned type of the same width.
    pub fn unsigned(self) -> Self
        ensures { result ≡ types.unsigned_of self }
    {
        Ty {
            signed: false,
            width: self.width,
        }
    }

    /// The type of the same sign and twice the width.
    pub fn doubled(self) -> Self
        requires { types.IsTy self }
        ensures { result ≡ types.double_of self }
    {
        Ty {
            signed: self.signed,
            width: 2 * self.width,
        }
    }
}

impl Copies for Ty {
    fn copy_in(&self, _alloc: Global) -> Result<Self, AllocError> {
        Ok(*self)
    }
}

impl Same for Ty {
    fn same(&self, other: &Self) -> bool {
        *self == *other
    }
}
