//! Variables of a versioned program.

ghost use Rattle.std.specs.Prelude.{◌≡◌, ◌↔◌, IsTrue, IfOk};

use crate::ty::Ty;
use std::alloc::{AllocError, Global};
use tcl_list::{Copies, Listing, Same};

/// The bytes of a name.
pub type Name = Listing<u8>;

/// One definition of a name: its version is the number of earlier definitions of the name.
#[derive(Drop)]
pub struct Variable {
    pub name: Name,
    pub version: u32,
    pub ty: Ty,
}

impl Variable {
    /// An equal variable with the same allocators. The only error is that memory has run out.
    pub fn copy(&self) -> Result<Self, AllocError>
        ensures copy { IfOk result (λ copy. copy ≡ self.now) }
    {
        Ok(Variable {
            name: self.name.copy()?,
            version: self.version,
            ty: self.ty,
        })
    }
}

impl Copies for Variable {
    fn copy_in(&self, _alloc: Global) -> Result<Self, AllocError> {
        self.copy()
    }
}

impl Same for Variable {
    fn same(&self, other: &Self) -> bool {
        self.name.same(&other.name) && self.version == other.version && self.ty == other.ty
    }
}
