// Cofactors: polynomials by the number of the equation that they multiply.

ghost use Rattle.std.specs.Prelude.{◌≡◌, IfOk};

use crate::Poly;
use std::alloc::{AllocError, Global};
use tcl_list::{Copies, Listing};
use tcl_ring::Ring;

/// A cofactor of the equation of that number, from 0.
#[derive(Drop)]
pub struct Cofactor<R: Ring> {
    pub equation: u32,
    pub poly: Poly<R>,
}

/// Cofactors, by rising numbers of their equations.
pub type Cofactors<R> = Listing<Cofactor<R>>;

impl<R: Ring> Copies for Cofactor<R> {
    fn copy_in(&self, _alloc: Global) -> Result<Self, AllocError> {
        let poly = self.poly.copy()?;
        Ok(Cofactor {
            equation: self.equation,
            poly,
        })
    }
}
