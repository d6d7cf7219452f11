//! Equations with their places, to which more are added.

ghost use Rattle.std.specs.Prelude.{◌≡◌, [], ◌∷◌, ◌++◌, OnOk};

use std::alloc::{AllocError, Global};
use tcl_list::Listing;
use tcl_poly::Poly;
use tcl_ring::Ring;

/// Polynomials that are 0, and the place of the line that each comes from.
#[derive(Drop)]
pub(crate) struct Rows<R: Ring> {
    pub(crate) list: Listing<Poly<R>>,
    pub(crate) places: Listing<u32>,
}

impl<R: Ring> Rows<R> {
    /// No equations, which takes no memory.
    pub(crate) fn new(alloc: Global) -> Self
        ensures list { result.list ≡ [] }
        ensures places { result.places ≡ [] }
    {
        Rows {
            list: Listing::new(alloc),
            places: Listing::new(alloc),
        }
    }

    /// Adds an equation at the end.
    pub(crate) fn push(&mut self, place: u32, poly: Poly<R>) -> Result<(), AllocError>
        ensures list { OnOk result (self.new.list ≡ self.old.list ++ poly ∷ []) }
        ensures places { OnOk result (self.new.places ≡ self.old.places ++ place ∷ []) }
    {
        self.list.push(poly)?;
        self.places.push(place)?;
        Ok(())
    }
}
