// The rows of the membership search.

use tcl_poly::{Cofactors, Poly};
use tcl_ring::Ring;

/// A polynomial that is the sum of its cofactors times the equations, with the place of the line that it comes from.
#[derive(Drop)]
pub struct Row<R: Ring> {
    pub poly: Poly<R>,
    pub cofactors: Cofactors<R>,
    pub place: u32,
}

/// A row that is kept, with the inverse of its leading coefficient.
#[derive(Drop)]
pub struct Pivot<R: Ring> {
    pub row: Row<R>,
    pub inverse: R::Elem,
}

/// What is left of the claim, with the cofactors that make up the rest of it.
#[derive(Drop)]
pub struct Target<R: Ring> {
    pub poly: Poly<R>,
    pub cofactors: Cofactors<R>,
}
