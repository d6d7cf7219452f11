// Definitions of variables.

ghost use Rattle.std.specs.Prelude.{◌≡◌, [], ◌∷◌, ◌++◌, ◌<◌, ◌^◌, length, map, slice_get, IfOk, OnOk, OnErr};
ghost use Rattle.tcl_reduce.specs.Definitions.{AreRising};

use std::alloc::{AllocError, Global};
use std::marker::Model;
use tcl_list::{Copies, Listing};
use tcl_poly::Poly;
use tcl_ring::Ring;

/// The definition of a variable by the instruction at a place: the variable equals the polynomial.
#[derive(Drop)]
pub struct Definition<R: Ring> {
    pub place: u32,
    pub variable: u32,
    pub poly: Poly<R>,
}

/// Definitions by rising place, which contracts see as triples of place, variable and polynomial.
#[derive(Drop)]
pub struct Defs<R: Ring> {
    definitions: Listing<Definition<R>>,
}

impl<R: Ring> Model for Defs<R> {
    ghost use Rattle.std.specs.Prelude.{List, ℕ, map};
    ghost use Rattle.tcl_reduce.specs.Definitions.{AreRising, Defined};

    ghost Value = { List (Defined R.Elem) };

    ghost view = { λ d. map (λ x. (x.place, x.variable, x.poly)) d.definitions };

    ghost invariant = { λ d. AreRising (map (λ x. (x.place, x.variable, x.poly)) d.definitions) };
}

impl<R: Ring> Defs<R> {
    /// No definitions, which takes no memory.
    pub fn new(alloc: Global) -> Self
        ensures { result ≡ [] }
    {
        Defs {
            definitions: Listing::new(alloc),
        }
    }

    /// The definitions of a list in their order; takes no memory.
    pub fn of(definitions: Listing<Definition<R>>) -> Self
        requires { AreRising (map (λ x. (x.place, x.variable, x.poly)) definitions) }
        ensures { result ≡ map (λ x. (x.place, x.variable, x.poly)) definitions }
    {
        Defs { definitions }
    }

    pub fn len(&self) -> usize
        ensures len { result ≡ length self.now }
        ensures rising { AreRising self.now }
    {
        self.definitions.len()
    }

    /// The places rise, so the number of a definition is at most its place.
    pub fn at(&self, k: usize) -> &Definition<R>
        requires { k < length self.now }
        ensures definition { slice_get self.now k ≡ Some (result.now.place, result.now.variable, result.now.poly) }
        ensures narrow { k < 2 ^ 32 }
    {
        let definition = self.definitions.at(k);
        let _place = definition.place;
        definition
    }

    /// Adds a definition at a later place than all before it.
    pub fn push(&mut self, definition: Definition<R>) -> Result<(), AllocError>
        requires { AreRising (self.old ++ (definition.place, definition.variable, definition.poly) ∷ []) }
        ensures pushed { OnOk result (self.new ≡ self.old ++ (definition.place, definition.variable, definition.poly) ∷ []) }
        ensures unchanged { OnErr result (self.new ≡ self.old) }
    {
        self.definitions.push(definition)
    }
    /// Equal definitions.
    pub fn copy(&self) -> Result<Self, AllocError>
        ensures { IfOk result (λ copy. copy ≡ self.now) }
    {
        let definitions = self.definitions.copy()?;
        Ok(Defs { definitions })
    }
}

impl<R: Ring> Copies for Definition<R> {
    fn copy_in(&self, _alloc: Global) -> Result<Self, AllocError> {
        let poly = self.poly.copy()?;
        Ok(Definition {
            place: self.place,
            variable: self.variable,
            poly,
        })
    }
}

impl<R: Ring> Copies for Defs<R> {
    fn copy_in(&self, _alloc: Global) -> Result<Self, AllocError> {
        self.copy()
    }
}
