// The equations of a claim.

ghost use Rattle.std.specs.Prelude.{◌≡◌, ◌≤◌, ◌<◌, length, slice_get, Some, IfOk};
ghost use Rattle.tcl_ring.specs.Reduction.{reduced_by};
ghost use Rattle.tcl_poly.specs.Polynomial.{degree_of, IsOver};
ghost use Rattle.tcl_poly.specs.Combination.{AreOver};
ghost use Rattle.tcl_reduce.specs.Answer.{definitions_of};
ghost use Rattle.tcl_reduce.specs.Remainder.{AreDefinitions, BeginsWith};
ghost use Rattle.tcl_reduce.specs.Equated.{AreEquations, AreShallow};

use crate::Defs;
use std::alloc::{AllocError, Global};
use std::marker::Model;
use tcl_list::{Copies, Listing};
use tcl_poly::Poly;
use tcl_ring::Ring;

/// The equations of a claim, each a polynomial that is 0, and the claim's own polynomial, which is to be shown 0.
///
/// All are over one ring. The list begins with the equations of the definitions, in their order. Each equation has a place, that
/// of the line it comes from.
#[derive(Drop)]
pub struct Equations<R: Ring + Copy> {
    ring: R,
    list: Listing<Poly<R>>,
    places: Listing<u32>,
    defs: Defs<R>,
    claim: Poly<R>,
    claim_place: u32,
}

impl<R: Ring + Copy> Model for Equations<R> {
    ghost use Rattle.tcl_reduce.specs.Equated.{Equated, AreEquations};

    ghost Value = { Equated R R.Elem };

    ghost view = { λ q. record { ring = q.ring; list = q.list; places = q.places; defs = q.defs; claim = q.claim; claim_place = q.claim_place } };

    ghost invariant = { λ q. AreEquations (R.modulus_of q.ring) (R.amount q.ring) record { ring = q.ring; list = q.list; places = q.places; defs = q.defs; claim = q.claim; claim_place = q.claim_place } };
}

impl<R: Ring + Copy> Equations<R> {
    /// Takes no memory.
    pub fn of(
        ring: R,
        list: Listing<Poly<R>>,
        places: Listing<u32>,
        defs: Defs<R>,
        claim: Poly<R>,
        claim_place: u32,
    ) -> Self
        requires places { length places ≡ length list }
        requires shallow { AreShallow list }
        requires over { AreOver (R.modulus_of ring) (R.amount ring) list }
        requires definitions { AreDefinitions (reduced_by (R.modulus_of ring)) (definitions_of (R.amount ring) defs) }
        requires begins { BeginsWith (R.modulus_of ring) (R.amount ring) (definitions_of (R.amount ring) defs) list }
        requires claim_over { IsOver (R.modulus_of ring) (R.amount ring) claim }
        requires claim_shallow { degree_of claim ≤ 1024 }
        ensures { result ≡ record { ring = ring; list = list; places = places; defs = defs; claim = claim; claim_place = claim_place } }
    {
        Equations {
            ring,
            list,
            places,
            defs,
            claim,
            claim_place,
        }
    }

    /// The ring that all polynomials are over.
    pub fn ring(&self) -> &R
        ensures { result.now ≡ self.now.ring }
    {
        &self.ring
    }

    pub fn list(&self) -> &[Poly<R>]
        ensures list { result.now ≡ self.now.list }
        ensures equations { AreEquations (R.modulus_of self.now.ring) (R.amount self.now.ring) self.now }
    {
        self.list.as_slice()
    }

    pub fn defs(&self) -> &Defs<R>
        ensures defs { result.now ≡ self.now.defs }
        ensures over { AreDefinitions (reduced_by (R.modulus_of self.now.ring)) (definitions_of (R.amount self.now.ring) self.now.defs) }
    {
        &self.defs
    }

    pub fn claim(&self) -> &Poly<R>
        ensures claim { result.now ≡ self.now.claim }
        ensures over { IsOver (R.modulus_of self.now.ring) (R.amount self.now.ring) self.now.claim }
        ensures shallow { degree_of self.now.claim ≤ 1024 }
    {
        &self.claim
    }

    /// The place of the equation of that number.
    pub fn place(&self, k: usize) -> u32
        requires { k < length self.now.list }
        ensures { slice_get self.now.places k ≡ Some result }
    {
        *self.places.at(k)
    }

    pub fn claim_place(&self) -> u32
        ensures { result ≡ self.now.claim_place }
    {
        self.claim_place
    }

    /// Equal equations.
    pub fn copy(&self) -> Result<Self, AllocError>
        ensures { IfOk result (λ copy. copy ≡ self.now) }
    {
        let list = self.list.copy()?;
        let places = self.places.copy()?;
        let defs = self.defs.copy()?;
        let claim = self.claim.copy()?;
        Ok(Equations {
            ring: self.ring,
            list,
            places,
            defs,
            claim,
            claim_place: self.claim_place,
        })
    }
}

impl<R: Ring + Copy> Copies for Equations<R> {
    fn copy_in(&self, _alloc: Global) -> Result<Self, AllocError> {
        self.copy()
    }
}
