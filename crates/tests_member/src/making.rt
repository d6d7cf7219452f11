// The equations of searches, made one by one.

ghost use Rattle.std.specs.Prelude.{◌≡◌, ℕ, [], ◌∷◌, ◌++◌, length, IsTrue, IfOk, OnOk};
ghost use Rattle.tcl_ring.specs.Reduction as r;
ghost use Rattle.tcl_poly.specs.Unknown.{variable_key};
ghost use Rattle.tcl_poly.specs.Polynomial as p;
ghost use Rattle.tcl_poly.specs.Combination.{Terms};
ghost use Rattle.tcl_reduce.specs.Definitions.{AreRising};
ghost use Rattle.tcl_reduce.specs.Reduction.{equation_of};
ghost use Rattle.tests_member.specs.Begun.{AreBegun, AreDefined};

use std::alloc::Global;
use std::test::Fail;
use tcl_list::Listing;
use tcl_poly::{Poly, Unknown, add, degree, is_wide, negated, norm_of_terms, terms, unknown};
use tcl_reduce::{Definition, Defs, Equations};
use tcl_ring::Ring;

/// Adds an equation at the end.
pub(crate) fn push_equation<R: Ring>(
    ring: &R,
    defs: &Defs<R>,
    list: &mut Listing<Poly<R>>,
    equation: Poly<R>,
) -> Result<(), Fail>
    requires begun { AreBegun (R.modulus_of ring.now) (R.amount ring.now) defs.now list.old }
    requires over { p.IsOver (R.modulus_of ring.now) (R.amount ring.now) equation }
    ensures { OnOk result (AreBegun (R.modulus_of ring.now) (R.amount ring.now) defs.now list.new) }
{
    let _defs = defs;
    if degree(&equation) > 1024 {
        return Err("an equation of a test has a degree of at most 1,024".into());
    }
    list.push(equation)?;
    Ok(())
}

/// Whether the place comes after all others.
fn is_later<R: Ring>(defs: &Defs<R>, place: u32) -> bool
    ensures { IsTrue result → (variable : ℕ) (poly : Terms R.Elem) → AreRising (defs.now ++ (place, variable, poly) ∷ []) }
{
    let count = defs.len();
    if count == 0 {
        return true;
    }
    let last = defs.at(count - 1).place;
    if last < place {
        return true;
    }
    false
}

/// The equation of a definition: the variable less its polynomial.
fn definition_equation<R: Ring>(
    alloc: Global,
    ring: &R,
    variable: u32,
    poly: &Poly<R>,
) -> Result<Poly<R>, Fail>
    requires { p.IsOver (R.modulus_of ring.now) (R.amount ring.now) poly.now }
    ensures equation { IfOk result (λ e. (place : ℕ) → p.terms_of (R.amount ring.now) e ≡ equation_of (r.reduced_by (R.modulus_of ring.now)) (place, variable_key variable, p.terms_of (R.amount ring.now) poly.now)) }
    ensures over { IfOk result (λ e. p.IsOver (R.modulus_of ring.now) (R.amount ring.now) e) }
{
    if is_wide(ring, norm_of_terms(ring, terms(poly))) {
        return Err("a definition of a test is not wide".into());
    }
    let less = negated(ring, poly)?;
    let x = unknown(alloc, ring, Unknown::Var(variable))?;
    Ok(add(ring, &x, &less)?)
}

/// Defines the variable at a place after all others, and adds the definition's equation.
pub(crate) fn define<R: Ring>(
    alloc: Global,
    ring: &R,
    defs: &mut Defs<R>,
    list: &mut Listing<Poly<R>>,
    place: u32,
    variable: u32,
    poly: Poly<R>,
) -> Result<(), Fail>
    requires defined { AreDefined (R.modulus_of ring.now) (R.amount ring.now) defs.old list.old }
    requires over { p.IsOver (R.modulus_of ring.now) (R.amount ring.now) poly }
    ensures { OnOk result (AreDefined (R.modulus_of ring.now) (R.amount ring.now) defs.new list.new) }
{
    let equation = definition_equation(alloc, ring, variable, &poly)?;
    if degree(&equation) > 1024 || !is_later(defs, place) {
        return Err("the places of definitions rise, and a degree is at most 1,024".into());
    }
    list.push(equation)?;
    defs.push(Definition {
        place,
        variable,
        poly,
    })?;
    Ok(())
}

/// As many places as there are equations, from 10 on.
fn places_of(alloc: Global, count: usize) -> Result<Listing<u32>, Fail>
    ensures { IfOk result (λ places. length places ≡ count) }
{
    if count > 100 {
        return Err("a test has at most 100 equations".into());
    }
    let mut places = Listing::new(alloc);
    for k in 0..count {
        places.push(10 + k as u32)?;
    }
    Ok(places)
}

/// The equations with places from 10 on, and the claim at place 9.
pub(crate) fn equations_for<R: Ring + Copy>(
    alloc: Global,
    ring: R,
    defs: Defs<R>,
    list: Listing<Poly<R>>,
    claim: Poly<R>,
) -> Result<Equations<R>, Fail>
    requires begun { AreBegun (R.modulus_of ring) (R.amount ring) defs list }
    requires claim { p.IsOver (R.modulus_of ring) (R.amount ring) claim }
{
    if degree(&claim) > 1024 {
        return Err("the claim of a test has a degree of at most 1,024".into());
    }
    let places = places_of(alloc, list.len())?;
    Ok(Equations::of(ring, list, places, defs, claim, 9))
}
