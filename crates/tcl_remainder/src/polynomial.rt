// From plain data into a ring.

ghost use Rattle.std.specs.Prelude.{◌≡◌, ◌<◌, ◌-◌, ◌^◌, ◌++◌, [], true, min, IfOk, OnOk};
ghost use Rattle.tcl_goals.specs.Remainder as plain;
ghost use Rattle.tcl_ring.specs.Reduction as r;
ghost use Rattle.tcl_poly.specs.Monomial as m;
ghost use Rattle.tcl_poly.specs.Polynomial as p;
ghost use Rattle.tcl_poly.specs.Unknown.{key_of};
ghost use Rattle.tcl_remainder.specs.Names.{monomial_key};
ghost use Rattle.tcl_remainder.specs.Terms as t;

use std::alloc::{AllocError, Global};
use tcl_goals::{Name, Power, Remainder, Summand};
use tcl_poly::{Mono, Poly, Unknown, zero};
use tcl_ring::Ring;

/// The degree that a polynomial has in a ring, which stays at 2^32 - 1 where it is greater; 0 for the zero polynomial.
pub fn degree<R: Ring>(ring: &R, remainder: &Remainder) -> u32
    ensures { result ≡ min (p.degree_of (t.polynomial_of (r.reduced_by (R.modulus_of ring.now)) remainder.now)) (2 ^ 32 - 1) }
{
    let summands = remainder.summands().as_slice();
    for summand in summands {
        if ring.value(&coefficient(ring, summand)) != 0 {
            return degree_of_powers(summand.powers.as_slice());
        }
    }
    0
}

/// The polynomial in a ring: each coefficient is reduced, and a summand is left out where that gives 0.
pub fn polynomial_of<R: Ring>(
    alloc: Global,
    ring: &R,
    remainder: &Remainder,
) -> Result<Poly<R>, AllocError>
    requires { p.degree_of (t.polynomial_of (r.reduced_by (R.modulus_of ring.now)) remainder.now) < 2 ^ 32 }
    ensures terms { IfOk result (λ f. p.terms_of (R.amount ring.now) f ≡ t.polynomial_of (r.reduced_by (R.modulus_of ring.now)) remainder.now) }
    ensures over { IfOk result (λ f. p.IsOver (R.modulus_of ring.now) (R.amount ring.now) f) }
    ensures degree { IfOk result (λ f. p.degree_of f ≡ p.degree_of (t.polynomial_of (r.reduced_by (R.modulus_of ring.now)) remainder.now)) }
{
    let summands = remainder.summands().as_slice();
    let mut poly = zero(alloc);
    for summand in summands {
        push_summand(alloc, ring, &mut poly, summand)?;
    }
    Ok(poly)
}

/// Adds the term that the summand has in the ring, if it has one.
fn push_summand<R: Ring>(
    alloc: Global,
    ring: &R,
    poly: &mut Poly<R>,
    summand: &Summand,
) -> Result<(), AllocError>
    requires summand { plain.is_summand summand.now ≡ true }
    requires narrow { p.degree_of (p.front (t.monomial_of summand.now.powers) (r.reduced_by (R.modulus_of ring.now) summand.now.coefficient) []) < 2 ^ 32 }
    ensures { OnOk result (p.terms_of (R.amount ring.now) poly.new ≡ p.terms_of (R.amount ring.now) poly.old ++ p.front (t.monomial_of summand.now.powers) (r.reduced_by (R.modulus_of ring.now) summand.now.coefficient) []) }
{
    let coefficient = coefficient(ring, summand);
    if ring.value(&coefficient) == 0 {
        return Ok(());
    }
    let mono = monomial_of(alloc, summand.powers.as_slice())?;
    poly.push(mono, coefficient)?;
    Ok(())
}

fn coefficient<R: Ring>(ring: &R, summand: &Summand) -> R::Elem
    requires { plain.is_summand summand.now ≡ true }
    ensures { R.amount ring.now result ≡ r.reduced_by (R.modulus_of ring.now) summand.now.coefficient }
{
    match ring.number(summand.coefficient) {
        Ok(coefficient) => coefficient,
        Err(_) => unreachable!(),
    }
}

fn monomial_of(alloc: Global, powers: &[Power]) -> Result<Mono, AllocError>
    requires powers { plain.are_powers powers.now ≡ true }
    requires narrow { m.degree (t.monomial_of powers.now) < 2 ^ 32 }
    ensures { IfOk result (λ mono. mono ≡ t.monomial_of powers.now) }
{
    let mut mono = Mono::new(alloc);
    for power in powers {
        mono.push(unknown_of(power.name), power.exponent)?;
    }
    Ok(mono)
}

fn unknown_of(name: Name) -> Unknown
    ensures { key_of result ≡ monomial_key name }
{
    match name {
        Name::Var(v) => Unknown::Var(v),
        Name::Quot(place) => Unknown::Quot(place),
    }
}

/// The sum of the exponents, which stays at 2^32 - 1 where it is greater.
fn degree_of_powers(powers: &[Power]) -> u32
    ensures { result ≡ min (m.degree (t.monomial_of powers.now)) (2 ^ 32 - 1) }
{
    let mut degree: u32 = 0;
    for power in powers {
        degree = degree.saturating_add(power.exponent);
    }
    degree
}
