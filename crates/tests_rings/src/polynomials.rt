//! Sums, products and multiples of polynomials.

ghost use Rattle.std.specs.Prelude.{Some, IfOk};
ghost use Rattle.tcl_poly.specs.Polynomial.{IsOver};

use crate::expected::{agrees, holds};
use crate::naming::write_terms;
use std::alloc::{AllocError, Global};
use tcl_poly::{
    Poly, PolyFault, Unknown, add, add_multiple, degree, is_zero, mul, negated, norm, number,
    raised, scale, sum, unknown, variable_key,
};
use tcl_ring::{Residue, Ring, Whole};

// The terms, or 0 where there are none.
fn text<R: Ring>(alloc: Global, ring: &R, a: &Poly<R>) -> Result<String, AllocError> {
    let mut text = String::new(alloc);
    if is_zero(a) {
        text.push_str("0")?;
    }
    write_terms(&mut text, ring, a)?;
    Ok(text)
}

fn square<R: Ring>(ring: &R, a: &Poly<R>) -> Result<Poly<R>, PolyFault>
    requires { IsOver (R.modulus_of ring.now) (R.amount ring.now) a.now }
    ensures { IfOk result (λ s. IsOver (R.modulus_of ring.now) (R.amount ring.now) s) }
{
    if degree(a) > 512 {
        return Err(PolyFault::Memory);
    }
    mul(ring, a, a)
}

fn fourth_power<R: Ring>(alloc: Global, ring: &R) -> Result<Poly<R>, PolyFault>
    ensures { IfOk result (λ s. IsOver (R.modulus_of ring.now) (R.amount ring.now) s) }
{
    let x = unknown(alloc, ring, Unknown::Var(0))?;
    let y = unknown(alloc, ring, Unknown::Quot(1))?;
    let sum = add(ring, &x, &y)?;
    square(ring, &square(ring, &sum)?)
}

fn fourth_text<R: Ring>(alloc: Global, ring: &R) -> Result<String, PolyFault> {
    let fourth = fourth_power(alloc, ring)?;
    Ok(text(alloc, ring, &fourth)?)
}

// (x + y)^4 by the binomial theorem; the key of the line's unknown is 2^32 + 1.
#[test]
fn fourth_powers(rt: HostRuntime) {
    let alloc = rt.alloc();
    let whole = "1 0^4;4 0^3 4294967297^1;6 0^2 4294967297^2;4 0^1 4294967297^3;1 4294967297^4;";
    agrees(&rt, fourth_text(alloc, &Whole), whole);
    let binary = Residue { modulus: 2 };
    agrees(&rt, fourth_text(alloc, &binary), "1 0^4;1 4294967297^4;");
    let null = Residue { modulus: 1 };
    agrees(&rt, fourth_text(alloc, &null), "0");
}

// The norm of a result, and whether it is zero.
type Size = Result<(u128, bool), PolyFault>;

fn size(made: Result<Poly<Whole>, PolyFault>) -> Size {
    let poly = made?;
    Ok((norm(&poly), is_zero(&poly)))
}

fn is_wide(made: Size) -> bool {
    matches!(made, Err(PolyFault::Wide))
}

fn has_norm(made: Size, wanted: u128) -> bool {
    match made {
        Ok((norm, _)) => norm == wanted,
        Err(_) => false,
    }
}

fn vanishes(made: Size) -> bool {
    match made {
        Ok((_, is_zero)) => is_zero,
        Err(_) => false,
    }
}

fn size_of_sum(alloc: Global, a: i128, b: i128) -> Size {
    let a = number(alloc, &Whole, a)?;
    let b = number(alloc, &Whole, b)?;
    size(add(&Whole, &a, &b))
}

fn size_of_difference(alloc: Global, a: i128, b: i128) -> Size {
    let a = number(alloc, &Whole, a)?;
    let b = number(alloc, &Whole, b)?;
    let minus = scale(&Whole, &-1, &b)?;
    size(add(&Whole, &a, &minus))
}

fn size_of_product(alloc: Global, n: i128, a: i128) -> Size {
    let a = number(alloc, &Whole, a)?;
    size(scale(&Whole, &n, &a))
}

// The norm of the sum of the bounds decides, before anything cancels.
#[test]
fn width_at_the_bound(rt: HostRuntime) {
    let alloc = rt.alloc();
    let half = 1 << 126;
    let difference = size_of_difference(alloc, half, half);
    holds(&rt, "2^126 - 2^126", is_wide(difference));
    let sum = size_of_sum(alloc, half, half - 1);
    holds(&rt, "a sum", has_norm(sum, (1 << 127) - 1));
    holds(&rt, "2 * 2^126", is_wide(size_of_product(alloc, 2, half)));
    holds(&rt, "0 * 2^126", vanishes(size_of_product(alloc, 0, half)));
    let below = size_of_difference(alloc, half - 1, half - 1);
    holds(&rt, "a difference", vanishes(below));
    let least = size(number(alloc, &Whole, i128::MIN));
    holds(&rt, "-2^127", is_wide(least));
}

fn next(alloc: Global, ring: &Residue) -> Result<Poly<Residue>, PolyFault>
    ensures { IfOk result (λ s. IsOver (Some ring.now.modulus) (λ a. a) s) }
{
    let x = unknown(alloc, ring, Unknown::Var(0))?;
    let one = number(alloc, ring, 1)?;
    Ok(sum(ring, x, one)?)
}

fn cube_of_next(alloc: Global, ring: &Residue) -> Result<Poly<Residue>, PolyFault>
    ensures { IfOk result (λ s. IsOver (Some ring.now.modulus) (λ a. a) s) }
{
    let next = next(alloc, ring)?;
    if degree(&next) > 1 {
        return Err(PolyFault::Wide);
    }
    Ok(raised(ring, &next, 3)?)
}

fn cube_text(alloc: Global, ring: &Residue) -> Result<String, PolyFault> {
    let cube = cube_of_next(alloc, ring)?;
    Ok(text(alloc, ring, &cube)?)
}

fn negation_text(alloc: Global, ring: &Residue) -> Result<String, PolyFault> {
    let minus = negated(ring, &cube_of_next(alloc, ring)?)?;
    Ok(text(alloc, ring, &minus)?)
}

fn power_of_none_text(alloc: Global, ring: &Residue) -> Result<String, PolyFault> {
    let next = next(alloc, ring)?;
    let one = raised(ring, &next, 0)?;
    Ok(text(alloc, ring, &one)?)
}

fn nothing_text(alloc: Global, ring: &Residue) -> Result<String, PolyFault> {
    let cube = cube_of_next(alloc, ring)?;
    let minus = negated(ring, &cube)?;
    let nothing = sum(ring, cube, minus)?;
    Ok(text(alloc, ring, &nothing)?)
}

// (x + 1)^3 by the binomial theorem, its negation.
#[test]
fn powers_and_negations(rt: HostRuntime) {
    let alloc = rt.alloc();
    let ring = Residue { modulus: 3329 };
    agrees(&rt, cube_text(alloc, &ring), "1 0^3;3 0^2;3 0^1;1;");
    let negation = "3328 0^3;3326 0^2;3326 0^1;3328;";
    agrees(&rt, negation_text(alloc, &ring), negation);
    agrees(&rt, power_of_none_text(alloc, &ring), "1;");
    agrees(&rt, nothing_text(alloc, &ring), "0");
}

// The size of a + n b.
fn size_with_multiple(alloc: Global, a: i128, n: i128, b: i128) -> Size {
    let a = number(alloc, &Whole, a)?;
    let b = number(alloc, &Whole, b)?;
    size(add_multiple(&Whole, &a, &n, &b))
}

// The product alone may be too great.
#[test]
fn multiples_after_cancellation(rt: HostRuntime) {
    let alloc = rt.alloc();
    let half = 1 << 126;
    let twice = size_with_multiple(alloc, -half, 2, half);
    holds(&rt, "2 * 2^126 - 2^126", has_norm(twice, 1 << 126));
    let none = size_with_multiple(alloc, half, -1, half);
    holds(&rt, "2^126 - 2^126", vanishes(none));
    let wide = size_with_multiple(alloc, half, 1, half);
    holds(&rt, "2^126 + 2^126", is_wide(wide));
}

// y + n (3 x).
fn multiple_text(alloc: Global, ring: &Residue, n: i128) -> Result<String, PolyFault> {
    let x = unknown(alloc, ring, Unknown::Var(0))?;
    let y = unknown(alloc, ring, Unknown::Var(1))?;
    let third = scale(ring, &3, &x)?;
    let both = add_multiple(ring, &y, &n, &third)?;
    Ok(text(alloc, ring, &both)?)
}

// Modulo a composite number the product may vanish.
#[test]
fn multiples_that_vanish(rt: HostRuntime) {
    let ring = Residue { modulus: 12 };
    agrees(&rt, multiple_text(rt.alloc(), &ring, 4), "1 1^1;");
    agrees(&rt, multiple_text(rt.alloc(), &ring, 3), "9 0^1;1 1^1;");
}

// The key 0 is free, and lines come after all variables.
#[test]
fn keys_of_unknowns(rt: HostRuntime) {
    holds(&rt, "the first variable", variable_key(0) == 1);
    holds(&rt, "the last variable", variable_key(u32::MAX) == 1 << 32);
    let line = Unknown::Quot(0).key();
    holds(&rt, "the first line", line == (1 << 32) + 1);
}
