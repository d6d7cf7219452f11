//! Polynomials and cofactors as plain data, and plain data in rings.

ghost use Rattle.std.specs.Prelude.{None, IfOk};
ghost use Rattle.tcl_poly.specs.Polynomial.{IsOver};

use crate::expected::{agrees, holds};
use crate::naming::write_terms;
use std::alloc::{AllocError, Global};
use tcl_goals::{Name, Power, Remainder};
use tcl_list::Listing;
use tcl_poly::{Cofactor, Cofactors, Poly, PolyFault, Unknown, add, power, scale, unknown};
use tcl_remainder::{are_plain, degree, is_plain, polynomial_of, remainder_of};
use tcl_ring::{Residue, Ring, Whole};

// 9 x^3 + 7 q, where q is the quotient of the line at place 2.
fn sample(alloc: Global) -> Result<Poly<Whole>, PolyFault>
    ensures { IfOk result (λ s. IsOver None (λ n. n) s) }
{
    let cube = power(alloc, &Whole, Unknown::Var(4), 3)?;
    let quotient = unknown(alloc, &Whole, Unknown::Quot(2))?;
    add(
        &Whole,
        &scale(&Whole, &9, &cube)?,
        &scale(&Whole, &7, &quotient)?,
    )
}

fn plain_sample(alloc: Global) -> Result<Remainder, PolyFault> {
    let f = sample(alloc)?;
    if !is_plain(&Whole, &f) {
        return Err(PolyFault::Wide);
    }
    Ok(remainder_of(alloc, &Whole, &f)?)
}

fn write_power(text: &mut String, power: &Power) -> Result<(), AllocError> {
    match power.name {
        Name::Var(v) => write!(text, " v{}^{}", v, power.exponent),
        Name::Quot(place) => write!(text, " q{}^{}", place, power.exponent),
    }
}

// A line for each summand: its coefficient, and its powers as name^exponent.
fn plain_text(alloc: Global, remainder: &Remainder) -> Result<String, AllocError> {
    let mut text = String::new(alloc);
    for summand in remainder.summands().as_slice() {
        write!(&mut text, "{}", summand.coefficient)?;
        for power in summand.powers.as_slice() {
            write_power(&mut text, power)?;
        }
        text.push_str(";")?;
    }
    Ok(text)
}

// The degree of the same in a ring, and the polynomial.
fn sample_in<R: Ring>(alloc: Global, ring: &R) -> Result<String, PolyFault> {
    let remainder = plain_sample(alloc)?;
    let degree = degree(ring, &remainder);
    if degree > 1024 {
        return Err(PolyFault::Wide);
    }
    let f = polynomial_of(alloc, ring, &remainder)?;
    Ok(text_of(alloc, ring, degree, &f)?)
}

fn text_of<R: Ring>(
    alloc: Global,
    ring: &R,
    degree: u32,
    f: &Poly<R>,
) -> Result<String, AllocError> {
    let mut text = String::new(alloc);
    write!(&mut text, "{}:", degree)?;
    write_terms(&mut text, ring, f)?;
    Ok(text)
}

fn plain_sample_text(alloc: Global) -> Result<String, PolyFault> {
    let remainder = plain_sample(alloc)?;
    Ok(plain_text(alloc, &remainder)?)
}

#[test]
fn plain_data_names_lines_by_their_places(rt: HostRuntime) {
    agrees(&rt, plain_sample_text(rt.alloc()), "9 v4^3;7 q2^1;");
}

// 9 is 2 modulo 7 and 0 modulo 3, and 7 is 0 modulo 7; the degree is that of what stays.
#[test]
fn what_vanishes_is_left_out(rt: HostRuntime) {
    let alloc = rt.alloc();
    agrees(&rt, sample_in(alloc, &Whole), "3:9 4^3;7 4294967298^1;");
    let seven = Residue { modulus: 7 };
    agrees(&rt, sample_in(alloc, &seven), "3:2 4^3;");
    let three = Residue { modulus: 3 };
    agrees(&rt, sample_in(alloc, &three), "1:1 4294967298^1;");
    let one = Residue { modulus: 1 };
    agrees(&rt, sample_in(alloc, &one), "0:");
}

// Whether the quotient of a line is plain data.
fn is_plain_at(alloc: Global, place: u32) -> Result<bool, PolyFault> {
    let quotient = unknown(alloc, &Whole, Unknown::Quot(place))?;
    Ok(is_plain(&Whole, &quotient))
}

fn answers(made: Result<bool, PolyFault>, wanted: bool) -> bool {
    match made {
        Ok(is_so) => is_so == wanted,
        Err(_) => false,
    }
}

#[test]
fn the_last_place_has_no_name(rt: HostRuntime) {
    let last = is_plain_at(rt.alloc(), u32::MAX);
    holds(&rt, "the last place", answers(last, false));
    let before = is_plain_at(rt.alloc(), u32::MAX - 1);
    holds(&rt, "the place before", answers(before, true));
}

// Whether two cofactors of equations of these numbers are plain data.
fn are_plain_at(alloc: Global, first: u32, second: u32) -> Result<bool, PolyFault> {
    let mut cofactors = Listing::new(alloc);
    push_sample(alloc, &mut cofactors, first)?;
    push_sample(alloc, &mut cofactors, second)?;
    Ok(are_plain(&Whole, &cofactors))
}

fn push_sample(
    alloc: Global,
    cofactors: &mut Cofactors<Whole>,
    equation: u32,
) -> Result<(), PolyFault> {
    let poly = sample(alloc)?;
    cofactors.push(Cofactor { equation, poly })?;
    Ok(())
}

#[test]
fn numbers_of_equations_rise(rt: HostRuntime) {
    let alloc = rt.alloc();
    let rises = are_plain_at(alloc, 0, 1);
    holds(&rt, "a later equation", answers(rises, true));
    let stays = are_plain_at(alloc, 1, 1);
    holds(&rt, "the same equation", answers(stays, false));
    let falls = are_plain_at(alloc, 1, 0);
    holds(&rt, "an earlier equation", answers(falls, false));
}
