//! Comparisons of a polynomial with a combination of equations.

ghost use Rattle.std.specs.Prelude.{◌+◌, ◌≤◌};
ghost use Rattle.tcl_poly.specs.Polynomial.{IsOver, degree_of};

use crate::expected::agrees;
use std::alloc::{AllocError, Global};
use tcl_cofactor::{CofactorAnswer, check_cofactors};
use tcl_list::Listing;
use tcl_poly::{Cofactor, Poly, PolyFault, Unknown, add, degree, mul, number, scale, unknown};
use tcl_ring::{Residue, Ring, Whole};

fn compare_with_one<R: Ring>(
    alloc: Global,
    ring: &R,
    f: &Poly<R>,
    equation: Poly<R>,
    cofactor: Poly<R>,
) -> Result<CofactorAnswer, PolyFault>
    requires f { IsOver (R.modulus_of ring.now) (R.amount ring.now) f.now }
    requires equation { IsOver (R.modulus_of ring.now) (R.amount ring.now) equation }
    requires cofactor { IsOver (R.modulus_of ring.now) (R.amount ring.now) cofactor }
    requires degrees { degree_of cofactor + degree_of equation ≤ 1024 }
{
    let mut cofactors = Listing::new(alloc);
    cofactors.push(Cofactor {
        equation: 0,
        poly: cofactor,
    })?;
    let equations = [equation];
    Ok(check_cofactors(alloc, ring, &equations, f, &cofactors))
}

// a x^2 + b x y against x (x + y): the coefficients of x^2 and of x y are 1.
fn compare_square<R: Ring>(
    alloc: Global,
    ring: &R,
    a: &R::Elem,
    b: &R::Elem,
) -> Result<CofactorAnswer, PolyFault> {
    let x = unknown(alloc, ring, Unknown::Var(0))?;
    let y = unknown(alloc, ring, Unknown::Var(1))?;
    if degree(&x) > 1 || degree(&y) > 1 {
        return Err(PolyFault::Wide);
    }
    let square = scale(ring, a, &mul(ring, &x, &x)?)?;
    let mixed = scale(ring, b, &mul(ring, &x, &y)?)?;
    let f = add(ring, &square, &mixed)?;
    let equation = add(ring, &x, &y)?;
    if degree(&equation) > 1 {
        return Err(PolyFault::Wide);
    }
    compare_with_one(alloc, ring, &f, equation, x)
}

// 2^126 against n times 2^126.
fn compare_constants<R: Ring>(
    alloc: Global,
    ring: &R,
    n: i128,
) -> Result<CofactorAnswer, PolyFault> {
    let f = number(alloc, ring, 1 << 126)?;
    let equation = number(alloc, ring, 1 << 126)?;
    let cofactor = number(alloc, ring, n)?;
    if degree(&equation) > 0 || degree(&cofactor) > 0 {
        return Err(PolyFault::Wide);
    }
    compare_with_one(alloc, ring, &f, equation, cofactor)
}

// The degree of the monomial that differs, and the number of its factors.
fn text_of(alloc: Global, answer: &CofactorAnswer) -> Result<String, AllocError> {
    match answer {
        CofactorAnswer::Equal => format!(in alloc; "equal"),
        CofactorAnswer::Differs(mono) => {
            format!(in alloc; "differs {} {}", mono.degree(), mono.len())
        }
        CofactorAnswer::Wide => format!(in alloc; "wide"),
        CofactorAnswer::Memory => format!(in alloc; "memory"),
    }
}

fn square_text<R: Ring>(
    alloc: Global,
    ring: &R,
    a: &R::Elem,
    b: &R::Elem,
) -> Result<String, PolyFault> {
    Ok(text_of(alloc, &compare_square(alloc, ring, a, b)?)?)
}

fn constant_text<R: Ring>(alloc: Global, ring: &R, n: i128) -> Result<String, PolyFault> {
    Ok(text_of(alloc, &compare_constants(alloc, ring, n)?)?)
}

// The greatest monomial that differs is x^2 where both differ.
#[test]
fn greatest_difference(rt: HostRuntime) {
    let alloc = rt.alloc();
    let binary = Residue { modulus: 2 };
    agrees(&rt, square_text(alloc, &Whole, &1, &1), "equal");
    agrees(&rt, square_text(alloc, &binary, &3, &1), "equal");
    agrees(&rt, square_text(alloc, &Whole, &2, &3), "differs 2 1");
    agrees(&rt, square_text(alloc, &binary, &1, &2), "differs 2 2");
}

// 2^126 * 2 is at the bound, and 2^126 * 1 below it; over residues there is no bound.
#[test]
fn width_at_the_bound(rt: HostRuntime) {
    let alloc = rt.alloc();
    let mersenne = Residue {
        modulus: 2_305_843_009_213_693_951,
    };
    agrees(&rt, constant_text(alloc, &Whole, 2), "wide");
    agrees(&rt, constant_text(alloc, &Whole, 1), "equal");
    agrees(&rt, constant_text(alloc, &mersenne, 2), "differs 0 0");
}
