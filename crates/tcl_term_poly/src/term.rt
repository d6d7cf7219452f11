//! The polynomial of a term.

ghost use Rattle.std.specs.Prelude.{◌≡◌, ◌+◌, ◌≤◌, false, unsigned_abs, IfOk};
ghost use Rattle.tcl_ring.specs.Reduction as r;
ghost use Rattle.tcl_poly.specs.Polynomial as p;
ghost use Rattle.tcl_lang.specs.Bound as bound;
ghost use Rattle.tcl_term_poly.specs.TermPolynomial as words;

use std::alloc::{AllocError, Global};
use tcl_lang::Term;
use tcl_measure::norm;
use tcl_poly::{Poly, PolyFault, Unknown, negated, number, product, raised, sum, unknown, zero};
use tcl_ring::Ring;

/// The polynomial of a term whose degree bound is at most 1,024 and, over the integers, whose norm bound is below 2^127.
///
/// No part is made of which nothing is left: where the norm bound of a product is 0, or an exponent is 0, a part may be too
/// great.
pub fn polynomial<R: Ring>(alloc: Global, ring: &R, term: &Term) -> Result<Poly<R>, AllocError>
    requires degree { bound.degree_of term.now ≤ 1024 }
    requires fits { r.is_wide (R.modulus_of ring.now) (bound.norm_of term.now) ≡ false }
    ensures polynomial { IfOk result (λ x. p.terms_of (R.amount ring.now) x ≡ words.polynomial_of (r.reduced_by (R.modulus_of ring.now)) term.now) }
    ensures over { IfOk result (λ x. p.IsOver (R.modulus_of ring.now) (R.amount ring.now) x) }
{
    match term {
        Term::Var(name) => {
            let unknown = variable(alloc, ring, *name)?;
            Ok(unknown)
        }
        Term::Num(n) => {
            let number = constant(alloc, ring, *n)?;
            Ok(number)
        }
        Term::Neg(inner) => {
            let part = polynomial(alloc, ring, inner.get())?;
            let opposite = negated(ring, &part)?;
            Ok(opposite)
        }
        Term::Add(left, right) => {
            let first = polynomial(alloc, ring, left.get())?;
            let second = polynomial(alloc, ring, right.get())?;
            let total = sum(ring, first, second)?;
            Ok(total)
        }
        Term::Sub(left, right) => {
            let first = polynomial(alloc, ring, left.get())?;
            let second = polynomial(alloc, ring, right.get())?;
            let rest = difference(ring, first, &second)?;
            Ok(rest)
        }
        Term::Mul(left, right) => {
            if norm(term) == 0 {
                return Ok(zero(alloc));
            }
            let first = polynomial(alloc, ring, left.get())?;
            let second = polynomial(alloc, ring, right.get())?;
            let made = product(ring, &first, &second)?;
            Ok(made)
        }
        Term::Pow(base, exponent) => {
            if *exponent == 0 {
                let one = constant(alloc, ring, 1)?;
                return Ok(one);
            }
            let part = polynomial(alloc, ring, base.get())?;
            let power = raised(ring, &part, *exponent)?;
            Ok(power)
        }
    }
}

/// The unknown of a variable.
pub fn variable<R: Ring>(alloc: Global, ring: &R, name: u32) -> Result<Poly<R>, AllocError>
    ensures variable { IfOk result (λ x. p.terms_of (R.amount ring.now) x ≡ words.variable_of (r.reduced_by (R.modulus_of ring.now)) name) }
    ensures over { IfOk result (λ x. p.IsOver (R.modulus_of ring.now) (R.amount ring.now) x) }
{
    match unknown(alloc, ring, Unknown::Var(name)) {
        Ok(x) => Ok(x),
        Err(PolyFault::Memory) => Err(AllocError),
        Err(PolyFault::Wide) => unreachable!(),
    }
}

/// A number that fits the ring.
fn constant<R: Ring>(alloc: Global, ring: &R, n: i128) -> Result<Poly<R>, AllocError>
    requires { r.is_wide (R.modulus_of ring.now) (unsigned_abs n) ≡ false }
    ensures number { IfOk result (λ x. p.terms_of (R.amount ring.now) x ≡ p.number_of (r.reduced_by (R.modulus_of ring.now)) n) }
    ensures over { IfOk result (λ x. p.IsOver (R.modulus_of ring.now) (R.amount ring.now) x) }
{
    match number(alloc, ring, n) {
        Ok(x) => Ok(x),
        Err(PolyFault::Memory) => Err(AllocError),
        Err(PolyFault::Wide) => unreachable!(),
    }
}

/// The difference of two polynomials whose sum fits the ring. The terms of the first are moved into it.
pub fn difference<R: Ring>(ring: &R, a: Poly<R>, b: &Poly<R>) -> Result<Poly<R>, AllocError>
    requires first { p.IsOver (R.modulus_of ring.now) (R.amount ring.now) a }
    requires second { p.IsOver (R.modulus_of ring.now) (R.amount ring.now) b.now }
    requires fits { r.is_wide (R.modulus_of ring.now) (p.norm_of (p.terms_of (R.amount ring.now) a) + p.norm_of (p.terms_of (R.amount ring.now) b.now)) ≡ false }
    ensures difference { IfOk result (λ s. p.terms_of (R.amount ring.now) s ≡ words.difference_of (r.reduced_by (R.modulus_of ring.now)) (p.terms_of (R.amount ring.now) a) (p.terms_of (R.amount ring.now) b.now)) }
    ensures over { IfOk result (λ s. p.IsOver (R.modulus_of ring.now) (R.amount ring.now) s) }
{
    let b = negated(ring, b)?;
    sum(ring, a, b)
}
