// Cofactors from plain data into a ring, and back.

ghost use Rattle.std.specs.Prelude.{◌≡◌, true, List, IfOk, IsTrue};
ghost use Rattle.tcl_goals.specs.Numbers.{is_above};
ghost use Rattle.tcl_ring.specs.Reduction as r;
ghost use Rattle.tcl_poly.specs.Combination.{Terms, AreCofactors};
ghost use Rattle.tcl_remainder.specs.Lines as s;

use crate::{CofactorLine, CofactorLines, degree, is_plain, polynomial_of, remainder_of};
use std::alloc::{AllocError, Global};
use tcl_list::Listing;
use tcl_poly::{Cofactor, Cofactors, Poly};
use tcl_ring::Ring;

/// Whether each line's equation is one of these, and the degrees of cofactor and equation add to at most 1,024: a cofactor
/// has the degree of its polynomial in the ring.
pub fn are_fitting<R: Ring>(ring: &R, equations: &[Poly<R>], lines: &CofactorLines) -> bool
    ensures fitting { result ≡ s.are_fitting (r.reduced_by (R.modulus_of ring.now)) equations.now lines.now }
    ensures narrow { IsTrue result → s.are_narrow (r.reduced_by (R.modulus_of ring.now)) lines.now ≡ true }
{
    let lines = lines.lines().as_slice();
    for line in lines {
        if !is_fitting(ring, equations, line) {
            return false;
        }
    }
    true
}

fn is_fitting<R: Ring>(ring: &R, equations: &[Poly<R>], line: &CofactorLine) -> bool
    ensures { result ≡ s.is_fitting (r.reduced_by (R.modulus_of ring.now)) equations.now line.now }
{
    let equation = line.equation as usize;
    if equation >= equations.len() {
        return false;
    }
    let cofactor_degree = degree(ring, &line.cofactor) as u64;
    let equation_degree = tcl_poly::degree(&equations[equation]) as u64;
    cofactor_degree + equation_degree <= 1024
}

/// The cofactors in a ring: the polynomials of the lines.
pub fn cofactors_of<R: Ring>(
    alloc: Global,
    ring: &R,
    lines: &CofactorLines,
) -> Result<Cofactors<R>, AllocError>
    requires { s.are_narrow (r.reduced_by (R.modulus_of ring.now)) lines.now ≡ true }
    ensures cofactors { IfOk result (λ cs. s.valued (R.amount ring.now) (s.numbered cs) ≡ s.cofactors_of (r.reduced_by (R.modulus_of ring.now)) lines.now) }
    ensures over { IfOk result (λ cs. s.AreOver (R.modulus_of ring.now) (R.amount ring.now) (s.numbered cs)) }
    ensures fitting { IfOk result (λ cs. (equations : List (Terms R.Elem)) → s.are_fitting (r.reduced_by (R.modulus_of ring.now)) equations lines.now ≡ true → AreCofactors (R.modulus_of ring.now) (R.amount ring.now) equations (s.numbered cs)) }
{
    let lines = lines.lines().as_slice();
    let mut cofactors = Listing::new(alloc);
    for line in lines {
        let poly = polynomial_of(alloc, ring, &line.cofactor)?;
        cofactors.push(Cofactor {
            equation: line.equation,
            poly,
        })?;
    }
    Ok(cofactors)
}

/// Whether plain data has each cofactor, and the numbers of their equations rise.
pub fn are_plain<R: Ring>(ring: &R, cofactors: &Cofactors<R>) -> bool
    ensures { result ≡ s.are_plain (s.valued (R.amount ring.now) (s.numbered cofactors.now)) }
{
    let mut last = None;
    for cofactor in cofactors.as_slice() {
        if !is_above(last, cofactor.equation) || !is_plain(ring, &cofactor.poly) {
            return false;
        }
        last = Some(cofactor.equation);
    }
    true
}

fn is_above(last: Option<u32>, n: u32) -> bool
    ensures { result ≡ is_above last n }
{
    match last {
        None => true,
        Some(last) => last < n,
    }
}

/// The cofactors as plain data.
pub fn lines_of<R: Ring>(
    alloc: Global,
    ring: &R,
    cofactors: &Cofactors<R>,
) -> Result<CofactorLines, AllocError>
    requires over { s.AreOver (R.modulus_of ring.now) (R.amount ring.now) (s.numbered cofactors.now) }
    requires plain { s.are_plain (s.valued (R.amount ring.now) (s.numbered cofactors.now)) ≡ true }
    ensures lines { IfOk result (λ lines. lines ≡ s.lines_of (s.valued (R.amount ring.now) (s.numbered cofactors.now))) }
    ensures cofactors { IfOk result (λ lines. s.cofactors_of (r.reduced_by (R.modulus_of ring.now)) lines ≡ s.valued (R.amount ring.now) (s.numbered cofactors.now)) }
    ensures fitting { IfOk result (λ lines. (equations : List (Terms R.Elem)) → AreCofactors (R.modulus_of ring.now) (R.amount ring.now) equations (s.numbered cofactors.now) → s.are_fitting (r.reduced_by (R.modulus_of ring.now)) equations lines ≡ true) }
{
    let mut lines = Listing::new(alloc);
    for cofactor in cofactors.as_slice() {
        let plain = remainder_of(alloc, ring, &cofactor.poly)?;
        lines.push(CofactorLine {
            equation: cofactor.equation,
            cofactor: plain,
        })?;
    }
    Ok(CofactorLines::of(lines))
}
