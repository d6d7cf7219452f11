//! The squares of the variables of one bit.

ghost use Rattle.std.specs.Prelude.{◌≡◌, ◌<◌, ◌^◌, map, filter, length, slice_get, IfOk, OnOk};
ghost use Rattle.tcl_ring.specs.Reduction as r;
ghost use Rattle.tcl_poly.specs.Polynomial as p;
ghost use Rattle.tcl_algebra.specs.Equations as equations;
ghost use Rattle.tcl_algebra.specs.Held.{IsAdded};

use crate::rows::Rows;
use std::alloc::{AllocError, Global};
use tcl_goals::{Fact, Lemmas, fact_variables};
use tcl_lang::{Line, Ssa, Variable};
use tcl_poly::{Poly, product};
use tcl_ring::Ring;
use tcl_term_poly::{difference, variable};

/// Whether the variable is a word of one bit without a sign.
fn is_bit(variables: &[Variable], v: u32) -> bool
    ensures { result ≡ equations.is_bit_variable (slice_get variables.now v) }
{
    match variables.get(v as usize) {
        Some(variable) => !variable.ty.signed && variable.ty.width == 1,
        None => false,
    }
}

/// `x * x - x`.
fn square<R: Ring>(alloc: Global, ring: &R, v: u32) -> Result<Poly<R>, AllocError>
    ensures { IfOk result (λ x. p.terms_of (R.amount ring.now) x ≡ equations.square_polynomial (r.reduced_by (R.modulus_of ring.now)) v) }
{
    let x = variable(alloc, ring, v)?;
    let twice = product(ring, &x, &x)?;
    difference(ring, twice, &x)
}

/// Whether the line defines the variable.
fn defines(line: &Line, v: u32) -> bool
    ensures { result ≡ equations.defines_variable v line.now }
{
    match line {
        Line::Input(_, name) => *name == v,
        Line::Step(instr) => instr.outs.as_slice().iter().any(|name| *name == v),
        _ => false,
    }
}

/// The place of the line that defines a variable; the number of lines where none does.
fn definer(lines: &[Line], v: u32) -> u32
    requires { length lines.now < 2 ^ 32 }
    ensures { result ≡ equations.definer_from 0 lines.now v }
{
    for k in 0..lines.len() {
        if defines(&lines[k], v) {
            return k as u32;
        }
    }
    lines.len() as u32
}

/// Adds the squares of those variables that are words of one bit.
fn add_bits<R: Ring>(
    alloc: Global,
    ring: &R,
    ssa: &Ssa,
    named: &[u32],
    rows: &mut Rows<R>,
) -> Result<(), AllocError>
    ensures { OnOk result (IsAdded (R.amount ring.now) rows.old.list rows.new.list rows.old.places rows.new.places
        (map (equations.square_at (R.modulus_of ring.now) ssa.now) (filter (λ v. equations.is_bit_variable (slice_get ssa.now.variables v)) named.now))) }
{
    let variables = ssa.variables().as_slice();
    let lines = ssa.lines().as_slice();
    for k in 0..named.len() {
        let v = named[k];
        if is_bit(variables, v) {
            let equation = square(alloc, ring, v)?;
            rows.push(definer(lines, v), equation)?;
        }
    }
    Ok(())
}

/// Adds the square of each variable of one bit that the fact names, by number.
pub(crate) fn add_squares<R: Ring>(
    alloc: Global,
    ring: &R,
    ssa: &Ssa,
    lemmas: &Lemmas,
    fact: &Fact,
    rows: &mut Rows<R>,
) -> Result<(), AllocError>
    ensures { OnOk result (IsAdded (R.amount ring.now) rows.old.list rows.new.list rows.old.places rows.new.places (equations.squares_of (R.modulus_of ring.now) ssa.now lemmas.now.items fact.now)) }
{
    let named = fact_variables(alloc, ssa, lemmas, fact)?;
    add_bits(alloc, ring, ssa, named.as_slice(), rows)
}
