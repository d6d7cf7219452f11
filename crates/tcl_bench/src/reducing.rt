// Plain reduction over the integers.

ghost use Rattle.std.specs.Prelude.{IfOk};
ghost use Rattle.tcl_ring.specs.Reduction as r;
ghost use Rattle.tcl_poly.specs.Polynomial.{IsOver};
ghost use Rattle.tcl_reduce.specs.Answer.{definitions_of};
ghost use Rattle.tcl_reduce.specs.Remainder.{AreDefinitions};

use std::alloc::{AllocError, Global};
use tcl_poly::{
    Cofactors, Poly, PolyFault, Unknown, add, degree, mul, number, terms, unknown, zero,
};
use tcl_reduce::{Definition, Defs, Plain, plain};
use tcl_ring::{Ring, Whole};

// The variables up to this number have no definition.
const INPUTS: u32 = 16;

/// Reduces a polynomial of about so many terms, and says how many terms are left, and the number and terms of cofactors.
pub(crate) fn reduce_text(
    alloc: Global,
    count: u32,
    definitions: u32,
) -> Result<String, AllocError> {
    match reduced(alloc, &Whole, count, definitions) {
        Ok(Plain::Zero(cofactors, _)) => rest_text(alloc, 0, &cofactors),
        Ok(Plain::Rest(rest, cofactors, _)) => rest_text(alloc, terms(&rest).len(), &cofactors),
        Ok(Plain::Wide(_)) => String::from_str(alloc, "wide\n"),
        Ok(Plain::Large(_, size)) => format!(in alloc; "large {size}\n"),
        Ok(Plain::Memory) => String::from_str(alloc, "memory\n"),
        Err(_) => String::from_str(alloc, "no polynomial\n"),
    }
}

fn rest_text(
    alloc: Global,
    left: usize,
    cofactors: &Cofactors<Whole>,
) -> Result<String, AllocError> {
    let mut size = 0_usize;
    for cofactor in cofactors.as_slice() {
        size = size.saturating_add(terms(&cofactor.poly).len());
    }
    let count = cofactors.len();
    format!(in alloc; "left {left} cofactors {count} terms {size}\n")
}

fn reduced<R: Ring>(
    alloc: Global,
    ring: &R,
    count: u32,
    definitions: u32,
) -> Result<Plain<R>, PolyFault> {
    let defs = defined_variables(alloc, ring, definitions)?;
    let f = polynomial(alloc, ring, count, definitions)?;
    reduced_by(alloc, ring, &defs, &f)
}

fn reduced_by<R: Ring>(
    alloc: Global,
    ring: &R,
    defs: &Defs<R>,
    f: &Poly<R>,
) -> Result<Plain<R>, PolyFault>
    requires definitions { AreDefinitions (r.reduced_by (R.modulus_of ring.now)) (definitions_of (R.amount ring.now) defs.now) }
    requires polynomial { IsOver (R.modulus_of ring.now) (R.amount ring.now) f.now }
{
    if degree(f) > 1024 {
        return Err(PolyFault::Wide);
    }
    Ok(plain(alloc, ring, defs, f))
}

/// So many definitions, one at each place.
fn defined_variables<R: Ring>(alloc: Global, ring: &R, count: u32) -> Result<Defs<R>, PolyFault>
    ensures { IfOk result (λ defs. AreDefinitions (r.reduced_by (R.modulus_of ring.now)) (definitions_of (R.amount ring.now) defs)) }
{
    let mut defs = Defs::new(alloc);
    for place in 0..count {
        let poly = definition_of(alloc, ring, place)?;
        defs.push(Definition {
            place,
            variable: INPUTS.saturating_add(place),
            poly,
        })?;
    }
    Ok(defs)
}

/// Twice a product of two inputs, plus the variable that an earlier place defines, or an input.
fn definition_of<R: Ring>(alloc: Global, ring: &R, k: u32) -> Result<Poly<R>, PolyFault>
    ensures { IfOk result (λ p. IsOver (R.modulus_of ring.now) (R.amount ring.now) p) }
{
    let first = term(alloc, ring, 2, &[k % INPUTS, k / INPUTS % INPUTS])?;
    let second = term(alloc, ring, 1, &[earlier(k)])?;
    add(ring, &first, &second)
}

/// The variable of an earlier place, or an input.
fn earlier(k: u32) -> u32 {
    if k >= 20 {
        INPUTS.saturating_add(k - 20)
    } else {
        (k + 5) % INPUTS
    }
}

/// So many different products of an input and two defined variables.
fn polynomial<R: Ring>(
    alloc: Global,
    ring: &R,
    count: u32,
    definitions: u32,
) -> Result<Poly<R>, PolyFault>
    ensures { IfOk result (λ p. IsOver (R.modulus_of ring.now) (R.amount ring.now) p) }
{
    let mut sum = zero(alloc);
    for k in 0..count {
        let b = defined(definitions, k);
        let c = defined(
            definitions,
            k.saturating_add(k / definitions.max(1)).saturating_add(1),
        );
        let coefficient = 1 + (k % 7) as i128;
        let made = term(alloc, ring, coefficient, &[k % INPUTS, b, c])?;
        sum = add(ring, &sum, &made)?;
    }
    Ok(sum)
}

/// A defined variable, where there is one.
fn defined(definitions: u32, k: u32) -> u32 {
    INPUTS.saturating_add(k % definitions.max(1))
}

/// A coefficient times variables.
fn term<R: Ring>(
    alloc: Global,
    ring: &R,
    coefficient: i128,
    variables: &[u32],
) -> Result<Poly<R>, PolyFault>
    ensures { IfOk result (λ p. IsOver (R.modulus_of ring.now) (R.amount ring.now) p) }
{
    let mut product = number(alloc, ring, coefficient)?;
    for variable in variables {
        let factor = unknown(alloc, ring, Unknown::Var(*variable))?;
        product = multiply(ring, &product, &factor)?;
    }
    Ok(product)
}

fn multiply<R: Ring>(ring: &R, a: &Poly<R>, b: &Poly<R>) -> Result<Poly<R>, PolyFault>
    requires first { IsOver (R.modulus_of ring.now) (R.amount ring.now) a.now }
    requires second { IsOver (R.modulus_of ring.now) (R.amount ring.now) b.now }
    ensures { IfOk result (λ p. IsOver (R.modulus_of ring.now) (R.amount ring.now) p) }
{
    if degree(a) > 1024 || degree(b) > 1024 - degree(a) {
        return Err(PolyFault::Wide);
    }
    mul(ring, a, b)
}
