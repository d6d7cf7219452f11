// The substitution of an unknown by its definition, with the cofactor of the definition's equation.
//
// The powers of the definition and the quotients (u^k - d^k) / (u - d) go along with the powers k of the unknown u, each made
// once from the one before. The part of the power 0 is the first sum itself, and empty parts add nothing.

ghost use Rattle.std.specs.Prelude.{◌≡◌, ℕ, suc, ◌+◌, ◌*◌, ◌<◌, ◌≤◌, length, false, IfOk};
ghost use Rattle.tcl_ring.specs.Reduction as r;
ghost use Rattle.tcl_poly.specs.Unknown.{key_of};
ghost use Rattle.tcl_poly.specs.Polynomial as p;
ghost use Rattle.tcl_reduce.specs.Parts.{joined_by};
ghost use Rattle.tcl_reduce.specs.Fits.{ArePowers, RowFits, StepFits, values_by};
ghost use Rattle.tcl_reduce.specs.Substitution as s;

use std::alloc::{AllocError, Global};
use tcl_poly::{Poly, PolyFault, Unknown, is_zero, power, product, sum, zero};
use tcl_ring::Ring;

/// The polynomial after a substitution, and the cofactor.
#[derive(Drop)]
pub(crate) struct Substituted<R: Ring> {
    pub rest: Poly<R>,
    pub cofactor: Poly<R>,
}

// A power of the definition, and the quotient of the same power.
#[derive(Drop)]
struct Powers<R: Ring> {
    power: Poly<R>,
    quotient: Poly<R>,
}

/// Substitutes `d` for the unknown in the polynomial whose coefficient of the power 0 is `first`, and whose others are `parts`,
/// by their powers up to `top`.
pub(crate) fn substitute<R: Ring>(
    alloc: Global,
    ring: &R,
    unknown: Unknown,
    d: &Poly<R>,
    first: Poly<R>,
    parts: &[Poly<R>],
    top: u32,
) -> Result<Substituted<R>, AllocError>
    requires definition { p.IsOver (R.modulus_of ring.now) (R.amount ring.now) d.now }
    requires first { p.IsOver (R.modulus_of ring.now) (R.amount ring.now) first }
    requires parts { length parts.now ≡ top + 1 }
    requires rows { (j : ℕ) → j < top → RowFits (R.modulus_of ring.now) (key_of unknown) (p.terms_of (R.amount ring.now) d.now) (values_by (R.amount ring.now) (joined_by first parts.now)) (suc j) }
    requires steps { (j : ℕ) → j < top → StepFits (R.modulus_of ring.now) (key_of unknown) (p.terms_of (R.amount ring.now) d.now) j }
    ensures rest { IfOk result (λ made. p.terms_of (R.amount ring.now) made.rest ≡ s.substituted (r.reduced_by (R.modulus_of ring.now)) (p.terms_of (R.amount ring.now) d.now) (values_by (R.amount ring.now) (joined_by first parts.now)) (suc top)) }
    ensures cofactor { IfOk result (λ made. p.terms_of (R.amount ring.now) made.cofactor ≡ s.cofactor_by (r.reduced_by (R.modulus_of ring.now)) (key_of unknown) (p.terms_of (R.amount ring.now) d.now) (values_by (R.amount ring.now) (joined_by first parts.now)) (suc top)) }
{
    let mut powers = first_powers(alloc, ring, unknown)?;
    let mut rest = first;
    let mut cofactor = zero(alloc);
    for k in 0..top {
        powers = next_powers(alloc, ring, unknown, d, k, &powers)?;
        let part: &Poly<R> = &parts[k as usize + 1];
        rest = add_row(ring, rest, part, &powers.power)?;
        cofactor = add_row(ring, cofactor, part, &powers.quotient)?;
    }
    Ok(Substituted { rest, cofactor })
}

fn first_powers<R: Ring>(alloc: Global, ring: &R, unknown: Unknown) -> Result<Powers<R>, AllocError>
    ensures { IfOk result (λ first. (d : p.Polynomial) → ArePowers (R.modulus_of ring.now) (key_of unknown) d 0 (p.terms_of (R.amount ring.now) first.power) (p.terms_of (R.amount ring.now) first.quotient)) }
{
    let power = power_of(alloc, ring, unknown, 0)?;
    Ok(Powers {
        power,
        quotient: zero(alloc),
    })
}

fn next_powers<R: Ring>(
    alloc: Global,
    ring: &R,
    unknown: Unknown,
    d: &Poly<R>,
    k: u32,
    powers: &Powers<R>,
) -> Result<Powers<R>, AllocError>
    requires definition { p.IsOver (R.modulus_of ring.now) (R.amount ring.now) d.now }
    requires powers { ArePowers (R.modulus_of ring.now) (key_of unknown) (p.terms_of (R.amount ring.now) d.now) k (p.terms_of (R.amount ring.now) powers.now.power) (p.terms_of (R.amount ring.now) powers.now.quotient) }
    requires fits { StepFits (R.modulus_of ring.now) (key_of unknown) (p.terms_of (R.amount ring.now) d.now) k }
    ensures { IfOk result (λ next. ArePowers (R.modulus_of ring.now) (key_of unknown) (p.terms_of (R.amount ring.now) d.now) (suc k) (p.terms_of (R.amount ring.now) next.power) (p.terms_of (R.amount ring.now) next.quotient)) }
{
    let quotient = next_quotient(alloc, ring, &powers.quotient, d, unknown, k)?;
    let power = product(ring, &powers.power, d)?;
    Ok(Powers { power, quotient })
}

fn power_of<R: Ring>(
    alloc: Global,
    ring: &R,
    unknown: Unknown,
    k: u32,
) -> Result<Poly<R>, AllocError>
    ensures power { IfOk result (λ x. p.terms_of (R.amount ring.now) x ≡ p.power_of (r.reduced_by (R.modulus_of ring.now)) (key_of unknown) k) }
    ensures over { IfOk result (λ x. p.IsOver (R.modulus_of ring.now) (R.amount ring.now) x) }
{
    match power(alloc, ring, unknown, k) {
        Ok(x) => Ok(x),
        Err(PolyFault::Memory) => Err(AllocError),
        Err(PolyFault::Wide) => unreachable!(),
    }
}

/// The quotient times the definition, plus the power of the unknown.
fn next_quotient<R: Ring>(
    alloc: Global,
    ring: &R,
    quotient: &Poly<R>,
    d: &Poly<R>,
    unknown: Unknown,
    k: u32,
) -> Result<Poly<R>, AllocError>
    requires first { p.IsOver (R.modulus_of ring.now) (R.amount ring.now) quotient.now }
    requires second { p.IsOver (R.modulus_of ring.now) (R.amount ring.now) d.now }
    requires degrees { p.degree_of quotient.now + p.degree_of d.now ≤ 1024 }
    requires product_fits { r.is_wide (R.modulus_of ring.now) (p.norm_of (p.terms_of (R.amount ring.now) quotient.now) * p.norm_of (p.terms_of (R.amount ring.now) d.now)) ≡ false }
    requires sum_fits { r.is_wide (R.modulus_of ring.now) (p.norm_of (p.product_of (r.reduced_by (R.modulus_of ring.now)) (p.terms_of (R.amount ring.now) quotient.now) (p.terms_of (R.amount ring.now) d.now)) + p.norm_of (p.power_of (r.reduced_by (R.modulus_of ring.now)) (key_of unknown) k)) ≡ false }
    ensures sum { IfOk result (λ s. p.terms_of (R.amount ring.now) s ≡ p.sum_of (r.reduced_by (R.modulus_of ring.now)) (p.product_of (r.reduced_by (R.modulus_of ring.now)) (p.terms_of (R.amount ring.now) quotient.now) (p.terms_of (R.amount ring.now) d.now)) (p.power_of (r.reduced_by (R.modulus_of ring.now)) (key_of unknown) k)) }
    ensures over { IfOk result (λ s. p.IsOver (R.modulus_of ring.now) (R.amount ring.now) s) }
{
    let row = product(ring, quotient, d)?;
    sum(ring, row, power_of(alloc, ring, unknown, k)?)
}

/// The sum with the row of a part, where there is one.
fn add_row<R: Ring>(
    ring: &R,
    total: Poly<R>,
    part: &Poly<R>,
    factor: &Poly<R>,
) -> Result<Poly<R>, AllocError>
    requires total { p.IsOver (R.modulus_of ring.now) (R.amount ring.now) total }
    requires first { p.IsOver (R.modulus_of ring.now) (R.amount ring.now) part.now }
    requires second { p.IsOver (R.modulus_of ring.now) (R.amount ring.now) factor.now }
    requires degrees { p.degree_of part.now + p.degree_of factor.now ≤ 1024 }
    requires product_fits { r.is_wide (R.modulus_of ring.now) (p.norm_of (p.terms_of (R.amount ring.now) part.now) * p.norm_of (p.terms_of (R.amount ring.now) factor.now)) ≡ false }
    requires sum_fits { r.is_wide (R.modulus_of ring.now) (p.norm_of (p.terms_of (R.amount ring.now) total) + p.norm_of (p.product_of (r.reduced_by (R.modulus_of ring.now)) (p.terms_of (R.amount ring.now) part.now) (p.terms_of (R.amount ring.now) factor.now))) ≡ false }
    ensures sum { IfOk result (λ s. p.terms_of (R.amount ring.now) s ≡ p.sum_of (r.reduced_by (R.modulus_of ring.now)) (p.terms_of (R.amount ring.now) total) (p.product_of (r.reduced_by (R.modulus_of ring.now)) (p.terms_of (R.amount ring.now) part.now) (p.terms_of (R.amount ring.now) factor.now))) }
    ensures over { IfOk result (λ s. p.IsOver (R.modulus_of ring.now) (R.amount ring.now) s) }
{
    if is_zero(part) {
        return Ok(total);
    }
    let row = product(ring, part, factor)?;
    sum(ring, total, row)
}
