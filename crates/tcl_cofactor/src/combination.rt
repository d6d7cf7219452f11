// The sum of the cofactors' products with their equations.

ghost use Rattle.std.specs.Prelude.{◌≡◌, ℕ, ◌+◌, ◌*◌, ◌≤◌, ◌^◌, map, min, false, IfOk};
ghost use Rattle.tcl_ring.specs.Reduction as r;
ghost use Rattle.tcl_poly.specs.Polynomial as p;
ghost use Rattle.tcl_poly.specs.Combination.{AreOver, AreCofactors, combination_of, weight_of};

use std::alloc::{AllocError, Global};
use tcl_num::{saturating_product, saturating_sum};
use tcl_poly::{Cofactor, Poly, norm_of_terms, product, sum, terms, zero};
use tcl_ring::Ring;

// The magnitude at which norms stop.
const LIMIT: u128 = 1 << 127;

/// The sum of the products of the norms, which stays at 2^127 where it is greater.
pub(crate) fn weight<R: Ring>(ring: &R, equations: &[Poly<R>], cofactors: &[Cofactor<R>]) -> u128
    requires { AreCofactors (R.modulus_of ring.now) (R.amount ring.now) equations.now (map (λ c. (c.equation, c.poly)) cofactors.now) }
    ensures { result ≡ min (weight_of (R.amount ring.now) equations.now (map (λ c. (c.equation, c.poly)) cofactors.now)) (2 ^ 127) }
{
    let mut weight = 0;
    let mut k = cofactors.len();
    while k > 0 {
        k -= 1;
        let cofactor: &Cofactor<R> = &cofactors[k];
        let equation: &Poly<R> = &equations[cofactor.equation as usize];
        let product = saturating_product(
            norm_of_terms(ring, terms(&cofactor.poly)),
            norm_of_terms(ring, terms(equation)),
            LIMIT,
        );
        weight = saturating_sum(product, weight, LIMIT);
    }
    weight
}

/// The sum of the products, where no coefficient can be too great.
pub(crate) fn combine<R: Ring>(
    alloc: Global,
    ring: &R,
    equations: &[Poly<R>],
    cofactors: &[Cofactor<R>],
) -> Result<Poly<R>, AllocError>
    requires equations { AreOver (R.modulus_of ring.now) (R.amount ring.now) equations.now }
    requires cofactors { AreCofactors (R.modulus_of ring.now) (R.amount ring.now) equations.now (map (λ c. (c.equation, c.poly)) cofactors.now) }
    requires fits { r.is_wide (R.modulus_of ring.now) (weight_of (R.amount ring.now) equations.now (map (λ c. (c.equation, c.poly)) cofactors.now)) ≡ false }
    ensures { IfOk result (λ s. p.terms_of (R.amount ring.now) s ≡ combination_of (r.reduced_by (R.modulus_of ring.now)) (R.amount ring.now) equations.now (map (λ c. (c.equation, c.poly)) cofactors.now)) }
{
    let mut sum = zero(alloc);
    let mut k = cofactors.len();
    while k > 0 {
        k -= 1;
        let cofactor: &Cofactor<R> = &cofactors[k];
        let equation: &Poly<R> = &equations[cofactor.equation as usize];
        sum = add_product(ring, &cofactor.poly, equation, sum)?;
    }
    Ok(sum)
}

/// A product and the sum with what is there.
fn add_product<R: Ring>(
    ring: &R,
    a: &Poly<R>,
    b: &Poly<R>,
    total: Poly<R>,
) -> Result<Poly<R>, AllocError>
    requires first { p.IsOver (R.modulus_of ring.now) (R.amount ring.now) a.now }
    requires second { p.IsOver (R.modulus_of ring.now) (R.amount ring.now) b.now }
    requires third { p.IsOver (R.modulus_of ring.now) (R.amount ring.now) total }
    requires degrees { p.degree_of a.now + p.degree_of b.now ≤ 1024 }
    requires product_fits { r.is_wide (R.modulus_of ring.now) (p.norm_of (p.terms_of (R.amount ring.now) a.now) * p.norm_of (p.terms_of (R.amount ring.now) b.now)) ≡ false }
    requires sum_fits { r.is_wide (R.modulus_of ring.now) (p.norm_of (p.product_of (r.reduced_by (R.modulus_of ring.now)) (p.terms_of (R.amount ring.now) a.now) (p.terms_of (R.amount ring.now) b.now)) + p.norm_of (p.terms_of (R.amount ring.now) total)) ≡ false }
    ensures { IfOk result (λ s. p.terms_of (R.amount ring.now) s ≡ p.sum_of (r.reduced_by (R.modulus_of ring.now)) (p.product_of (r.reduced_by (R.modulus_of ring.now)) (p.terms_of (R.amount ring.now) a.now) (p.terms_of (R.amount ring.now) b.now)) (p.terms_of (R.amount ring.now) total)) }
{
    let row = product(ring, a, b)?;
    sum(ring, row, total)
}
