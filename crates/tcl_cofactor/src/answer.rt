// The comparison and its answers.

ghost use Rattle.std.specs.Prelude.{map, ℕ};
ghost use Rattle.tcl_ring.specs.Reduction as r;
ghost use Rattle.tcl_poly.specs.Polynomial as p;
ghost use Rattle.tcl_poly.specs.Combination.{AreOver, AreCofactors, combination_of, weight_of};
ghost use Rattle.tcl_cofactor.specs.Comparison.{IsComparison};

use crate::combination::{combine, weight};
use crate::difference::first_difference;
use std::alloc::Global;
use tcl_poly::{Cofactors, Mono, Poly, is_wide};
use tcl_ring::Ring;

/// How a polynomial compares with a combination of equations.
#[derive(Drop)]
pub enum CofactorAnswer {
    /// They are equal.
    Equal,
    /// The greatest monomial at which their coefficients differ.
    Differs(Mono),
    /// The sum of the products of the norms is 2^127 or more, over the integers.
    Wide,
    /// Memory has run out.
    Memory,
}

/// Compares `f` with the sum of the cofactors' products with their equations.
///
/// Over the integers the sum of the products of the norms is looked at first, so that no coefficient on the way can be
/// too great. The difference itself is never formed, since it can be too great where each side is not.
pub fn check_cofactors<R: Ring>(
    alloc: Global,
    ring: &R,
    equations: &[Poly<R>],
    f: &Poly<R>,
    cofactors: &Cofactors<R>,
) -> CofactorAnswer
    requires f { p.IsOver (R.modulus_of ring.now) (R.amount ring.now) f.now }
    requires equations { AreOver (R.modulus_of ring.now) (R.amount ring.now) equations.now }
    requires cofactors { AreCofactors (R.modulus_of ring.now) (R.amount ring.now) equations.now (map (λ c. (c.equation, c.poly)) cofactors.now) }
    ensures comparison { let pairs = map (λ c. (c.equation, c.poly)) cofactors.now in
        IsComparison
        (r.is_wide (R.modulus_of ring.now) (weight_of (R.amount ring.now) equations.now pairs))
        (p.terms_of (R.amount ring.now) f.now)
        (combination_of (r.reduced_by (R.modulus_of ring.now)) (R.amount ring.now) equations.now pairs)
        result }
{
    if is_wide(ring, weight(ring, equations, cofactors.as_slice())) {
        return CofactorAnswer::Wide;
    }
    let sum = match combine(alloc, ring, equations, cofactors.as_slice()) {
        Ok(sum) => sum,
        Err(_) => return CofactorAnswer::Memory,
    };
    let difference = match first_difference(ring, f, &sum) {
        Ok(difference) => difference,
        Err(_) => return CofactorAnswer::Memory,
    };
    match difference {
        Some(mono) => CofactorAnswer::Differs(mono),
        None => CofactorAnswer::Equal,
    }
}
