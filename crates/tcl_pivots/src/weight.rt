// What is wide of cofactors that stand after a step.

ghost use Rattle.std.specs.Prelude.{◌≡◌, ℕ, ◌+◌, ◌*◌, ◌≤◌, ◌^◌, min, length, nat_le};
ghost use Rattle.tcl_ring.specs.Reduction as r;
ghost use Rattle.tcl_poly.specs.Polynomial as p;
ghost use Rattle.tcl_poly.specs.Combination.{weight_of};
ghost use Rattle.tcl_reduce.specs.Answer.{numbered};
ghost use Rattle.tcl_reduce.specs.Remainder.{pairs_of};
ghost use Rattle.tcl_reduce.specs.CofactorSum as s;
ghost use Rattle.tcl_pivots.specs.CofactorLists.{AreBelow, equations_of};

use tcl_num::{saturating_product, saturating_sum};
use tcl_poly::{Cofactor, Poly, degree, is_wide, norm_of_terms, terms};
use tcl_ring::Ring;

// The magnitude at which norms stop.
const LIMIT: u128 = 1 << 127;

// The greatest sum of the degrees of a cofactor and its equation.
const DEGREE: u64 = 1024;

/// Whether the cofactors are wide: the degrees of one and its equation add to more than 1,024, or, over the integers, the sum
/// of the products of the norms and of that norm is 2^127 or more.
pub(crate) fn are_wide<R: Ring>(
    ring: &R,
    equations: &[Poly<R>],
    norm: u128,
    cofactors: &[Cofactor<R>],
) -> bool
    requires { AreBelow (length equations.now) (numbered cofactors.now) }
    ensures { (n : ℕ) → norm ≡ min n (2 ^ 127) → result ≡ s.are_wide (R.modulus_of ring.now) (equations_of (R.amount ring.now) equations.now) n (pairs_of (R.amount ring.now) (numbered cofactors.now)) }
{
    if is_deep(ring, equations, cofactors) {
        return true;
    }
    let weight = weight(ring, equations, cofactors);
    is_wide(ring, saturating_sum(norm, weight, LIMIT))
}

/// Whether a cofactor and its equation have degrees that add to more than 1,024.
fn is_deep<R: Ring>(ring: &R, equations: &[Poly<R>], cofactors: &[Cofactor<R>]) -> bool
    requires { AreBelow (length equations.now) (numbered cofactors.now) }
    ensures { result ≡ s.is_deep (equations_of (R.amount ring.now) equations.now) (pairs_of (R.amount ring.now) (numbered cofactors.now)) }
{
    let mut deep = false;
    let mut k = cofactors.len();
    while k > 0 {
        k -= 1;
        let cofactor: &Cofactor<R> = &cofactors[k];
        let equation: &Poly<R> = &equations[cofactor.equation as usize];
        deep = is_deep_pair(&cofactor.poly, equation) || deep;
    }
    deep
}

fn is_deep_pair<R: Ring>(cofactor: &Poly<R>, equation: &Poly<R>) -> bool
    ensures { result ≡ nat_le 1025 (p.degree_of cofactor.now + p.degree_of equation.now) }
{
    degree(cofactor) as u64 + degree(equation) as u64 > DEGREE
}

/// The sum of the products of the norms, which stays at 2^127 where it is greater.
fn weight<R: Ring>(ring: &R, equations: &[Poly<R>], cofactors: &[Cofactor<R>]) -> u128
    requires { AreBelow (length equations.now) (numbered cofactors.now) }
    ensures { result ≡ min (weight_of (R.amount ring.now) equations.now (numbered cofactors.now)) (2 ^ 127) }
{
    let mut weight = 0;
    let mut k = cofactors.len();
    while k > 0 {
        k -= 1;
        let cofactor: &Cofactor<R> = &cofactors[k];
        let equation: &Poly<R> = &equations[cofactor.equation as usize];
        let product = saturating_product(
            norm_of_terms(ring, terms(&cofactor.poly)),
            norm_of_terms(ring, terms(equation)),
            LIMIT,
        );
        weight = saturating_sum(product, weight, LIMIT);
    }
    weight
}
