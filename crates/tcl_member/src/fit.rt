// Whether equations can be searched.

ghost use Rattle.std.specs.Prelude.{◌≡◌, ℕ, ℤ, ◌≤◌, ◌↔◌, length, None, IsTrue};
ghost use Rattle.tcl_pivots.specs.CofactorLists.{equations_of};
ghost use Rattle.tcl_member.specs.Fit.{AreFit, AreNarrow, AreSome};

use tcl_poly::{Poly, is_wide, is_zero, norm_of_terms, terms};
use tcl_ring::Ring;

/// Whether the equations, which begin with those of so many definitions, can be searched: their numbers are below 2^32, and over
/// the integers each norm is below 2^127, and no equation of a definition is zero.
pub fn are_fit<R: Ring>(ring: &R, equations: &[Poly<R>], definitions: usize) -> bool
    requires { definitions ≤ length equations.now }
    ensures { IsTrue result ↔ AreFit (R.modulus_of ring.now) (equations_of (R.amount ring.now) equations.now) definitions }
{
    equations.len() as u64 <= 1 << 32
        && are_narrow(ring, equations)
        && are_some(ring, equations, definitions)
}

/// Whether no norm is too great.
fn are_narrow<R: Ring>(ring: &R, equations: &[Poly<R>]) -> bool
    ensures { IsTrue result ↔ AreNarrow (R.modulus_of ring.now) (equations_of (R.amount ring.now) equations.now) }
{
    let mut k = equations.len();
    while k > 0 {
        k -= 1;
        let equation: &Poly<R> = &equations[k];
        if is_wide(ring, norm_of_terms(ring, terms(equation))) {
            return false;
        }
    }
    true
}

/// Whether over the integers the first equations are not zero.
fn are_some<R: Ring>(ring: &R, equations: &[Poly<R>], definitions: usize) -> bool
    requires { definitions ≤ length equations.now }
    ensures { IsTrue result ↔ AreSome (R.modulus_of ring.now) (equations_of (R.amount ring.now) equations.now) definitions }
{
    match ring.modulus() {
        None => are_nonzero(equations, definitions),
        Some(_) => true,
    }
}

/// Whether the first equations are not zero.
fn are_nonzero<R: Ring>(equations: &[Poly<R>], definitions: usize) -> bool
    requires { definitions ≤ length equations.now }
    ensures { (value : R.Elem → ℤ) → IsTrue result ↔ AreSome None (equations_of value equations.now) definitions }
{
    for k in 0..definitions {
        if is_zero(&equations[k]) {
            return false;
        }
    }
    true
}
