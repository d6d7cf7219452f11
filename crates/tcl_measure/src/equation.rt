//! Static bounds of an equation: its norm, its count of monomials and its size are the sums of both sides, its degree is
//! the greater of the two.

ghost use Rattle.std.specs.Prelude.{◌≡◌};
ghost use Rattle.tcl_lang.specs.Bound as bound;
ghost use Rattle.tcl_lang.specs.Values as values;

use crate::term::{NORM_END, SIZE_END, degree, norm, size, sum_of_counts, terms};
use tcl_lang::{Term, Variable};
use tcl_num::saturating_sum;

/// The norm of the equation. It stays at `2^127`.
#[tactic(auto, using(tcl_num::proofs::SaturatingCounts::sum_saturates))]
pub fn equation_norm(left: &Term, right: &Term) -> u128
    ensures { result ≡ bound.equation_norm left.now right.now }
{
    saturating_sum(norm(left), norm(right), NORM_END)
}

/// The degree of the equation. It stays at `2^32 - 1`.
#[tactic(auto, using(crate::proofs::Saturation::greater_saturates))]
pub fn equation_degree(left: &Term, right: &Term) -> u32
    ensures { result ≡ bound.equation_degree left.now right.now }
{
    degree(left).max(degree(right))
}

/// The number of monomials of the equation, before any are merged. It stays at `2^32 - 1`.
#[tactic(auto, using(tcl_num::proofs::SaturatingCounts::sum_saturates))]
pub fn equation_terms(left: &Term, right: &Term) -> u32
    ensures { result ≡ bound.equation_terms left.now right.now }
{
    sum_of_counts(terms(left), terms(right))
}

/// The size of the equation over variables of these types. It stays at `2^126`.
#[tactic(auto, using(tcl_num::proofs::SaturatingCounts::sum_saturates))]
pub fn equation_size(variables: &[Variable], left: &Term, right: &Term) -> u128
    ensures { result ≡ bound.static_size (values.types_of variables.now) left.now right.now }
{
    saturating_sum(size(variables, left), size(variables, right), SIZE_END)
}
