//! Static bounds of a term: how great its coefficients, its degree, its number of monomials and its values can be.

ghost use Rattle.std.specs.Prelude.{◌≡◌, min, ◌+◌, ◌*◌, ◌^◌};
ghost use Rattle.tcl_lang.specs.Bound as bound;
ghost use Rattle.tcl_lang.specs.Values as values;

use crate::count::saturating_power;
use tcl_lang::{Term, Ty, Variable};
use tcl_num::{saturating_product, saturating_sum};

/// Where a norm stands still.
pub(crate) const NORM_END: u128 = 1 << 127;

/// Where a degree and a count of monomials stand still.
pub(crate) const COUNT_END: u128 = (1 << 32) - 1;

/// Where a size stands still.
pub(crate) const SIZE_END: u128 = 1 << 126;

/// The sum of the magnitudes of a term's coefficients is at most this. It stays at `2^127`.
#[tactic(auto, using(tcl_num::proofs::SaturatingCounts::sum_saturates, tcl_num::proofs::SaturatingCounts::product_saturates, crate::proofs::Saturation::power_saturates))]
pub fn norm(term: &Term) -> u128
    ensures { result ≡ min (bound.norm_of term.now) bound.norm_end }
{
    match term {
        Term::Var(_) => 1,
        Term::Num(n) => n.unsigned_abs(),
        Term::Neg(inner) => norm(inner.get()),
        Term::Add(left, right) => { saturating_sum(norm(left.get()), norm(right.get()), NORM_END) }
        Term::Sub(left, right) => { saturating_sum(norm(left.get()), norm(right.get()), NORM_END) }
        Term::Mul(left, right) => {
            saturating_product(norm(left.get()), norm(right.get()), NORM_END)
        }
        Term::Pow(base, power) => saturating_power(norm(base.get()), *power, NORM_END),
    }
}

/// The degree of a term's polynomial is at most this. It stays at `2^32 - 1`.
#[tactic(auto, using(tcl_num::proofs::SaturatingCounts::sum_saturates, tcl_num::proofs::SaturatingCounts::product_saturates, crate::proofs::Saturation::greater_saturates, crate::proofs::Saturation::multiple_saturates))]
pub fn degree(term: &Term) -> u32
    ensures { result ≡ min (bound.degree_of term.now) bound.count_end }
{
    match term {
        Term::Var(_) => 1,
        Term::Num(_) => 0,
        Term::Neg(inner) => degree(inner.get()),
        Term::Add(left, right) => degree(left.get()).max(degree(right.get())),
        Term::Sub(left, right) => degree(left.get()).max(degree(right.get())),
        Term::Mul(left, right) => sum_of_counts(degree(left.get()), degree(right.get())),
        Term::Pow(base, power) => product_of_counts(degree(base.get()), *power),
    }
}

/// The number of monomials of a term's polynomial is at most this. It stays at `2^32 - 1`.
#[tactic(auto, using(tcl_num::proofs::SaturatingCounts::sum_saturates, tcl_num::proofs::SaturatingCounts::product_saturates, crate::proofs::Saturation::power_saturates))]
pub fn terms(term: &Term) -> u32
    ensures { result ≡ min (bound.terms_of term.now) bound.count_end }
{
    match term {
        Term::Var(_) => 1,
        Term::Num(_) => 1,
        Term::Neg(inner) => terms(inner.get()),
        Term::Add(left, right) => sum_of_counts(terms(left.get()), terms(right.get())),
        Term::Sub(left, right) => sum_of_counts(terms(left.get()), terms(right.get())),
        Term::Mul(left, right) => product_of_counts(terms(left.get()), terms(right.get())),
        Term::Pow(base, power) => power_of_count(terms(base.get()), *power),
    }
}

/// The magnitude of a term's value is at most this, where each variable has a value of its type. It stays at `2^126`.
#[tactic(auto, using(tcl_num::proofs::SaturatingCounts::sum_saturates, tcl_num::proofs::SaturatingCounts::product_saturates, crate::proofs::Saturation::power_saturates))]
pub fn size(variables: &[Variable], term: &Term) -> u128
    ensures { result ≡ min (bound.size_of (values.types_of variables.now) term.now) bound.size_end }
{
    match term {
        Term::Var(name) => greatest_magnitude(type_among(variables, *name)),
        Term::Num(n) => n.unsigned_abs().min(SIZE_END),
        Term::Neg(inner) => size(variables, inner.get()),
        Term::Add(left, right) => {
            saturating_sum(
                size(variables, left.get()),
                size(variables, right.get()),
                SIZE_END,
            )
        }
        Term::Sub(left, right) => {
            saturating_sum(
                size(variables, left.get()),
                size(variables, right.get()),
                SIZE_END,
            )
        }
        Term::Mul(left, right) => saturating_product(
            size(variables, left.get()),
            size(variables, right.get()),
            SIZE_END,
        ),
        Term::Pow(base, power) => {
            saturating_power(size(variables, base.get()), *power, SIZE_END)
        }
    }
}

/// The sum of two counts, which stays at `2^32 - 1`.
pub(crate) fn sum_of_counts(a: u32, b: u32) -> u32
    ensures { result ≡ min (a + b) bound.count_end }
{
    saturating_sum(a as u128, b as u128, COUNT_END) as u32
}

/// The product of two counts, which stays at `2^32 - 1`.
fn product_of_counts(a: u32, b: u32) -> u32
    ensures { result ≡ min (a * b) bound.count_end }
{
    saturating_product(a as u128, b as u128, COUNT_END) as u32
}

/// The power of a count, which stays at `2^32 - 1`.
fn power_of_count(base: u32, exponent: u32) -> u32
    ensures { result ≡ min (base ^ exponent) bound.count_end }
{
    saturating_power(base as u128, exponent, COUNT_END) as u32
}

/// The type of a variable; that of the empty word where there is none.
fn type_among(variables: &[Variable], name: u32) -> Ty
    ensures { result ≡ bound.type_among (values.types_of variables.now) name }
{
    match variables.get(name as usize) {
        Some(variable) => variable.ty,
        None => Ty {
            signed: false,
            width: 0,
        },
    }
}

/// The greatest magnitude of a value of the type, which stays at `2^126`.
fn greatest_magnitude(ty: Ty) -> u128
    ensures { result ≡ min (bound.greatest_magnitude ty) bound.size_end }
{
    if ty.signed {
        power_of_two(ty.width.saturating_sub(1))
    } else if ty.width <= 126 {
        (1 << ty.width) - 1
    } else {
        SIZE_END
    }
}

/// 2 to the power `exponent`, which stays at `2^126`.
fn power_of_two(exponent: u32) -> u128
    ensures { result ≡ min (2 ^ exponent) bound.size_end }
{
    if exponent < 126 {
        1 << exponent
    } else {
        SIZE_END
    }
}
