// Monomials: rising unknowns with exponents from 1, and the degree beside them, by which most comparisons end.

ghost use Rattle.std.specs.Prelude.{◌≡◌, ◌+◌, ◌<◌, ◌≤◌, ◌^◌, [], ◌∷◌, ◌++◌, length, drop, slice_get, IfOk, OnOk, OnErr};
ghost use Rattle.tcl_poly.specs.Monomial as m;
ghost use Rattle.tcl_poly.specs.Unknown.{key_of, factor_of, factors_of};

use crate::{Factor, Unknown};
use smallvec::SmallVec;
use std::alloc::{AllocError, Global};
use std::cmp::Ordering;
use std::marker::Model;

/// A monomial: a product of powers of unknowns. The empty one is 1.
#[derive(Drop)]
pub struct Mono {
    degree: u32,
    factors: SmallVec<Factor, 4>,
}

impl Model for Mono {
    ghost use Rattle.std.specs.Prelude.{◌≡◌, List, ℕ};
    ghost use Rattle.std.specs.Coded.{coded_list, coded×, coded_ℕ};
    ghost use Rattle.tcl_poly.specs.Monomial as m;
    ghost use Rattle.tcl_poly.specs.Unknown.{factors_of};

    ghost Value = { List (ℕ × ℕ) };

    ghost coded = { coded_list (coded× coded_ℕ coded_ℕ) };

    ghost view = { λ mono. factors_of mono.factors.items };

    ghost invariant = { λ mono. (mono.degree ≡ m.degree (factors_of mono.factors.items)) × m.IsMonomial (factors_of mono.factors.items) };
}

impl Mono {
    /// The monomial 1, which takes no memory.
    pub fn new(alloc: Global) -> Self
        ensures { result ≡ [] }
    {
        Mono {
            degree: 0,
            factors: SmallVec::new(alloc),
        }
    }

    /// The number of factors.
    pub fn len(&self) -> usize
        ensures { result ≡ length self.now }
    {
        self.factors.len()
    }

    /// The sum of the exponents.
    pub fn degree(&self) -> u32
        ensures degree { result ≡ m.degree self.now }
        ensures monomial { m.IsMonomial self.now }
    {
        self.degree
    }

    pub fn at(&self, k: usize) -> Factor
        requires { k < length self.now }
        ensures { slice_get self.now k ≡ Some (factor_of result) }
    {
        self.factors.as_slice()[k]
    }

    /// Adds a power of an unknown that is later than all before it.
    pub fn push(&mut self, unknown: Unknown, exponent: u32) -> Result<(), AllocError>
        requires later { m.IsMonomial (self.old ++ (key_of unknown, exponent) ∷ []) }
        requires narrow { m.degree self.old + exponent < 2 ^ 32 }
        ensures pushed { OnOk result (self.new ≡ self.old ++ (key_of unknown, exponent) ∷ []) }
        ensures unchanged { OnErr result (self.new ≡ self.old) }
    {
        self.factors.push(Factor { unknown, exponent })?;
        self.degree += exponent;
        Ok(())
    }

    /// An equal monomial.
    pub fn copy(&self) -> Result<Self, AllocError>
        ensures { IfOk result (λ copy. copy ≡ self.now) }
    {
        let factors = SmallVec::from_slice(*self.factors.allocator(), self.factors.as_slice())?;
        Ok(Mono {
            degree: self.degree,
            factors,
        })
    }

    /// The product.
    pub fn times(&self, other: &Mono) -> Result<Mono, AllocError>
        requires { m.degree self.now + m.degree other.now < 2 ^ 32 }
        ensures { IfOk result (λ product. product ≡ m.times self.now other.now) }
    {
        let alloc = *self.factors.allocator();
        let factors = merge_factors(alloc, self.factors.as_slice(), other.factors.as_slice())?;
        Ok(Mono {
            degree: self.degree + other.degree,
            factors,
        })
    }

    /// The order of monomials: by degree, then by the exponent of the first unknown that differs.
    pub fn compare(&self, other: &Mono) -> Ordering
        ensures { result ≡ m.order self.now other.now }
    {
        match self.degree.cmp(&other.degree) {
            Ordering::Equal => compare_factors(self.factors.as_slice(), other.factors.as_slice()),
            unequal => unequal,
        }
    }
}

fn compare_factors(a: &[Factor], b: &[Factor]) -> Ordering
    ensures { result ≡ m.lex (factors_of a.now) (factors_of b.now) }
{
    let mut k = 0;
    while k < a.len() && k < b.len() {
        match compare_factor(a[k], b[k]) {
            Ordering::Equal => k += 1,
            unequal => return unequal,
        }
    }
    if k < a.len() {
        Ordering::Greater
    } else if k < b.len() {
        Ordering::Less
    } else {
        Ordering::Equal
    }
}

/// The unknown that comes first is the one at which the exponents differ.
fn compare_factor(f: Factor, g: Factor) -> Ordering
    ensures { result ≡ m.factor_order (factor_of f) (factor_of g) }
{
    match f.unknown.key().cmp(&g.unknown.key()) {
        Ordering::Less => Ordering::Greater,
        Ordering::Equal => f.exponent.cmp(&g.exponent),
        Ordering::Greater => Ordering::Less,
    }
}

/// The factors of the product, in the order of their unknowns.
fn merge_factors(
    alloc: Global,
    a: &[Factor],
    b: &[Factor],
) -> Result<SmallVec<Factor, 4>, AllocError>
    requires first { m.IsMonomial (factors_of a.now) }
    requires second { m.IsMonomial (factors_of b.now) }
    requires narrow { m.degree (factors_of a.now) + m.degree (factors_of b.now) < 2 ^ 32 }
    ensures { IfOk result (λ product. factors_of product.items ≡ m.times (factors_of a.now) (factors_of b.now)) }
{
    let mut product = SmallVec::new(alloc);
    let mut i = 0;
    let mut j = 0;
    while i < a.len() && j < b.len() {
        let f = a[i];
        let g = b[j];
        match f.unknown.key().cmp(&g.unknown.key()) {
            Ordering::Less => {
                product.push(f)?;
                i += 1;
            }
            Ordering::Greater => {
                product.push(g)?;
                j += 1;
            }
            Ordering::Equal => {
                product.push(Factor {
                    unknown: g.unknown,
                    exponent: f.exponent + g.exponent,
                })?;
                i += 1;
                j += 1;
            }
        }
    }
    append_factors(&mut product, a, i)?;
    append_factors(&mut product, b, j)?;
    Ok(product)
}

/// The factors from place `from` on, at the end.
fn append_factors(
    product: &mut SmallVec<Factor, 4>,
    factors: &[Factor],
    from: usize,
) -> Result<(), AllocError>
    requires { from ≤ length factors.now }
    ensures { OnOk result (product.new.items ≡ product.old.items ++ drop from factors.now) }
{
    for factor in &factors[from..] {
        product.push(*factor)?;
    }
    Ok(())
}
