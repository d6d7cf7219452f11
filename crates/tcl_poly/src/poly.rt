// Polynomials.

ghost use Rattle.std.specs.Prelude.{◌≡◌, ℕ, ℤ, ◌+◌, ◌<◌, ◌^◌, ◌↔◌, [], length, min, true, false, pos, unsigned_abs, Some, None, ◌∷◌, ◌++◌, IsTrue, IfOk, OnOk, OnErr};
ghost use Rattle.std.specs.Int.{int_pow};
ghost use Rattle.tcl_ring.specs.Reduction as r;
ghost use Rattle.tcl_poly.specs.Unknown.{key_of};
ghost use Rattle.tcl_poly.specs.Polynomial as p;
ghost use Rattle.tcl_poly.specs.declared.poly.PolyFault.TheVariants.{Wide};

use crate::element::{norm_of_terms, push_copy, push_term};
use crate::{Mono, Unknown};
use std::alloc::{AllocError, Global};
use std::marker::Model;
use tcl_list::Copies;
use tcl_ring::{Ring, Whole};

/// Why there is no polynomial.
#[derive(Debug, Clone, Copy, Drop)]
pub enum PolyFault {
    /// The bound of the result's norm is 2^127 or more, over the integers.
    Wide,
    /// Memory has run out.
    Memory,
}

impl From<AllocError> for PolyFault {
    ghost use Rattle.std.specs.Prelude.{◌≡◌};
    ghost use Rattle.tcl_poly.specs.declared.poly.PolyFault.TheVariants.{Memory};

    ghost from_gives = { λ _ fault. fault ≡ Memory };

    fn from(_error: AllocError) -> PolyFault {
        PolyFault::Memory
    }
}

/// A polynomial: terms in decreasing order of their monomials, whose coefficients are not 0.
///
/// Contracts see it as the list of its terms. That it is in this form, and over a ring, is the fact `IsOver`, which
/// each call needs and gives.
#[derive(Drop)]
pub struct Poly<R: Ring> {
    pub(crate) terms: Vec<(Mono, R::Elem)>,
}

impl<R: Ring> Model for Poly<R> {
    ghost use Rattle.std.specs.Prelude.{List, ℕ};

    ghost Value = { List (List (ℕ × ℕ) × R.Elem) };

    ghost view = { λ p. p.terms.items };
}

/// The zero polynomial, which takes no memory.
pub fn zero<R: Ring>(alloc: Global) -> Poly<R>
    ensures { result ≡ [] }
{
    Poly {
        terms: Vec::new(alloc),
    }
}

/// The constant `n`.
pub fn number<R: Ring>(alloc: Global, ring: &R, n: i128) -> Result<Poly<R>, PolyFault>
    ensures number { IfOk result (λ c. p.terms_of (R.amount ring.now) c ≡ p.number_of (r.reduced_by (R.modulus_of ring.now)) n) }
    ensures over { IfOk result (λ c. p.IsOver (R.modulus_of ring.now) (R.amount ring.now) c) }
    ensures values { IfOk result (λ c. (point : ℕ → ℤ) → r.reduced_by (R.modulus_of ring.now) (p.value_of point (p.terms_of (R.amount ring.now) c)) ≡ r.reduced_by (R.modulus_of ring.now) n) }
    ensures wide { result ≡ Err Wide → r.is_wide (R.modulus_of ring.now) (unsigned_abs n) ≡ true }
    ensures not_wide { IfOk result (λ _. r.is_wide (R.modulus_of ring.now) (unsigned_abs n) ≡ false) }
{
    match ring.number(n) {
        Ok(coefficient) => {
            let mut terms = Vec::new(alloc);
            push_term(ring, &mut terms, Mono::new(alloc), coefficient)?;
            Ok(Poly { terms })
        }
        Err(_) => Err(PolyFault::Wide),
    }
}

/// Whether it is the zero polynomial.
pub fn is_zero<R: Ring>(a: &Poly<R>) -> bool
    ensures { IsTrue result ↔ (a.now ≡ []) }
{
    a.terms.is_empty()
}

/// The unknown itself.
pub fn unknown<R: Ring>(alloc: Global, ring: &R, u: Unknown) -> Result<Poly<R>, PolyFault>
    ensures unknown { IfOk result (λ x. p.terms_of (R.amount ring.now) x ≡ p.power_of (r.reduced_by (R.modulus_of ring.now)) (key_of u) 1) }
    ensures over { IfOk result (λ x. p.IsOver (R.modulus_of ring.now) (R.amount ring.now) x) }
    ensures values { IfOk result (λ x. (point : ℕ → ℤ) → r.reduced_by (R.modulus_of ring.now) (p.value_of point (p.terms_of (R.amount ring.now) x)) ≡ r.reduced_by (R.modulus_of ring.now) (point (key_of u))) }
    ensures not_wide { result ≡ Err Wide → ⊥ }
{
    let x = power(alloc, ring, u, 1)?;
    Ok(x)
}

/// A power of an unknown. The power 0 is the number 1.
pub fn power<R: Ring>(
    alloc: Global,
    ring: &R,
    u: Unknown,
    exponent: u32,
) -> Result<Poly<R>, PolyFault>
    ensures power { IfOk result (λ x. p.terms_of (R.amount ring.now) x ≡ p.power_of (r.reduced_by (R.modulus_of ring.now)) (key_of u) exponent) }
    ensures over { IfOk result (λ x. p.IsOver (R.modulus_of ring.now) (R.amount ring.now) x) }
    ensures values { IfOk result (λ x. (point : ℕ → ℤ) → r.reduced_by (R.modulus_of ring.now) (p.value_of point (p.terms_of (R.amount ring.now) x)) ≡ r.reduced_by (R.modulus_of ring.now) (int_pow (point (key_of u)) exponent)) }
    ensures not_wide { result ≡ Err Wide → ⊥ }
{
    let terms = power_terms(alloc, ring, u, exponent)?;
    Ok(Poly { terms })
}

/// The terms of the number 1: none where the modulus is 1.
pub(crate) fn one_terms<R: Ring>(
    alloc: Global,
    ring: &R,
) -> Result<Vec<(Mono, R::Elem)>, AllocError>
    ensures { IfOk result (λ x. p.terms_of (R.amount ring.now) x.items ≡ p.number_of (r.reduced_by (R.modulus_of ring.now)) (pos 1)) }
{
    let mut terms = Vec::new(alloc);
    push_term(ring, &mut terms, Mono::new(alloc), one(ring))?;
    Ok(terms)
}

fn power_terms<R: Ring>(
    alloc: Global,
    ring: &R,
    u: Unknown,
    exponent: u32,
) -> Result<Vec<(Mono, R::Elem)>, AllocError>
    ensures { IfOk result (λ x. p.terms_of (R.amount ring.now) x.items ≡ p.power_of (r.reduced_by (R.modulus_of ring.now)) (key_of u) exponent) }
{
    let mut mono = Mono::new(alloc);
    if exponent > 0 {
        mono.push(u, exponent)?;
    }
    let mut terms = Vec::new(alloc);
    push_term(ring, &mut terms, mono, one(ring))?;
    Ok(terms)
}

fn one<R: Ring>(ring: &R) -> R::Elem
    ensures { R.amount ring.now result ≡ r.reduced_by (R.modulus_of ring.now) (pos 1) }
{
    match ring.number(1) {
        Ok(one) => one,
        Err(_) => unreachable!(),
    }
}

/// The degree, which is that of the first term; 0 for the zero polynomial.
pub fn degree<R: Ring>(a: &Poly<R>) -> u32
    ensures { result ≡ p.degree_of a.now }
{
    degree_of_terms(terms(a))
}

pub(crate) fn degree_of_terms<E: Copy>(terms: &[(Mono, E)]) -> u32
    ensures { result ≡ p.degree_of terms.now }
{
    match terms.first() {
        Some(term) => term.0.degree(),
        None => 0,
    }
}

/// The terms, from the greatest monomial down.
pub fn terms<R: Ring>(a: &Poly<R>) -> &[(Mono, R::Elem)]
    ensures { result.now ≡ a.now }
{
    a.terms.as_slice()
}

/// The sum of the magnitudes of the coefficients, which stays at 2^127 where it is greater.
pub fn norm(a: &Poly<Whole>) -> u128
    ensures { result ≡ min (p.norm_of a.now) (2 ^ 127) }
{
    norm_of_terms(&Whole, terms(a))
}

impl<R: Ring> Poly<R> {
    /// The polynomial with these terms; it takes no memory. It is over a ring where they are in decreasing order and no
    /// coefficient is 0.
    pub fn of(terms: Vec<(Mono, R::Elem)>) -> Self
        ensures { result ≡ terms.items }
    {
        Poly { terms }
    }

    /// The terms, which are moved out.
    pub fn into_terms(self) -> Vec<(Mono, R::Elem)>
        ensures { result.items ≡ self }
    {
        self.terms
    }

    /// Adds a term at the end. The polynomial is over a ring afterwards where it is over that ring with the term.
    pub fn push(&mut self, mono: Mono, coefficient: R::Elem) -> Result<(), AllocError>
        ensures pushed { OnOk result (self.new ≡ self.old ++ (mono, coefficient) ∷ []) }
        ensures unchanged { OnErr result (self.new ≡ self.old) }
    {
        self.terms.push((mono, coefficient))?;
        Ok(())
    }

    pub(crate) fn allocator(&self) -> Global {
        *self.terms.allocator()
    }

    /// An equal polynomial.
    pub fn copy(&self) -> Result<Self, AllocError>
        ensures { IfOk result (λ copy. copy ≡ self.now) }
    {
        let mut copied = Vec::new(*self.terms.allocator());
        for term in &self.terms {
            push_copy(&mut copied, term)?;
        }
        Ok(Poly { terms: copied })
    }
}

impl<R: Ring> Copies for Poly<R> {
    fn copy_in(&self, _alloc: Global) -> Result<Self, AllocError> {
        self.copy()
    }
}
