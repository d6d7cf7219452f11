// The parts of a polynomial by the powers of an unknown, which is given by its key.

ghost use Rattle.std.specs.Prelude.{◌≡◌, ℕ, suc, max, ◌++◌, ◌∷◌, [], ◌+◌, ◌<◌, ◌≤◌, ◌^◌, length, MatchBool, IfOk, OnOk};
ghost use Rattle.tcl_poly.specs.Monomial as m;
ghost use Rattle.tcl_reduce.specs.Parts as s;

use std::alloc::{AllocError, Global};
use std::mem;
use tcl_poly::{Mono, Poly, terms, zero};
use tcl_ring::Ring;

/// The exponent of the unknown, 0 where it does not occur.
pub(crate) fn exponent(mono: &Mono, key: u64) -> u32
    ensures { result ≡ m.exponent mono.now key }
{
    let _degree = mono.degree();
    for k in 0..mono.len() {
        let factor = mono.at(k);
        if factor.unknown.key() == key {
            return factor.exponent;
        }
    }
    0
}

/// The monomial without the unknown.
pub(crate) fn without(alloc: Global, mono: &Mono, key: u64) -> Result<Mono, AllocError>
    ensures { IfOk result (λ rest. rest ≡ s.without key mono.now) }
{
    let _degree = mono.degree();
    let mut rest = Mono::new(alloc);
    for k in 0..mono.len() {
        let factor = mono.at(k);
        if factor.unknown.key() != key {
            rest.push(factor.unknown, factor.exponent)?;
        }
    }
    Ok(rest)
}

/// The same, where the exponent is known: a monomial in which the unknown does not occur is moved.
fn divided(alloc: Global, mono: Mono, key: u64, exponent: u32) -> Result<Mono, AllocError>
    requires { exponent ≡ m.exponent mono key }
    ensures { IfOk result (λ rest. rest ≡ s.without key mono) }
{
    let _degree = mono.degree();
    if exponent == 0 {
        return Ok(mono);
    }
    without(alloc, &mono, key)
}

/// Whether the unknown occurs.
pub(crate) fn occurs<R: Ring>(key: u64, f: &Poly<R>) -> bool
    ensures { MatchBool result (0 < s.top key f.now) (s.top key f.now ≡ 0) }
{
    for term in terms(f) {
        let term: &(Mono, R::Elem) = term;
        if exponent(&term.0, key) > 0 {
            return true;
        }
    }
    false
}

/// The coefficients of all powers up to the greatest one, in one pass over the terms, which are moved.
pub(crate) fn parts<R: Ring>(
    alloc: Global,
    key: u64,
    f: Poly<R>,
) -> Result<Vec<Poly<R>>, AllocError>
    ensures { IfOk result (λ fs. s.AreParts key f fs.items) }
{
    let mut parts = Vec::new(alloc);
    parts.push(zero(alloc))?;
    for term in f.into_terms() {
        let (mono, coefficient) = term;
        add_term(alloc, key, &mut parts, mono, coefficient)?;
    }
    Ok(parts)
}

/// One term more, at the end of the part of its power.
fn add_term<R: Ring>(
    alloc: Global,
    key: u64,
    parts: &mut Vec<Poly<R>>,
    mono: Mono,
    coefficient: R::Elem,
) -> Result<(), AllocError>
    ensures length { OnOk result (length parts.new.items ≡ max (length parts.old.items) (suc (m.exponent mono key))) }
    ensures added { OnOk result ((k : ℕ) → s.by_power parts.new.items k ≡ s.by_power parts.old.items k ++ s.part key k ((mono, coefficient) ∷ [])) }
{
    let power = exponent(&mono, key);
    make_room(alloc, parts, power)?;
    let rest = divided(alloc, mono, key, power)?;
    push_at(parts, power, rest, coefficient)?;
    Ok(())
}

/// Empty parts up to that power, where there are none.
fn make_room<R: Ring>(alloc: Global, parts: &mut Vec<Poly<R>>, power: u32) -> Result<(), AllocError>
    ensures length { OnOk result (length parts.new.items ≡ max (length parts.old.items) (suc power)) }
    ensures same { OnOk result ((k : ℕ) → s.by_power parts.new.items k ≡ s.by_power parts.old.items k) }
{
    while parts.len() <= power as usize {
        parts.push(zero(alloc))?;
    }
    Ok(())
}

fn push_at<R: Ring>(
    parts: &mut Vec<Poly<R>>,
    power: u32,
    mono: Mono,
    coefficient: R::Elem,
) -> Result<(), AllocError>
    requires { power < length parts.old.items }
    ensures length { OnOk result (length parts.new.items ≡ length parts.old.items) }
    ensures here { OnOk result (s.by_power parts.new.items power ≡ s.by_power parts.old.items power ++ (mono, coefficient) ∷ []) }
    ensures elsewhere { OnOk result ((k : ℕ) → (k ≡ power → ⊥) → s.by_power parts.new.items k ≡ s.by_power parts.old.items k) }
{
    parts[power as usize].push(mono, coefficient)
}

/// Takes the part of the power 0 out. The others stay.
pub(crate) fn take_first<R: Ring>(alloc: Global, parts: &mut Vec<Poly<R>>) -> Poly<R>
    requires { 0 < length parts.old.items }
    ensures first { result ≡ s.by_power parts.old.items 0 }
    ensures others { (k : ℕ) → s.by_power parts.new.items (suc k) ≡ s.by_power parts.old.items (suc k) }
    ensures length { length parts.new.items ≡ length parts.old.items }
{
    mem::replace(&mut parts[0], zero(alloc))
}

/// The greatest power of the parts.
pub(crate) fn greatest<R: Ring>(parts: &[Poly<R>]) -> u32
    requires some { 0 < length parts.now }
    requires narrow { length parts.now ≤ 2 ^ 32 }
    ensures { length parts.now ≡ result + 1 }
{
    (parts.len() - 1) as u32
}
