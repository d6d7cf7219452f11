// From a polynomial of a ring to plain data.

ghost use Rattle.std.specs.Prelude.{◌≡◌, ◌^◌, nat_lt, unsigned_abs, true, IfOk};
ghost use Rattle.tcl_ring.specs.Reduction as r;
ghost use Rattle.tcl_poly.specs.Polynomial as p;
ghost use Rattle.tcl_poly.specs.Unknown.{key_of};
ghost use Rattle.tcl_remainder.specs.Names.{name_of, has_name};
ghost use Rattle.tcl_remainder.specs.Terms as t;

use std::alloc::{AllocError, Global};
use tcl_goals::{Name, Power, Remainder, Summand};
use tcl_list::Listing;
use tcl_poly::{Mono, Poly, Unknown, terms};
use tcl_ring::Ring;

/// Whether plain data has every unknown and every coefficient: no quotient of the place 2^32 - 1, and magnitudes below 2^127.
pub fn is_plain<R: Ring>(ring: &R, poly: &Poly<R>) -> bool
    ensures { result ≡ t.is_plain (p.terms_of (R.amount ring.now) poly.now) }
{
    for term in terms(poly) {
        let term: &(Mono, R::Elem) = term;
        if !is_small(ring.value(&term.1)) || !has_names(&term.0) {
            return false;
        }
    }
    true
}

/// The polynomial as plain data, its coefficients as integers: of a residue the one from 0 up.
pub fn remainder_of<R: Ring>(
    alloc: Global,
    ring: &R,
    poly: &Poly<R>,
) -> Result<Remainder, AllocError>
    requires over { p.IsOver (R.modulus_of ring.now) (R.amount ring.now) poly.now }
    requires plain { t.is_plain (p.terms_of (R.amount ring.now) poly.now) ≡ true }
    ensures summands { IfOk result (λ remainder. remainder ≡ t.summands_of (p.terms_of (R.amount ring.now) poly.now)) }
    ensures polynomial { IfOk result (λ remainder. t.polynomial_of (r.reduced_by (R.modulus_of ring.now)) remainder ≡ p.terms_of (R.amount ring.now) poly.now) }
{
    let mut summands = Listing::new(alloc);
    for term in terms(poly) {
        let term: &(Mono, R::Elem) = term;
        summands.push(Summand {
            coefficient: ring.value(&term.1),
            powers: powers_of(alloc, &term.0)?,
        })?;
    }
    Ok(Remainder::of(summands))
}

fn powers_of(alloc: Global, mono: &Mono) -> Result<Listing<Power>, AllocError>
    ensures { IfOk result (λ powers. powers ≡ t.powers_of mono.now) }
{
    let mut powers = Listing::new(alloc);
    for k in 0..mono.len() {
        let factor = mono.at(k);
        powers.push(Power {
            name: name_of(factor.unknown),
            exponent: factor.exponent,
        })?;
    }
    Ok(powers)
}

fn name_of(unknown: Unknown) -> Name
    ensures { result ≡ name_of (key_of unknown) }
{
    match unknown {
        Unknown::Var(v) => Name::Var(v),
        Unknown::Quot(place) => Name::Quot(place),
    }
}

fn has_names(mono: &Mono) -> bool
    ensures { result ≡ t.has_names mono.now }
{
    for k in 0..mono.len() {
        if !has_name(mono.at(k).unknown) {
            return false;
        }
    }
    true
}

fn has_name(unknown: Unknown) -> bool
    ensures { result ≡ has_name (key_of unknown) }
{
    match unknown {
        Unknown::Var(_) => true,
        Unknown::Quot(place) => place < u32::MAX,
    }
}

fn is_small(n: i128) -> bool
    ensures { result ≡ nat_lt (unsigned_abs n) (2 ^ 127) }
{
    n != i128::MIN
}
