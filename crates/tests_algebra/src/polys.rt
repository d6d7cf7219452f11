//! Polynomials as texts.

use std::alloc::AllocError;
use tcl_poly::{Mono, Poly, Unknown, terms};
use tcl_reduce::Equations;
use tcl_ring::Ring;

// The factors of a monomial.
fn write_mono(text: &mut String, mono: &Mono) -> Result<(), AllocError> {
    for k in 0..mono.len() {
        let factor = mono.at(k);
        match factor.unknown {
            Unknown::Var(v) => write!(&mut *text, "*v{v}")?,
            Unknown::Quot(place) => write!(&mut *text, "*q{place}")?,
        }
        if factor.exponent > 1 {
            write!(&mut *text, "^{}", factor.exponent)?;
        }
    }
    Ok(())
}

// The terms from the greatest monomial down.
fn write_poly<R: Ring>(text: &mut String, ring: &R, p: &Poly<R>) -> Result<(), AllocError> {
    let list = terms(p);
    if list.len() == 0 {
        text.push_str("0")?;
    }
    for k in 0..list.len() {
        let term: &(Mono, R::Elem) = &list[k];
        let coefficient = ring.value(&term.1);
        if k > 0 && coefficient >= 0 {
            text.push_str("+")?;
        }
        write!(&mut *text, "{coefficient}")?;
        write_mono(text, &term.0)?;
    }
    Ok(())
}

// Each equation with its place, and the claim.
pub(crate) fn write_equations<R: Ring + Copy>(
    text: &mut String,
    ring: &R,
    found: &Equations<R>,
) -> Result<(), AllocError> {
    let list = found.list();
    for k in 0..list.len() {
        let poly: &Poly<R> = &list[k];
        write!(&mut *text, "{}: ", found.place(k))?;
        write_poly(text, ring, poly)?;
        text.push_str("\n")?;
    }
    text.push_str("claim ")?;
    write_poly(text, ring, found.claim())
}
