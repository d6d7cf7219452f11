//! The unknowns of tests by one number each, and polynomials as texts.

use std::alloc::AllocError;
use tcl_poly::{Factor, Poly, Unknown, terms};
use tcl_ring::Ring;

/// The number of a variable, or 2^32 and the place of a line.
pub(crate) fn name_of(unknown: Unknown) -> u64 {
    match unknown {
        Unknown::Var(v) => v as u64,
        Unknown::Quot(p) => (1 << 32) + p as u64,
    }
}

fn write_factor(text: &mut String, factor: Factor) -> Result<(), AllocError> {
    write!(text, " {}^{}", name_of(factor.unknown), factor.exponent)
}

/// Writes the terms from the greatest monomial down, each its coefficient and its factors as name^exponent.
pub(crate) fn write_terms<R: Ring>(
    text: &mut String,
    ring: &R,
    p: &Poly<R>,
) -> Result<(), AllocError> {
    for term in terms(p) {
        write!(&mut *text, "{}", ring.value(&term.1))?;
        for k in 0..term.0.len() {
            write_factor(text, term.0.at(k))?;
        }
        text.push_str(";")?;
    }
    Ok(())
}
