// Polynomials of tests.

ghost use Rattle.std.specs.Prelude.{IfOk};
ghost use Rattle.tcl_poly.specs.Polynomial.{IsOver};

use crate::dice::Dice;
use std::alloc::{AllocError, Global};
use std::test::Fail;
use tcl_poly::{Poly, Unknown, add, degree, mul, number, power, terms, zero};
use tcl_ring::Ring;

/// The product, of a degree of at most 1,024.
pub(crate) fn multiply<R: Ring>(ring: &R, a: &Poly<R>, b: &Poly<R>) -> Result<Poly<R>, Fail>
    requires first { IsOver (R.modulus_of ring.now) (R.amount ring.now) a.now }
    requires second { IsOver (R.modulus_of ring.now) (R.amount ring.now) b.now }
    ensures { IfOk result (λ p. IsOver (R.modulus_of ring.now) (R.amount ring.now) p) }
{
    if degree(a) > 1024 || degree(b) > 1024 - degree(a) {
        return Err("a product of a test has a degree of at most 1,024".into());
    }
    Ok(mul(ring, a, b)?)
}

/// A coefficient: from -3 to 3 where the modulus is 0, and else below it.
pub(crate) fn coefficient(dice: &mut Dice, modulus: u32) -> i128 {
    if modulus == 0 {
        dice.below(7) as i128 - 3
    } else {
        dice.below(modulus) as i128
    }
}

/// A term in three variables: one of an exponent of at most `first`, and one of at most 1.
pub(crate) fn term<R: Ring>(
    alloc: Global,
    ring: &R,
    dice: &mut Dice,
    modulus: u32,
    first: u32,
) -> Result<Poly<R>, Fail>
    ensures { IfOk result (λ p. IsOver (R.modulus_of ring.now) (R.amount ring.now) p) }
{
    let constant = number(alloc, ring, coefficient(dice, modulus))?;
    let variable = dice.below(3);
    let exponent = dice.below(first.saturating_add(1));
    let other = dice.below(3);
    let once = dice.below(2);
    let x = power(alloc, ring, Unknown::Var(variable), exponent)?;
    let y = power(alloc, ring, Unknown::Var(other), once)?;
    let left = multiply(ring, &constant, &x)?;
    multiply(ring, &left, &y)
}

/// A sum of at most `most` terms.
pub(crate) fn polynomial<R: Ring>(
    alloc: Global,
    ring: &R,
    dice: &mut Dice,
    modulus: u32,
    most: u32,
    first: u32,
) -> Result<Poly<R>, Fail>
    ensures { IfOk result (λ p. IsOver (R.modulus_of ring.now) (R.amount ring.now) p) }
{
    let mut sum = zero(alloc);
    for _k in 0..dice.below(most).saturating_add(1) {
        let more = term(alloc, ring, dice, modulus, first)?;
        sum = add(ring, &sum, &more)?;
    }
    Ok(sum)
}

/// A coefficient and two powers of variables, each by its number and exponent.
pub(crate) type Term = (i128, (u32, u32), (u32, u32));

/// The polynomial of a term.
fn product_of_term<R: Ring>(alloc: Global, ring: &R, term: &Term) -> Result<Poly<R>, Fail>
    ensures { IfOk result (λ p. IsOver (R.modulus_of ring.now) (R.amount ring.now) p) }
{
    let constant = number(alloc, ring, term.0)?;
    let x = power(alloc, ring, Unknown::Var(term.1.0), term.1.1)?;
    let y = power(alloc, ring, Unknown::Var(term.2.0), term.2.1)?;
    let both = multiply(ring, &x, &y)?;
    multiply(ring, &constant, &both)
}

/// The sum of terms.
pub(crate) fn sum_of_terms<R: Ring>(
    alloc: Global,
    ring: &R,
    terms: &[Term],
) -> Result<Poly<R>, Fail>
    ensures { IfOk result (λ p. IsOver (R.modulus_of ring.now) (R.amount ring.now) p) }
{
    let mut sum = zero(alloc);
    for term in terms {
        let made = product_of_term(alloc, ring, term)?;
        sum = add(ring, &sum, &made)?;
    }
    Ok(sum)
}

/// The terms from the greatest monomial down, each its coefficient and its factors as variable^exponent.
pub(crate) fn write_terms<R: Ring>(
    text: &mut String,
    ring: &R,
    p: &Poly<R>,
) -> Result<(), AllocError> {
    for term in terms(p) {
        write!(&mut *text, "{}", ring.value(&term.1))?;
        for k in 0..term.0.len() {
            let factor = term.0.at(k);
            let variable = match factor.unknown {
                Unknown::Var(v) => v,
                Unknown::Quot(p) => p,
            };
            write!(&mut *text, " {}^{}", variable, factor.exponent)?;
        }
        text.push_str(";")?;
    }
    Ok(())
}
