// Moduli: sums and differences of numbers and of powers of numbers, up to the end of the line.

ghost use Rattle.std.specs.Prelude.{◌≡◌, Bool, List, ◌∷◌, MatchOption};
ghost use Rattle.tcl_text.specs.declared.token.Token.{Token};
ghost use Rattle.tcl_text.specs.declared.token.Token.TheVariants.{Sign};
ghost use Rattle.tcl_text.specs.Statements as grammar;
ghost use Rattle.tcl_parse.specs.Readers.{Found};
ghost use Rattle.tcl_parse.specs.StatementReaders.{sign_of, IsPart, NoPart, NoModulus};

use crate::statement::tokens::ends;
use crate::tree::reader::{Reading, behind_sign, capped, number_at};
use std::alloc::{AllocError, Global};
use tcl_lang::{Modulus, Part};
use tcl_list::Listing;
use tcl_text::{Symbol, Token};

/// A part of a modulus.
fn part(minus: bool, base: &i128, power: Option<u32>) -> Part
    ensures { result ≡ record { minus = minus; base = base.now; power = power } }
{
    Part {
        minus,
        base: *base,
        power,
    }
}

/// A part behind its sign. A power of a power is no part.
fn one_part(minus: bool, tokens: &[Token]) -> Option<Reading<'_, Part>>
    ensures exact { MatchOption result (NoPart minus tokens.now) (λ r. IsPart minus tokens.now r.tree r.rest.now) }
{
    let Some((base, rest)) = number_at(tokens) else {
        return None;
    };
    let Some(raised) = behind_sign(Symbol::StarStar, rest) else {
        return Some(Reading {
            tree: part(minus, base, None),
            rest,
        });
    };
    let Some((power, rest)) = number_at(raised) else {
        return None;
    };
    match behind_sign(Symbol::StarStar, rest) {
        Some(_) => None,
        None => Some(Reading {
            tree: part(minus, base, Some(capped(power))),
            rest,
        }),
    }
}

/// The sign of a further part, and the tokens behind it.
fn sign_at(tokens: &[Token]) -> Option<(bool, &[Token])>
    ensures { MatchOption result
        ((minus : Bool) (us : List Token) → tokens.now ≡ Sign (sign_of minus) ∷ us → ⊥)
        (λ r. tokens.now ≡ Sign (sign_of r.0) ∷ r.1.now) }
{
    match tokens {
        [Token::Sign(Symbol::Plus), behind @ ..] => Some((false, behind)),
        [Token::Sign(Symbol::Minus), behind @ ..] => Some((true, behind)),
        _ => None,
    }
}

/// A modulus, up to the end of the line.
pub(crate) fn modulus(alloc: Global, tokens: &[Token]) -> Result<Option<Modulus>, AllocError>
    ensures exact { Found result (NoModulus tokens.now) (λ parts. grammar.Modulus tokens.now parts) }
{
    let Some(first) = one_part(false, tokens) else {
        return Ok(None);
    };
    let mut parts = Listing::new(alloc);
    parts.push(first.tree)?;
    let mut rest = first.rest;
    while let Some((minus, behind)) = sign_at(rest) {
        let Some(next) = one_part(minus, behind) else {
            return Ok(None);
        };
        parts.push(next.tree)?;
        rest = next.rest;
    }
    if ends(rest) {
        Ok(Some(parts))
    } else {
        Ok(None)
    }
}
