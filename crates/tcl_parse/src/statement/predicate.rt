// Predicates, up to the end of the line.

ghost use Rattle.std.specs.Prelude.{◌∷◌};
ghost use Rattle.tcl_text.specs.declared.token.Keyword.TheVariants as keyword;
ghost use Rattle.tcl_text.specs.declared.token.Token.TheVariants.{Reserved};
ghost use Rattle.tcl_text.specs.Statements as grammar;
ghost use Rattle.tcl_parse.specs.Readers.{Found};
ghost use Rattle.tcl_parse.specs.StatementReaders.{Ending, NoEnding, Equation, NoEquation, NoPredicate};

use crate::statement::modulus::modulus;
use crate::statement::tokens::ends;
use crate::tree::range_predicates::range_pred;
use crate::tree::reader::{behind_sign, first_of};
use crate::tree::terms::term;
use sqlite_items::Boxed;
use std::alloc::{AllocError, Global};
use tcl_lang::{AlgPred, Modulus, Pred};
use tcl_text::{Keyword, Symbol, Token};

/// A predicate behind the word of its line.
pub(crate) fn predicate(alloc: Global, tokens: &[Token]) -> Result<Option<Boxed<Pred>>, AllocError>
    ensures exact { Found result (NoPredicate tokens.now) (λ p. grammar.Predicate tokens.now p) }
{
    let Some((first, behind)) = first_of(tokens) else {
        return Ok(None);
    };
    match first {
        Token::Reserved(Keyword::Rng) => range(alloc, behind),
        Token::Reserved(Keyword::Alg) => algebraic(alloc, behind),
        _ => Ok(None),
    }
}

/// A range predicate behind its word.
fn range(alloc: Global, tokens: &[Token]) -> Result<Option<Boxed<Pred>>, AllocError>
    ensures exact { Found result
        (NoPredicate (Reserved keyword.Rng ∷ tokens.now)) (λ p. grammar.Predicate (Reserved keyword.Rng ∷ tokens.now) p) }
{
    let Some(pred) = range_pred(alloc, tokens)? else {
        return Ok(None);
    };
    if ends(pred.rest) {
        Ok(Some(Boxed::new(alloc, Pred::Rng(pred.tree))?))
    } else {
        Ok(None)
    }
}

/// An algebraic predicate behind its word.
fn algebraic(alloc: Global, tokens: &[Token]) -> Result<Option<Boxed<Pred>>, AllocError>
    ensures exact { Found result
        (NoPredicate (Reserved keyword.Alg ∷ tokens.now)) (λ p. grammar.Predicate (Reserved keyword.Alg ∷ tokens.now) p) }
{
    match equation(alloc, tokens)? {
        Some(pred) => Ok(Some(Boxed::new(alloc, Pred::Alg(pred))?)),
        None => Ok(None),
    }
}

/// An equation, or a congruence.
fn equation(alloc: Global, tokens: &[Token]) -> Result<Option<AlgPred>, AllocError>
    ensures exact { Found result (NoEquation tokens.now) (λ p. Equation tokens.now p) }
{
    let Some(left) = term(alloc, tokens)? else {
        return Ok(None);
    };
    let Some(behind) = behind_sign(Symbol::Equal, left.rest) else {
        return Ok(None);
    };
    let Some(right) = term(alloc, behind)? else {
        return Ok(None);
    };
    let Some(modulus) = ending(alloc, right.rest)? else {
        return Ok(None);
    };
    Ok(Some(AlgPred {
        left: left.tree,
        right: right.tree,
        modulus,
    }))
}

/// What stands behind the right side of an equation: nothing, or a modulus.
fn ending(alloc: Global, tokens: &[Token]) -> Result<Option<Option<Modulus>>, AllocError>
    ensures exact { Found result (NoEnding tokens.now) (λ m. Ending tokens.now m) }
{
    let Some((first, behind)) = first_of(tokens) else {
        return Ok(Some(None));
    };
    match first {
        Token::Reserved(Keyword::Mod) => residue(alloc, behind),
        _ => Ok(None),
    }
}

/// A modulus behind its word.
fn residue(alloc: Global, tokens: &[Token]) -> Result<Option<Option<Modulus>>, AllocError>
    ensures exact { Found result
        (NoEnding (Reserved keyword.Mod ∷ tokens.now)) (λ m. Ending (Reserved keyword.Mod ∷ tokens.now) m) }
{
    match modulus(alloc, tokens)? {
        Some(parts) => Ok(Some(Some(parts))),
        None => Ok(None),
    }
}
