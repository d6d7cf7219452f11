// Algebraic terms: sums over products over factors. A base is a primary with at most one exponent.

ghost use Rattle.std.specs.Prelude.{◌≡◌, ◌≤◌, ◌<◌, length, MatchBool, List};
ghost use Rattle.tcl_lang.specs.declared.term.Term.{Num};
ghost use Rattle.tcl_text.specs.declared.token.Token.{Token};
ghost use Rattle.tcl_text.specs.Trees.{alg, height, next_height, joined};
ghost use Rattle.tcl_parse.specs.Chains.{signed};
ghost use Rattle.tcl_text.specs.Grammar.{Powered, Prim};
ghost use Rattle.tcl_parse.specs.Readers.{Found, OnFound, Ends, NoEnd, IsRead, NoneRead};

use crate::tree::chains::{Chained, chain};
use crate::tree::reader::{Reading, behind_sign, capped, first_of, number_at};
use sqlite_items::Boxed;
use std::alloc::{AllocError, Global};
use tcl_lang::{Term, Ty};
use tcl_text::{Symbol, TermOp, Token};

impl Chained for Term {
    type Joint = TermOp;

    ghost use Rattle.tcl_text.specs.Trees.{alg};

    ghost sort = { alg };

    ghost tree = { λ t. t };

    ghost joint = { λ op. op };

    fn loosest() -> usize {
        2
    }

    fn closing() -> Symbol {
        Symbol::Close
    }

    fn operator_of(token: &Token) -> Option<(usize, TermOp)> {
        match token {
            Token::Sign(Symbol::Star) => Some((1, TermOp::Times)),
            Token::Sign(Symbol::Plus) => Some((2, TermOp::Plus)),
            Token::Sign(Symbol::Minus) => Some((2, TermOp::Minus)),
            _ => None,
        }
    }

    fn joined(op: TermOp, left: Boxed<Term>, right: Boxed<Term>) -> Term
        ensures { result ≡ joined alg op left right }
    {
        match op {
            TermOp::Plus => Term::Add(left, right),
            TermOp::Minus => Term::Sub(left, right),
            TermOp::Times => Term::Mul(left, right),
        }
    }

    fn sign_at(tokens: &[Token]) -> Option<(Symbol, &[Token])> {
        let behind = behind_sign(Symbol::Minus, tokens)?;
        Some((Symbol::Minus, behind))
    }

    fn signed(sign: Symbol, base: Boxed<Term>) -> Term
        ensures { result ≡ signed alg sign base }
    {
        Term::Neg(base)
    }

    fn opening(tokens: &[Token]) -> Option<(Option<Ty>, &[Token])> {
        let inside = behind_sign(Symbol::Open, tokens)?;
        Some((None, inside))
    }

    /// A name or a number, and its exponent.
    fn unbracketed(
        alloc: Global,
        tokens: &[Token],
    ) -> Result<Option<Reading<'_, Term>>, AllocError> {
        let Some((first, behind)) = first_of(tokens) else {
            return Ok(None);
        };
        match first {
            Token::Name(x) => powered(alloc, Term::Var(*x), behind),
            Token::Number(n) => powered(alloc, number(n), behind),
            _ => Ok(None),
        }
    }

    fn bracketed(
        alloc: Global,
        _cast: Option<Ty>,
        inner: Term,
        rest: &[Token],
    ) -> Result<Option<Reading<'_, Term>>, AllocError> {
        powered(alloc, inner, rest)
    }
}

/// The term of a number.
fn number(n: &i128) -> Term
    ensures { result ≡ Num n.now }
{
    Term::Num(*n)
}

/// The token begins another exponent.
fn is_power(token: &Token) -> bool
    ensures { MatchBool result (height alg token.now ≡ 0) (0 < height alg token.now) }
{
    match token {
        Token::Sign(Symbol::StarStar) => true,
        _ => false,
    }
}

/// Another exponent follows.
fn begins_with_power(tokens: &[Token]) -> bool
    ensures { MatchBool result (next_height alg tokens.now ≡ 0) (0 < next_height alg tokens.now) }
{
    match first_of(tokens) {
        Some((first, _)) => is_power(first),
        None => false,
    }
}

/// A primary, behind which `tokens` stand, with its exponent. No second exponent follows.
fn powered(
    alloc: Global,
    primary: Term,
    tokens: &[Token],
) -> Result<Option<Reading<'_, Term>>, AllocError>
    ensures exact { (ts : List Token) → Prim alg ts primary tokens.now →
        Found result (NoEnd alg 0 Powered ts) (λ r. Ends alg 0 Powered ts r.tree r.rest.now) }
    ensures shorter { OnFound result (λ r. length r.rest.now ≤ length tokens.now) }
{
    let Some(behind) = behind_sign(Symbol::StarStar, tokens) else {
        return Ok(Some(Reading {
            tree: primary,
            rest: tokens,
        }));
    };
    let Some((n, rest)) = number_at(behind) else {
        return Ok(None);
    };
    if begins_with_power(rest) {
        return Ok(None);
    }
    Ok(Some(Reading {
        tree: Term::Pow(Boxed::new(alloc, primary)?, capped(n)),
        rest,
    }))
}

/// An algebraic term that no operator goes on with.
pub(crate) fn term(alloc: Global, tokens: &[Token]) -> Result<Option<Reading<'_, Term>>, AllocError>
    ensures exact { Found result (NoneRead alg 2 tokens.now) (λ r. IsRead alg 2 tokens.now r.tree r.rest.now) }
{
    chain(alloc, 2, tokens)
}
