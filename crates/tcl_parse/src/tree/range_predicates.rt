// Range predicates: `||` over `&&` over factors. A base is a comparison, a truth value or a predicate in square brackets.

ghost use Rattle.std.specs.Prelude.{◌≡◌, ◌<◌, length, MatchBool, MatchOption, IfSome};
ghost use Rattle.tcl_text.specs.Trees.{prd, height, next_height, joined, comparison_of};
ghost use Rattle.tcl_parse.specs.Chains.{signed};
ghost use Rattle.tcl_parse.specs.Readers.{Found, OnFound, NoReading, Ends, NoEnd, IsRead, NoneRead, IsTruth, IsComparison};

use crate::tree::chains::{Chained, chain};
use crate::tree::range_terms::range_term;
use crate::tree::reader::{Reading, behind_sign, first_of};
use sqlite_items::Boxed;
use std::alloc::{AllocError, Global};
use tcl_lang::{CmpOp, RngPred, Ty};
use tcl_text::{Keyword, PredOp, Symbol, Token};

impl Chained for RngPred {
    type Joint = PredOp;

    ghost use Rattle.tcl_text.specs.Trees.{prd};

    ghost sort = { prd };

    ghost tree = { λ t. t };

    ghost joint = { λ op. op };

    fn loosest() -> usize {
        2
    }

    fn closing() -> Symbol {
        Symbol::CloseSquare
    }

    fn operator_of(token: &Token) -> Option<(usize, PredOp)> {
        match token {
            Token::Sign(Symbol::AndAnd) => Some((1, PredOp::And)),
            Token::Sign(Symbol::BarBar) => Some((2, PredOp::Or)),
            _ => None,
        }
    }

    fn joined(op: PredOp, left: Boxed<RngPred>, right: Boxed<RngPred>) -> RngPred
        ensures { result ≡ joined prd op left right }
    {
        match op {
            PredOp::And => RngPred::Both(left, right),
            PredOp::Or => RngPred::Either(left, right),
        }
    }

    fn sign_at(tokens: &[Token]) -> Option<(Symbol, &[Token])> {
        let behind = behind_sign(Symbol::Bang, tokens)?;
        Some((Symbol::Bang, behind))
    }

    fn signed(sign: Symbol, base: Boxed<RngPred>) -> RngPred
        ensures { result ≡ signed prd sign base }
    {
        RngPred::Not(base)
    }

    fn opening(tokens: &[Token]) -> Option<(Option<Ty>, &[Token])> {
        let inside = behind_sign(Symbol::OpenSquare, tokens)?;
        Some((None, inside))
    }

    /// A truth value or a comparison.
    fn unbracketed(
        alloc: Global,
        tokens: &[Token],
    ) -> Result<Option<Reading<'_, RngPred>>, AllocError> {
        let Some(found) = truth_at(tokens) else {
            return comparison(alloc, tokens);
        };
        if begins_with_word_operator(found.rest) {
            return Ok(None);
        }
        Ok(Some(found))
    }

    fn bracketed(
        _alloc: Global,
        _cast: Option<Ty>,
        inner: RngPred,
        rest: &[Token],
    ) -> Result<Option<Reading<'_, RngPred>>, AllocError> {
        if begins_with_word_operator(rest) {
            return Ok(None);
        }
        Ok(Some(Reading { tree: inner, rest }))
    }
}

/// The comparison that a token is.
fn comparison_of(token: &Token) -> Option<CmpOp>
    ensures { result ≡ comparison_of token.now }
{
    match token {
        Token::Sign(Symbol::Equal) => Some(CmpOp::Eq),
        Token::Sign(Symbol::NotEqual) => Some(CmpOp::Ne),
        Token::Sign(Symbol::Less) => Some(CmpOp::Lt),
        Token::Sign(Symbol::LessEqual) => Some(CmpOp::Le),
        Token::Sign(Symbol::Greater) => Some(CmpOp::Gt),
        Token::Sign(Symbol::GreaterEqual) => Some(CmpOp::Ge),
        _ => None,
    }
}

/// A truth value that stands first.
fn truth_at(tokens: &[Token]) -> Option<Reading<'_, RngPred>>
    ensures exact { MatchOption result (NoReading prd IsTruth tokens.now) (λ r. IsTruth tokens.now r.tree r.rest.now) }
    ensures shorter { IfSome result (λ r. length r.rest.now < length tokens.now) }
{
    let (first, rest) = first_of(tokens)?;
    let Token::Reserved(word) = first else {
        return None;
    };
    match word {
        Keyword::True => Some(Reading {
            tree: RngPred::True,
            rest,
        }),
        Keyword::False => Some(Reading {
            tree: RngPred::False,
            rest,
        }),
        _ => None,
    }
}

/// The token goes on with a range term.
fn is_word_operator(token: &Token) -> bool
    ensures { MatchBool result (height prd token.now ≡ 0) (0 < height prd token.now) }
{
    match token {
        Token::Sign(Symbol::Star | Symbol::Plus | Symbol::Minus) => true,
        Token::Sign(Symbol::Ampersand | Symbol::Caret | Symbol::Bar) => true,
        _ => false,
    }
}

/// A token that goes on with a range term follows.
fn begins_with_word_operator(tokens: &[Token]) -> bool
    ensures { MatchBool result (next_height prd tokens.now ≡ 0) (0 < next_height prd tokens.now) }
{
    match first_of(tokens) {
        Some((first, _)) => is_word_operator(first),
        None => false,
    }
}

/// Two range terms and the comparison between them.
fn comparison(alloc: Global, tokens: &[Token]) -> Result<Option<Reading<'_, RngPred>>, AllocError>
    ensures exact { Found result (NoEnd prd 0 IsComparison tokens.now)
        (λ r. Ends prd 0 IsComparison tokens.now r.tree r.rest.now) }
    ensures shorter { OnFound result (λ r. length r.rest.now < length tokens.now) }
{
    let Some(left) = range_term(alloc, tokens)? else {
        return Ok(None);
    };
    let Some((sign, behind)) = first_of(left.rest) else {
        return Ok(None);
    };
    let Some(op) = comparison_of(sign) else {
        return Ok(None);
    };
    let Some(right) = range_term(alloc, behind)? else {
        return Ok(None);
    };
    Ok(Some(Reading {
        tree: RngPred::Cmp(op, left.tree, right.tree),
        rest: right.rest,
    }))
}

/// A range predicate that no operator goes on with.
pub(crate) fn range_pred(
    alloc: Global,
    tokens: &[Token],
) -> Result<Option<Reading<'_, RngPred>>, AllocError>
    ensures exact { Found result (NoneRead prd 2 tokens.now) (λ r. IsRead prd 2 tokens.now r.tree r.rest.now) }
{
    chain(alloc, 2, tokens)
}
