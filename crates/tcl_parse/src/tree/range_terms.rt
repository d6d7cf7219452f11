// Range terms: five heights of operators over factors. A base is an operand, a cast or a range term in brackets. The `-`
// before a literal belongs to the literal.

ghost use Rattle.std.specs.Prelude.{◌≡◌, ◌<◌, ◌∷◌, length, MatchBool, MatchOption, List};
ghost use Rattle.tcl_lang.specs.declared.ty.Ty.{Ty};
ghost use Rattle.tcl_lang.specs.declared.instr.Op.TheVariants as op;
ghost use Rattle.tcl_text.specs.declared.symbol.Symbol.TheVariants.{Comma, Minus, Open};
ghost use Rattle.tcl_text.specs.declared.token.Token.{Token};
ghost use Rattle.tcl_text.specs.declared.token.Token.TheVariants.{Instruction, Kind, Sign};
ghost use Rattle.tcl_text.specs.Trees.{wrd, joined};
ghost use Rattle.tcl_parse.specs.Chains.{signed};
ghost use Rattle.tcl_text.specs.Grammar.{NoLiteral};
ghost use Rattle.tcl_parse.specs.Readers.{Found, OnFound, IsRead, NoneRead};

use crate::tree::chains::{Chained, chain};
use crate::tree::operands::operand;
use crate::tree::reader::{Reading, behind_sign, first_of};
use sqlite_items::Boxed;
use std::alloc::{AllocError, Global};
use tcl_lang::{Op, RngOp, RngTerm, Ty};
use tcl_text::{Symbol, Token};

impl Chained for RngTerm {
    type Joint = RngOp;

    ghost use Rattle.tcl_text.specs.Trees.{wrd};

    ghost sort = { wrd };

    ghost tree = { λ t. t };

    ghost joint = { λ op. op };

    fn loosest() -> usize {
        5
    }

    fn closing() -> Symbol {
        Symbol::Close
    }

    fn operator_of(token: &Token) -> Option<(usize, RngOp)> {
        match token {
            Token::Sign(Symbol::Star) => Some((1, RngOp::Mul)),
            Token::Sign(Symbol::Plus) => Some((2, RngOp::Add)),
            Token::Sign(Symbol::Minus) => Some((2, RngOp::Sub)),
            Token::Sign(Symbol::Ampersand) => Some((3, RngOp::And)),
            Token::Sign(Symbol::Caret) => Some((4, RngOp::Xor)),
            Token::Sign(Symbol::Bar) => Some((5, RngOp::Or)),
            _ => None,
        }
    }

    fn joined(op: RngOp, left: Boxed<RngTerm>, right: Boxed<RngTerm>) -> RngTerm
        ensures { result ≡ joined wrd op left right }
    {
        RngTerm::Bin(op, left, right)
    }

    fn sign_at(tokens: &[Token]) -> Option<(Symbol, &[Token])> {
        if let Some(behind) = minus_at(tokens) {
            return Some((Symbol::Minus, behind));
        }
        let Some(behind) = behind_sign(Symbol::Tilde, tokens) else {
            return None;
        };
        Some((Symbol::Tilde, behind))
    }

    fn signed(sign: Symbol, base: Boxed<RngTerm>) -> RngTerm
        ensures { result ≡ signed wrd sign base }
    {
        match sign {
            Symbol::Minus => RngTerm::Neg(base),
            _ => RngTerm::Flip(base),
        }
    }

    fn opening(tokens: &[Token]) -> Option<(Option<Ty>, &[Token])> {
        if let Some(inside) = behind_sign(Symbol::Open, tokens) {
            return Some((None, inside));
        }
        let Some((ty, inside)) = cast_at(tokens) else {
            return None;
        };
        Some((Some(ty), inside))
    }

    /// An operand.
    fn unbracketed(
        _alloc: Global,
        tokens: &[Token],
    ) -> Result<Option<Reading<'_, RngTerm>>, AllocError> {
        let Some(leaf) = operand(tokens) else {
            return Ok(None);
        };
        Ok(Some(Reading {
            tree: RngTerm::Leaf(leaf.tree),
            rest: leaf.rest,
        }))
    }

    fn bracketed(
        alloc: Global,
        cast: Option<Ty>,
        inner: RngTerm,
        rest: &[Token],
    ) -> Result<Option<Reading<'_, RngTerm>>, AllocError> {
        let Some(ty) = cast else {
            return Ok(Some(Reading { tree: inner, rest }));
        };
        Ok(Some(Reading {
            tree: RngTerm::Cast(ty, Boxed::new(alloc, inner)?),
            rest,
        }))
    }
}

/// A `-` that is no literal's, and the tokens behind it.
fn minus_at(tokens: &[Token]) -> Option<&[Token]>
    ensures { MatchOption result ((us : List Token) → tokens.now ≡ Sign Minus ∷ us → NoLiteral us → ⊥)
        (λ r. (tokens.now ≡ Sign Minus ∷ r.now) × NoLiteral r.now) }
{
    match tokens {
        [
            Token::Sign(Symbol::Minus),
            Token::Number(_),
            Token::Sign(Symbol::At),
            ..
        ] => None,
        [Token::Sign(Symbol::Minus), behind @ ..] => Some(behind),
        _ => None,
    }
}

/// `cast (T,` with its type, and the tokens behind it.
fn cast_at(tokens: &[Token]) -> Option<(Ty, &[Token])>
    ensures { MatchOption result
        ((T : Ty) (us : List Token) → tokens.now ≡ Instruction op.Cast ∷ Sign Open ∷ Kind T ∷ Sign Comma ∷ us → ⊥)
        (λ r. tokens.now ≡ Instruction op.Cast ∷ Sign Open ∷ Kind r.0 ∷ Sign Comma ∷ r.1.now) }
{
    match tokens {
        [
            Token::Instruction(Op::Cast),
            Token::Sign(Symbol::Open),
            Token::Kind(ty),
            Token::Sign(Symbol::Comma),
            rest @ ..,
        ] => Some((*ty, rest)),
        _ => None,
    }
}

/// A range term that no operator goes on with.
pub(crate) fn range_term(
    alloc: Global,
    tokens: &[Token],
) -> Result<Option<Reading<'_, RngTerm>>, AllocError>
    ensures exact { Found result (NoneRead wrd 5 tokens.now) (λ r. IsRead wrd 5 tokens.now r.tree r.rest.now) }
    ensures shorter { OnFound result (λ r. length r.rest.now < length tokens.now) }
{
    chain(alloc, 5, tokens)
}
