// The operands of instructions, which are the leaves of range terms too.

ghost use Rattle.std.specs.Prelude.{◌≡◌, ◌<◌, ◌<ℤ◌, ◌∷◌, length, IfSome, MatchBool, MatchOption, List, neg_ℤ, pos};
ghost use Rattle.tcl_lang.specs.declared.ty.Ty.{Ty};
ghost use Rattle.tcl_lang.specs.declared.instr.Atom.TheVariants.{Lit};
ghost use Rattle.tcl_text.specs.declared.symbol.Symbol.TheVariants.{At, Minus};
ghost use Rattle.tcl_text.specs.declared.token.Token.{Token};
ghost use Rattle.tcl_text.specs.declared.token.Token.TheVariants.{Kind, Number, Sign};
ghost use Rattle.tcl_text.specs.Grammar.{Operand};
ghost use Rattle.tcl_parse.specs.Readers.{NoOperand};

use crate::tree::reader::{Reading, first_of};
use tcl_lang::{Atom, Ty};
use tcl_text::{Symbol, Token};

/// `@` and a type.
fn type_at(tokens: &[Token]) -> Option<(Ty, &[Token])>
    ensures { MatchOption result
        ((T : Ty) (us : List Token) → tokens.now ≡ Sign At ∷ Kind T ∷ us → ⊥)
        (λ r. tokens.now ≡ Sign At ∷ Kind r.0 ∷ r.1.now) }
{
    match tokens {
        [Token::Sign(Symbol::At), Token::Kind(ty), rest @ ..] => Some((*ty, rest)),
        _ => None,
    }
}

/// The atom of a literal.
fn lit(ty: Ty, n: &i128) -> Atom
    ensures { result ≡ Lit ty n.now }
{
    Atom::Lit(ty, *n)
}

/// The atom of a literal below zero.
fn lit_below(ty: Ty, n: &i128) -> Atom
    requires { pos 0 <ℤ n.now }
    ensures { result ≡ Lit ty (neg_ℤ n.now) }
{
    Atom::Lit(ty, -*n)
}

/// The number is above zero.
fn is_above_zero(n: &i128) -> bool
    ensures { MatchBool result (pos 0 <ℤ n.now) (pos 0 <ℤ n.now → ⊥) }
{
    *n > 0
}

/// A literal behind its number.
fn literal<'a>(n: &'a i128, behind: &'a [Token]) -> Option<Reading<'a, Atom>>
    ensures exact { MatchOption result (NoOperand (Number n.now ∷ behind.now))
        (λ r. Operand (Number n.now ∷ behind.now) r.tree r.rest.now) }
    ensures shorter { IfSome result (λ r. length r.rest.now < length behind.now) }
{
    let (ty, rest) = type_at(behind)?;
    Some(Reading {
        tree: lit(ty, n),
        rest,
    })
}

/// A literal behind its `-`.
fn negative(behind: &[Token]) -> Option<Reading<'_, Atom>>
    ensures exact { MatchOption result (NoOperand (Sign Minus ∷ behind.now))
        (λ r. Operand (Sign Minus ∷ behind.now) r.tree r.rest.now) }
    ensures shorter { IfSome result (λ r. length r.rest.now < length behind.now) }
{
    let (first, behind) = first_of(behind)?;
    let Token::Number(n) = first else {
        return None;
    };
    if !is_above_zero(n) {
        return None;
    }
    let (ty, rest) = type_at(behind)?;
    Some(Reading {
        tree: lit_below(ty, n),
        rest,
    })
}

/// A name, or a literal with its type.
pub(crate) fn operand(tokens: &[Token]) -> Option<Reading<'_, Atom>>
    ensures exact { MatchOption result (NoOperand tokens.now) (λ r. Operand tokens.now r.tree r.rest.now) }
    ensures shorter { IfSome result (λ r. length r.rest.now < length tokens.now) }
{
    let (first, behind) = first_of(tokens)?;
    match first {
        Token::Name(x) => Some(Reading {
            tree: Atom::Var(*x),
            rest: behind,
        }),
        Token::Number(n) => literal(n, behind),
        Token::Sign(Symbol::Minus) => negative(behind),
        _ => None,
    }
}
