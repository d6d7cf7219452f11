// Single tokens at the front of a list of tokens.

ghost use Rattle.std.specs.Prelude.{◌≡◌, ℕ, [], ◌∷◌, List, MatchBool, MatchOption};
ghost use Rattle.tcl_lang.specs.declared.ty.Ty.{Ty};
ghost use Rattle.tcl_text.specs.declared.token.Token.{Token};
ghost use Rattle.tcl_text.specs.declared.token.Token.TheVariants as token;

use tcl_lang::Ty;
use tcl_text::Token;

/// A name that stands first, and the tokens behind it.
pub(crate) fn name_at(tokens: &[Token]) -> Option<(u32, &[Token])>
    ensures { MatchOption result
        ((x : ℕ) (us : List Token) → tokens.now ≡ token.Name x ∷ us → ⊥)
        (λ r. tokens.now ≡ token.Name r.0 ∷ r.1.now) }
{
    match tokens {
        [Token::Name(name), behind @ ..] => Some((*name, behind)),
        _ => None,
    }
}

/// A type that stands first, and the tokens behind it.
pub(crate) fn type_at(tokens: &[Token]) -> Option<(Ty, &[Token])>
    ensures { MatchOption result
        ((T : Ty) (us : List Token) → tokens.now ≡ token.Kind T ∷ us → ⊥)
        (λ r. tokens.now ≡ token.Kind r.0 ∷ r.1.now) }
{
    match tokens {
        [Token::Kind(ty), behind @ ..] => Some((*ty, behind)),
        _ => None,
    }
}

/// No token is left.
pub(crate) fn ends(tokens: &[Token]) -> bool
    ensures { MatchBool result (tokens.now ≡ []) (tokens.now ≡ [] → ⊥) }
{
    match tokens {
        [] => true,
        _ => false,
    }
}
