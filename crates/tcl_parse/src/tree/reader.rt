// What a reader of tokens gives, and the first tokens of a list.

ghost use Rattle.std.specs.Prelude.{◌≡◌, [], ◌∷◌, MatchBool, MatchOption, List, ℤ};
ghost use Rattle.tcl_text.specs.declared.token.Token.{Token};
ghost use Rattle.tcl_text.specs.declared.token.Token.TheVariants.{Number, Sign};
ghost use Rattle.tcl_text.specs.Grammar.{capped};
ghost use Rattle.tcl_parse.specs.Readers.{NoSign};

use tcl_text::{Symbol, Token};

/// What the first tokens are, and the tokens behind them.
#[derive(Drop)]
pub(crate) struct Reading<'a, T> {
    pub(crate) tree: T,
    pub(crate) rest: &'a [Token],
}

/// The first token and those behind it.
pub(crate) fn first_of(tokens: &[Token]) -> Option<(&Token, &[Token])>
    ensures { MatchOption result (tokens.now ≡ []) (λ r. tokens.now ≡ r.0.now ∷ r.1.now) }
{
    match tokens {
        [] => None,
        [first, rest @ ..] => Some((first, rest)),
    }
}

/// The token is this symbol.
fn is_sign(token: &Token, symbol: Symbol) -> bool
    ensures { MatchBool result (token.now ≡ Sign symbol) (token.now ≡ Sign symbol → ⊥) }
{
    match token {
        Token::Sign(written) => *written == symbol,
        _ => false,
    }
}

/// The tokens behind a symbol that stands first.
pub(crate) fn behind_sign(symbol: Symbol, tokens: &[Token]) -> Option<&[Token]>
    ensures { MatchOption result (NoSign symbol tokens.now) (λ r. tokens.now ≡ Sign symbol ∷ r.now) }
{
    let (first, behind) = first_of(tokens)?;
    if is_sign(first, symbol) {
        return Some(behind);
    }
    None
}

/// A number that stands first, and the tokens behind it.
pub(crate) fn number_at(tokens: &[Token]) -> Option<(&i128, &[Token])>
    ensures { MatchOption result ((n : ℤ) (us : List Token) → tokens.now ≡ Number n ∷ us → ⊥)
        (λ r. tokens.now ≡ Number r.0.now ∷ r.1.now) }
{
    match tokens {
        [Token::Number(n), behind @ ..] => Some((n, behind)),
        _ => None,
    }
}

/// An exponent or an amount, which is kept up to the greatest `u32`.
pub(crate) fn capped(n: &i128) -> u32
    ensures { result ≡ capped n.now }
{
    if *n < 0 {
        0
    } else if *n > 4294967295 {
        4294967295
    } else {
        *n as u32
    }
}
