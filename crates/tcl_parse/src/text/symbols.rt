// The symbols that stand at the front of bytes.

ghost use Rattle.std.specs.Prelude.{◌≡◌, ◌≤◌, length};
ghost use Rattle.tcl_text.specs.Tokens as tokens;

use tcl_text::{Cut, Raw, Symbol};

/// A symbol of two bytes.
fn long_symbol(first: u8, second: u8) -> Option<Symbol>
    ensures { result ≡ tokens.long_symbol first second }
{
    match (first, second) {
        (b'*', b'*') => Some(Symbol::StarStar),
        (b'&', b'&') => Some(Symbol::AndAnd),
        (b'|', b'|') => Some(Symbol::BarBar),
        (b'!', b'=') => Some(Symbol::NotEqual),
        (b'<', b'=') => Some(Symbol::LessEqual),
        (b'>', b'=') => Some(Symbol::GreaterEqual),
        _ => None,
    }
}

/// A symbol of one byte.
fn short_symbol(byte: u8) -> Option<Symbol>
    ensures { result ≡ tokens.short_symbol byte }
{
    match byte {
        b'+' => Some(Symbol::Plus),
        b'-' => Some(Symbol::Minus),
        b'*' => Some(Symbol::Star),
        b'&' => Some(Symbol::Ampersand),
        b'|' => Some(Symbol::Bar),
        b'^' => Some(Symbol::Caret),
        b'~' => Some(Symbol::Tilde),
        b'=' => Some(Symbol::Equal),
        b'<' => Some(Symbol::Less),
        b'>' => Some(Symbol::Greater),
        b'!' => Some(Symbol::Bang),
        b'(' => Some(Symbol::Open),
        b')' => Some(Symbol::Close),
        b'[' => Some(Symbol::OpenSquare),
        b']' => Some(Symbol::CloseSquare),
        b',' => Some(Symbol::Comma),
        b'@' => Some(Symbol::At),
        _ => None,
    }
}

/// 0 where there is none.
fn next_byte(bytes: &[u8]) -> u8
    ensures { result ≡ tokens.next_byte bytes.now }
{
    match bytes {
        [] => 0,
        [first, ..] => *first,
    }
}

/// A symbol of two bytes is taken before one of one byte.
#[tactic(auto, unfolding(tcl_text::specs::Tokens::symbol_cut))]
pub(crate) fn symbol_cut(first: u8, others: &[u8]) -> Option<Cut>
    ensures cut { result ≡ tokens.symbol_cut first others.now }
    ensures within { tokens.more_of result ≤ length others.now }
{
    match (long_symbol(first, next_byte(others)), short_symbol(first)) {
        (Some(symbol), _) => Some(Cut {
            token: Raw::Sign(symbol),
            more: 1,
        }),
        (None, Some(symbol)) => Some(Cut {
            token: Raw::Sign(symbol),
            more: 0,
        }),
        (None, None) => None,
    }
}
