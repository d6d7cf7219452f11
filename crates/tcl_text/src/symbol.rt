//! The symbols of the text.

/// A symbol, named by how it is written.
#[derive(Clone, Copy, PartialEq, Eq)]
pub enum Symbol {
    /// `**`
    StarStar,
    /// `&&`
    AndAnd,
    /// `||`
    BarBar,
    /// `!=`
    NotEqual,
    /// `<=`
    LessEqual,
    /// `>=`
    GreaterEqual,
    Plus,
    Minus,
    Star,
    Ampersand,
    Bar,
    Caret,
    Tilde,
    Equal,
    Less,
    Greater,
    /// `!`
    Bang,
    Open,
    Close,
    /// `[`
    OpenSquare,
    /// `]`
    CloseSquare,
    Comma,
    At,
}
