//! What is wrong with a text.

/// The limits of a text other than its number of bytes, in the order in which they are looked for.
#[derive(Clone, Copy, PartialEq, Eq, Debug)]
pub enum Limit {
    /// 64 open brackets at once in one line.
    Nesting,
    /// 4,096 operator tokens in one line.
    Operators,
    /// An exponent of 1,024.
    Exponent,
    /// 4,096 instructions.
    Instructions,
    /// 8,192 definitions.
    Variables,
    /// 4,096 goals.
    Goals,
}

/// What is wrong with a line, apart from where it stands.
#[derive(Clone, Copy, PartialEq, Eq)]
pub enum LineFault {
    /// A byte or a token that is not allowed, or no line of the grammar.
    Text,
    Limit(Limit),
}

/// The first faulty line of a text, by its number from 1, with its fault.
#[derive(Clone, Copy, PartialEq, Eq)]
pub enum TextFault {
    Line(u64, LineFault),
    /// A line is out of its place, or `end` is missing at the line after the last one.
    Shape(u64),
}
