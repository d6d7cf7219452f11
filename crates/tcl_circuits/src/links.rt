// The kinds of gates that a circuit makes bit by bit.

use tcl_cnf::Lit;

/// A circuit that makes one gate for each pair of bits.
#[derive(Clone, Copy)]
pub enum Meet {
    /// True where both bits are.
    And,
    /// True where exactly one bit is.
    Xor,
    /// The first bit where this literal is true, and else the second.
    Choice(Lit),
}

/// A circuit that hands a bit on from each pair of bits to the next.
#[derive(Clone, Copy)]
pub enum Link {
    /// The carry of the first word and the negated second one.
    Less,
    /// True where each pair so far is of equal bits.
    Equal,
    /// True where each first bit so far is false.
    Clear,
}
