//! Circuits of word arithmetic over gates, at every width: the gates that each one appends, the literals that it gives, and
//! the bits that these show for every choice of the free bits. Words have their lowest bit first.
//!
//! A circuit appends its gates to those before it, and neither leaves one out nor shares one. Where memory runs out in the
//! middle of a circuit, the gates that it made so far stay.
#![tactic(auto)]

mod addition;
mod bitwise;
mod chaining;
mod comparison;
mod links;
mod lits;
mod meeting;
mod multiplication;
mod parts;

pub use addition::{Sum, adder, difference, negation};
pub use bitwise::{bitwise_and, bitwise_or, bitwise_xor, choose};
pub use comparison::{equal, in_range, less};
pub use lits::Lits;
pub use multiplication::product;
pub use parts::{constant, extend, high_part, join, low_part, negated_word, shift};
