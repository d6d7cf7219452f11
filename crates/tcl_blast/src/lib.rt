//! The clauses of a fact: what it means that they can't all be met, and the input of a model.
#![tactic(auto)]

mod algebraic_lines;
mod begin;
mod bits;
mod blasted;
mod encoding;
mod ended;
mod exponent;
mod inputs;
pub mod laws;
mod lifted;
mod lines;
mod sizes;

pub use encoding::clauses;
pub use ended::BlastEnd;
pub use inputs::input_of;
