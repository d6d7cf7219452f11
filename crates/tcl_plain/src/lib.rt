//! The plain reduction of a fact's claim, with the cofactors that show it where nothing is left.
#![tactic(auto)]

mod outcome;
mod reduction;

pub use outcome::Outcome;
pub use reduction::reduce;
