//! The exact comparison of a polynomial with a combination of equations.
#![tactic(auto)]

mod answer;
mod combination;
mod difference;

pub use answer::{CofactorAnswer, check_cofactors};
