//! The polynomial of an algebraic term.
#![tactic(auto)]

mod laws;
mod term;

pub use laws::terms_agree;
pub use term::{difference, polynomial, variable};
