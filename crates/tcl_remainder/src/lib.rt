//! Plain polynomials and cofactors in a ring, and those of a ring as plain data.
#![tactic(auto)]

mod cofactors;
mod lines;
mod plain;
mod polynomial;

pub use cofactors::{are_fitting, are_plain, cofactors_of, lines_of};
pub use lines::{CofactorLine, CofactorLines};
pub use plain::{is_plain, remainder_of};
pub use polynomial::{degree, polynomial_of};
