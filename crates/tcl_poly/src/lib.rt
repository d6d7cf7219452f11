//! Polynomials over a ring of integers, as sorted lists of terms.
#![tactic(auto)]

mod addition;
mod cofactors;
mod element;
mod factor;
mod fitting;
mod laws;
mod mono;
mod multiple;
mod multiplication;
mod poly;

pub use addition::add;
pub use cofactors::{Cofactor, Cofactors};
pub use element::{is_wide, norm_of_terms};
pub use factor::{Factor, Unknown, variable_key};
pub use fitting::{negated, product, raised, sum};
pub use laws::{combination_values, combination_vanishes};
pub use mono::Mono;
pub use multiple::add_multiple;
pub use multiplication::{mul, scale};
pub use poly::{Poly, PolyFault, degree, is_zero, norm, number, power, terms, unknown, zero};
