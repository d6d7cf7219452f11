//! Static bounds of algebraic terms and lines, and the value of a modulus. A bound is exact up to a stated end, and stays
//! there where the number is greater.
#![tactic(auto)]

mod count;
mod equation;
mod modulus;
mod narrow;
mod term;

pub use equation::{equation_degree, equation_norm, equation_size, equation_terms};
pub use modulus::{is_wide_modulus, modulus_value};
pub use narrow::is_narrow;
pub use term::{degree, norm, size, terms};
