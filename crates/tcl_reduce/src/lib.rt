//! Plain reduction: a polynomial in which the definitions of variables are substituted, with the cofactors that show it.
#![tactic(auto)]

mod answer;
mod definition;
mod equations;
mod laws;
mod parts;
mod reduction;
mod size;
mod step;
mod substitution;

pub use answer::Plain;
pub use definition::{Definition, Defs};
pub use equations::Equations;
pub use laws::{parts_make, quotients_divide, reductions_keep};
pub use reduction::plain;
