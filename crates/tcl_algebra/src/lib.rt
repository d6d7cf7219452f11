//! The equations of a fact.
#![tactic(auto)]

mod claim;
mod definitions;
mod ended;
mod hypotheses;
mod laws;
mod lines;
mod multiple;
mod of_fact;
mod row;
mod rows;
mod squares;

pub use claim::{claim_equation, claim_modulus, has_wide_modulus};
pub use ended::AlgebraEnd;
pub use laws::equations_hold;
pub use of_fact::equations;
pub use tcl_reduce::Equations;
