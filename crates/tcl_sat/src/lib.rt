//! Conflict-driven search over clauses, with a proof of what it finds.
#![tactic(auto)]

mod analysis;
mod derivation;
mod descent;
mod found;
mod learning;
mod minimization;
mod order;
mod restart;
mod solver;
mod turned;
mod values;

pub use found::Found;
pub use solver::search;
