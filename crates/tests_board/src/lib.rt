//! Tests of the board through its public calls, with an evidence of the tests' own: proofs of the kernel.
#![tactic(auto)]

mod bench;
#[cfg(test)]
mod forms;
mod model;
#[cfg(test)]
mod random;
mod showing;
mod steps;
#[cfg(test)]
mod table;
mod witness;

pub use bench::{BUDGET, Bench};
pub use witness::Witness;
