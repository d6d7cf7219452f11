//! Runs of a versioned program and the truth of its lines over plain values: one value for each variable, by number.
#![tactic(auto)]

mod equation;
mod input;
mod range;
mod residues;
mod running;
mod steps;
mod trials;
mod truth;
mod words;

pub use input::fits;
pub use running::run;
pub use steps::step;
pub use trials::trial;
pub use truth::holds;
