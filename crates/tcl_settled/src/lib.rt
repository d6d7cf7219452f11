//! Facts that are settled by cheap means: a piece with such a fact ends with no cause (the completeness of the verifier).
#![tactic(auto)]

pub mod laws;
mod rings;

pub use rings::know_rings;
