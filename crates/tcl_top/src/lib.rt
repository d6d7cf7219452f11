//! The top call: from the bytes of a program to the bytes of its report.
#![tactic(auto)]

mod job;
mod refusal;
mod solo;
mod worked;

pub use solo::{Done, solo_run};
