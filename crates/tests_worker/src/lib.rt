//! Tests of the work on a piece through its public call, and of the run of a worker with it.
#![tactic(auto)]

mod counter;
#[cfg(test)]
mod ends;
#[cfg(test)]
mod forms;
mod giving;
mod job;
#[cfg(test)]
mod lemmas;
mod texts;

pub use counter::Counter;
pub use giving::given;
pub use job::{Work, driven};
pub use texts::text_of_given;
