//! Tests of the run of one worker over a board, with a job of the tests' own: what it does for each piece stands in a list.
#![tactic(auto)]

#[cfg(test)]
mod forms;
mod giving;
mod job;
#[cfg(test)]
mod lemma_runs;
mod running;
#[cfg(test)]
mod runs;
mod showing;
mod texts;

pub use job::{Deed, Script, Then};
pub use running::{Ran, run_by};
pub use texts::text_of;
