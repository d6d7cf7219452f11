//! The work on a board: what a job owes for a piece, and the run of one worker to the end.
#![tactic(auto)]

mod alone;
mod giving;
mod going;
mod job;
mod laws;
mod working;

pub use alone::drive_alone;
pub use job::Job;
pub use laws::fitting_is_taken;
