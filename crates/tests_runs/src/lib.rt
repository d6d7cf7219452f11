//! Tests of what the crates of runs and of walks promise, through their public calls.
#![tactic(auto)]

#[cfg(test)]
mod enumerated;
#[cfg(test)]
mod forms;
#[cfg(test)]
mod runs;
#[cfg(test)]
mod steps;
#[cfg(test)]
mod truth;
#[cfg(test)]
mod versions;
