//! Tests of the intervals of facts and of what follows from them, through the public calls.
#![tactic(auto)]

#[cfg(test)]
mod facts;
#[cfg(test)]
mod forms;
#[cfg(test)]
mod intervals;
#[cfg(test)]
mod programs;
