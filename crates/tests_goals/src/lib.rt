//! Tests of goals, their default hypotheses, and facts, through the public calls.
#![tactic(auto)]

#[cfg(test)]
mod expected;
#[cfg(test)]
mod facts;
#[cfg(test)]
mod forms;
#[cfg(test)]
mod goals;
#[cfg(test)]
mod in_order;
#[cfg(test)]
mod programs;
#[cfg(test)]
mod sharing;
#[cfg(test)]
mod slices;
