//! Tests of certificates and of inputs that refute a goal, through the public calls.
#![tactic(auto)]

#[cfg(test)]
mod breaks;
#[cfg(test)]
mod cases;
#[cfg(test)]
mod expected;
#[cfg(test)]
mod facts;
#[cfg(test)]
mod forms;
#[cfg(test)]
mod strays;
