//! Tests of the circuits of instructions and of range lines, through the public calls.
#![tactic(auto)]

#[cfg(test)]
mod bits;
#[cfg(test)]
mod instructions;
#[cfg(test)]
mod random;
#[cfg(test)]
mod ranges;
#[cfg(test)]
mod rows;
