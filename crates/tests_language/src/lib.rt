//! Tests of what the crates of the language promise, through their public calls.
#![tactic(auto)]

#[cfg(test)]
mod bits;
#[cfg(test)]
mod expected;
#[cfg(test)]
mod language;
#[cfg(test)]
mod lists;
#[cfg(test)]
mod numbers;
#[cfg(test)]
mod streams;
#[cfg(test)]
mod words;
