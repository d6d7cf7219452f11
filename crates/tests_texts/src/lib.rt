//! Tests of reading and typing texts, through the public calls.
#![tactic(auto)]

#[cfg(test)]
mod deep_lines;
#[cfg(test)]
mod expected;
#[cfg(test)]
mod texts;
#[cfg(test)]
mod trees;
#[cfg(test)]
mod types;
