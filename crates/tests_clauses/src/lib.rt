//! Tests of the public calls of clauses, logs and circuits.
#![tactic(auto)]

#[cfg(test)]
mod circuits;
#[cfg(test)]
mod clauses;
#[cfg(test)]
mod expected;
#[cfg(test)]
mod gates;
