//! Tests of the equations of facts, through the public calls.
#![tactic(auto)]

#[cfg(test)]
mod facts;
#[cfg(test)]
mod large;
#[cfg(test)]
mod lemmas;
#[cfg(test)]
mod polys;
#[cfg(test)]
mod tables;
