//! Tests of the public calls of the trail and the search.
#![tactic(auto)]

#[cfg(test)]
mod dice;
#[cfg(test)]
mod plain_trail;
#[cfg(test)]
mod search;
#[cfg(test)]
mod trail;
