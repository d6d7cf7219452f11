//! Tests of the membership search through its public calls.
#![tactic(auto)]

#[cfg(test)]
mod answers;
#[cfg(test)]
mod counter;
#[cfg(test)]
mod dice;
#[cfg(test)]
mod ends;
#[cfg(test)]
mod expectation;
#[cfg(test)]
mod expected;
#[cfg(test)]
mod making;
#[cfg(test)]
mod polynomials;
#[cfg(test)]
mod programs;
#[cfg(test)]
mod searches;
