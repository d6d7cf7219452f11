//! Tests of the top calls on whole texts.
#![tactic(auto)]

#[cfg(test)]
mod canonical;
#[cfg(test)]
mod events;
#[cfg(test)]
mod example_limbs;
#[cfg(test)]
mod example_reductions;
#[cfg(test)]
mod examples;
#[cfg(test)]
mod narrow;
#[cfg(test)]
mod ranges;
#[cfg(test)]
mod settled;
#[cfg(test)]
mod solo;
