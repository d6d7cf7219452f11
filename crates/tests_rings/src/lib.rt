//! Tests of the public calls of rings, polynomials, cofactors, reduction and plain data.
#![tactic(auto)]

#[cfg(test)]
mod cofactors;
#[cfg(test)]
mod expected;
#[cfg(test)]
mod naming;
#[cfg(test)]
mod polynomials;
#[cfg(test)]
mod reduction;
#[cfg(test)]
mod remainders;
#[cfg(test)]
mod rings;
