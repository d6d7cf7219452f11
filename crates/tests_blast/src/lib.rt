//! Tests of the clauses of facts, through the public calls.
#![tactic(auto)]

#[cfg(test)]
mod expected;
#[cfg(test)]
mod facts;
#[cfg(test)]
mod forms;
#[cfg(test)]
mod inputs;
#[cfg(test)]
mod lifted_rows;
#[cfg(test)]
mod limits;
#[cfg(test)]
mod part_rows;
#[cfg(test)]
mod tables;
#[cfg(test)]
mod walks;
#[cfg(test)]
mod whole_rows;
