//! The versioned form of a well typed program: each definition of a name becomes a variable of its own.
#![tactic(auto)]

mod form;
mod lines;
mod predicate;
mod table;

pub use form::ssa;
