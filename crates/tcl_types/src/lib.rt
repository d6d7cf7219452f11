//! Typing: which programs are well typed, and of one that is not the first ill-typed line and its first reason.
#![tactic(auto)]

mod fault;
mod instruction;
mod modulus;
mod number;
mod predicate;
mod program;
mod reasons;
mod table;

pub use fault::TypeFault;
pub use program::check;
pub use reasons::reason_at;
pub use table::Types;
