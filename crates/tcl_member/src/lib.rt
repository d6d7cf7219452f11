//! The membership search: the rows of a claim's equations, and their products with monomials one by one, by which what plain
//! reduction leaves of the claim is reduced.
#![tactic(auto)]

mod answer;
mod begin;
mod equation_row;
mod fit;
mod membership;
mod monomials;
mod multiple;
mod search;
mod unknowns;

pub use answer::Member;
pub use fit::are_fit;
pub use membership::member;
pub use tcl_pivots::Note;
