// Circuits of gates: the clauses that they stand for, and the one value of every variable.
#![tactic(auto)]

mod encoding;
mod evaluation;
mod gate;
mod gates;
pub mod laws;

pub use encoding::{append_clauses, clauses_of_gates};
pub use evaluation::value_of;
pub use gate::Gate;
pub use gates::Gates;
