//! Instructions, exactness conditions and range lines of a versioned program as circuits, and what these show: the words, the
//! truth and the exactness that the language gives them, for every choice of the free bits.
#![tactic(auto)]

mod calls;
mod chain;
mod conditions;
mod operands;
mod predicates;
mod results;
mod steps;
mod terms;
mod words;

pub use calls::{exactness, instruction, range};
pub use words::Words;
