//! The text of a program: its lines, tokens and grammar, what it reads as, its first fault, and its canonical form.
#![tactic(auto)]

mod fault;
mod laws;
mod operation;
mod operator;
mod symbol;
mod token;

pub use fault::{Limit, LineFault, TextFault};
pub use laws::{one_outcome, one_statement};
pub use operation::{has_amount, word_of_op};
pub use operator::{PredOp, TermOp};
pub use symbol::Symbol;
pub use token::{Cut, Keyword, Raw, Statement, Token};
