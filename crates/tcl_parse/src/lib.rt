//! Reads the text of a program, and refuses every other text with its first fault.
#![tactic(auto)]

mod fault;
mod statement;
mod text;
mod tree;

pub use fault::ParseFault;
pub use text::parser::parse;
