//! Everything around the grammar of a line: the lines of a text, their tokens, the numbers of names, and limits.

mod cutting;
mod digits;
mod limits;
mod lines;
mod numbering;
pub(crate) mod parser;
mod pieces;
mod progress;
mod reading;
mod symbols;
mod tokens;
mod words;
