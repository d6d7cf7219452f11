//! Reads the words of a call: which lists of words a program takes, and what they choose.
#![tactic(auto)]

mod command;
mod fault;
mod law;
mod options;
mod reading;
mod table;
mod value;

pub use fault::UsageFault;
pub use law::{taken_words_are_given, words_are_taken};
pub use options::{Options, Tool};
pub use reading::read_words;
