//! Texts that are printed: the canonical text of a program, and the report on one.
#![tactic(auto)]

mod causes;
mod inputs;
mod laws;
mod line;
mod printer;
mod program;
mod range;
mod report;
mod term;
mod text;

pub use laws::{fewest_brackets, one_rendering};
pub use program::program_text;
pub use report::report_text;
pub use text::{Text, add, add_integer, add_number};
