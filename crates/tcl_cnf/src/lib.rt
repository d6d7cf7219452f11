// Literals, clauses and lists of clauses, and logs of resolutions whose every clause follows, whoever made the log.
#![tactic(auto)]

mod answer;
mod checker;
mod clause;
mod cnf;
pub mod laws;
mod lit;
mod log;
mod marks;
mod resolution;
mod rows;

pub use answer::LogAnswer;
pub use checker::check_log;
pub use clause::Clause;
pub use cnf::Cnf;
pub use lit::Lit;
pub use log::{Log, LogFault, LogLines};
pub use marks::Marks;
pub use rows::Rows;
use tcl_list::Listing;

/// Truth values, numbered from 0.
pub type Bits = Listing<bool>;
