// What a search answers.

use tcl_cnf::{Bits, Log};

/// The end of a search.
#[derive(Drop)]
pub enum Found {
    /// No values make every clause true: the log ends with the empty clause.
    Refutes(Log),
    /// One bit for each variable, from 0 up to the greatest that a clause names, which make every clause true.
    Model(Bits),
    /// The log has as many derived clauses as the budget allows.
    Spent(Log),
    /// The port answered that the search is not wanted any more.
    Stopped,
}
