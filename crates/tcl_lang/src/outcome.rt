//! Values of runs, and computed truth.

use tcl_list::Listing;

/// The values that an input gives: those of the `in` names in order, then those of the `nondet` instructions.
pub type Input = Listing<i128>;

/// The value of each variable by its number, after a run.
pub type Trace = Listing<i128>;

/// The computed truth of a line. `Wide`: the numbers are too great for it to be computed.
#[derive(Clone, Copy, PartialEq, Eq)]
pub enum Truth {
    Yes,
    No,
    Wide,
}
