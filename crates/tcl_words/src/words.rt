// The literals of variables.

use tcl_circuits::Lits;
use tcl_list::Listing;

/// The literals of each variable by number, the lowest bit first; empty where the variable has none yet.
pub type Words = Listing<Lits>;
