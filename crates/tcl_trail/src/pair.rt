// The two literals of a clause that are watched.

use tcl_cnf::Lit;

/// Two literals of a clause. The clause is looked at where one of them becomes false. Of a clause that is not watched,
/// both are one. The search for another literal to watch begins at the place in the clause where the last one ended (Gent,
/// JAIR 48, 2013).
#[derive(Clone, Copy)]
pub(crate) struct Pair {
    pub(crate) first: Lit,
    pub(crate) second: Lit,
    pub(crate) from: u32,
}

/// A literal of a clause that may be watched, and its place there.
#[derive(Clone, Copy)]
pub(crate) struct Free {
    pub(crate) lit: Lit,
    pub(crate) place: u32,
}

/// The number of a clause that watches a literal, and another literal of it: where that one is true, the clause need not be
/// looked at.
#[derive(Clone, Copy)]
pub(crate) struct Watch {
    pub(crate) number: u32,
    pub(crate) blocker: Lit,
}

/// Two literals that a clause may watch, and how many entries it may count as seen.
#[derive(Clone, Copy)]
pub(crate) struct Chosen {
    pub(crate) pair: Pair,
    pub(crate) limit: usize,
}
