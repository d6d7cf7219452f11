// What a look at one clause and a pass over all of them did.

/// One clause.
#[derive(Clone, Copy)]
pub(crate) enum Turn {
    // The clause is neither false nor unit.
    Settled,
    // The clause was unit, and its literal is true now.
    Given,
    // The clause is false.
    Falsified,
}

/// All clauses, in order.
#[derive(Clone, Copy)]
pub(crate) enum Pass {
    // No clause is false or unit.
    Closed,
    // Some literals became true.
    Moved,
    // The clause of this number is false.
    Stopped(u32),
}

/// One clause that watches a literal which became false.
#[derive(Clone, Copy)]
pub(crate) enum Visit {
    // It stays in the literal's list: it has a true literal, or got one.
    Kept,
    // It watches another literal now.
    Moved,
    // The clause of this number is false.
    Conflict(u32),
    // It had to watch another literal, and there was no room in that one's list.
    Stuck,
}

/// All clauses that watch a literal, or all entries that were not seen yet.
#[derive(Clone, Copy)]
pub(crate) enum Drain {
    Done,
    // The clause of this number is false.
    Conflict(u32),
    // There was no room in a list.
    Stuck,
}
