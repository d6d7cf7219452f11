// What a look at one place of the trail gives in the analysis of a conflict.

use tcl_cnf::Lit;

#[derive(Clone, Copy)]
pub(crate) enum Turned {
    // This literal of the clause is the first unique implication point.
    Point(Lit),
    // The walk goes on, with so many literals of the clause that are not false below the floor.
    Further(usize),
}
