// Runs of one worker. The events are worked by hand from the rules: pieces are claimed from the least on, a goal that is settled
// has no piece claimed any more, and a goal is admitted as soon as the pieces of one of its routes are proved.

use crate::forms::form_of_text;
use crate::job::{Deed, Then};
use crate::running::run_by;
use crate::texts::text_of;
use std::alloc::Global;
use std::test::Fail;
use tcl_list::Listing;
use tests_board::BUDGET;

// Two goals, which hold.
pub(crate) const HOLDS: &str = "in u2 x\nassert rng x <= 3@u2\npost rng x <= 3@u2\nend";

// Four goals, of which 3 refutes goal 1, and 2 refutes goal 2.
pub(crate) const BROKEN: &str =
    "in u2 x\nassert rng x <= 3@u2\nassert rng x < 3@u2\nassert rng x < 2@u2\npost rng x < 2@u2\nend";

pub(crate) const PROVE: Deed = Deed {
    lemmas: 0,
    level: 0,
    then: Then::Prove,
};

pub(crate) const END: Deed = Deed {
    lemmas: 0,
    level: 0,
    then: Then::End,
};

const FAIL: Deed = Deed {
    lemmas: 0,
    level: 0,
    then: Then::Fail,
};

const BREAK_1: Deed = Deed {
    lemmas: 0,
    level: 0,
    then: Then::Break(1, 3),
};

const BREAK_2: Deed = Deed {
    lemmas: 0,
    level: 0,
    then: Then::Break(2, 2),
};

// What the board shows after the run by these deeds, over the pieces of a split.
pub(crate) fn shown_by(
    alloc: Global,
    text: &str,
    split: u32,
    deeds: &[Deed],
) -> Result<String, Fail> {
    let form = form_of_text(alloc, text)?;
    let deeds = Listing::from_vec(Vec::from_slice(alloc, deeds)?);
    let ran = run_by(alloc, form, split, deeds)?;
    let mut shown = String::from_str(alloc, if ran.whole { "whole, " } else { "stopped, " })?;
    shown.push_str(text_of(alloc, &ran.board, BUDGET)?.as_str())?;
    Ok(shown)
}

// The pieces 2 * goal and 2 * goal + 1 are those of the cut and of the whole route.
const RUNS: &[(&str, &[Deed], &str)] = &[
    // Each goal is proved by its cut piece.
    (
        HOLDS,
        &[PROVE, PROVE, PROVE, PROVE],
        "whole, closed, verified: 0 claims 0, 0 proves 0, goal 0, 0 claims 2, 0 proves 2, goal 1,",
    ),
    // The one goal by its whole piece, the other not at all.
    (
        HOLDS,
        &[END, PROVE, END],
        "whole, closed, unproved: 0 claims 0, 0 ends 0, 0 claims 1, 0 proves 1, goal 0, 0 claims 2, 0 ends 2, 0 claims 3, 0 ends 3,",
    ),
    // What does not check ends with the budget.
    (
        BROKEN,
        &[PROVE, PROVE, PROVE, PROVE, END, END, END, END],
        "whole, closed, unproved: 0 claims 0, 0 proves 0, goal 0, 0 claims 2, 0 ends 2, 0 claims 3, 0 ends 3, 0 claims 4, 0 ends 4, 0 claims 5, 0 ends 5, 0 claims 6, 0 ends 6, 0 claims 7, 0 ends 7,",
    ),
    // A break settles its goal.
    (
        BROKEN,
        &[PROVE, END, BREAK_1, END, END, BREAK_2, END, PROVE],
        "whole, closed, refuted: 0 claims 0, 0 proves 0, goal 0, 0 claims 2, 0 breaks goal 1 by 2, 0 claims 4, 0 ends 4, 0 claims 5, 0 breaks goal 2 by 5, 0 claims 6, 0 ends 6, 0 claims 7, 0 proves 7, goal 3,",
    ),
    // Breaks of smaller goals, one of them twice, leave the goal of the piece open.
    (
        BROKEN,
        &[END, END, END, END, BREAK_1, BREAK_1, BREAK_2, PROVE],
        "whole, closed, refuted: 0 claims 0, 0 ends 0, 0 claims 1, 0 ends 1, 0 claims 2, 0 ends 2, 0 claims 3, 0 ends 3, 0 claims 4, 0 breaks goal 1 by 4, 0 claims 5, 0 breaks goal 1 by 5, 0 claims 6, 0 breaks goal 2 by 6, 0 claims 7, 0 proves 7, goal 3,",
    ),
    // Memory runs out at once, or later: the steps up to there stay.
    (HOLDS, &[FAIL], "stopped, open, unproved: 0 claims 0,"),
    (
        HOLDS,
        &[PROVE, END, FAIL, PROVE],
        "stopped, open, unproved: 0 claims 0, 0 proves 0, goal 0, 0 claims 2,",
    ),
    // A program without a goal.
    ("in u2 x\nend", &[], "whole, closed, verified:"),
];

// Two pieces for each route: 4 * goal and the next are those of the cut route.
const SPLIT: &[(&[Deed], &str)] = &[
    (
        &[PROVE, PROVE, END, END, PROVE, END, PROVE, PROVE],
        "whole, closed, verified: 0 claims 0, 0 proves 0, 0 claims 1, 0 proves 1, goal 0, 0 claims 4, 0 proves 4, 0 claims 5, 0 ends 5, 0 claims 6, 0 proves 6, 0 claims 7, 0 proves 7, goal 1,",
    ),
    (
        &[END, PROVE, PROVE, END, PROVE, PROVE, PROVE, PROVE],
        "whole, closed, unproved: 0 claims 0, 0 ends 0, 0 claims 1, 0 proves 1, 0 claims 2, 0 proves 2, 0 claims 3, 0 ends 3, 0 claims 4, 0 proves 4, 0 claims 5, 0 proves 5, goal 1,",
    ),
];

#[test]
fn events_of_runs(rt: HostRuntime) -> Result<(), Fail> {
    for (text, deeds, expected) in RUNS {
        let shown = shown_by(rt.alloc(), text, 0, deeds)?;
        assert_eq!(&rt; shown.as_str(), *expected);
    }
    Ok(())
}

#[test]
fn events_of_runs_over_cubes(rt: HostRuntime) -> Result<(), Fail> {
    for (deeds, expected) in SPLIT {
        let shown = shown_by(rt.alloc(), HOLDS, 1, deeds)?;
        assert_eq!(&rt; shown.as_str(), *expected);
    }
    Ok(())
}
