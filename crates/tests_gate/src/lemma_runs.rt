// Runs in which lemmas are made. Each is admitted at once, and the same piece goes on with the lemmas asked anew.

use crate::job::{Deed, Then};
use crate::runs::{BROKEN, END, HOLDS, PROVE, shown_by};
use std::test::Fail;

// Lemmas of a level until so many are given, then the end.
const TWO_THEN_PROVE: Deed = Deed {
    lemmas: 2,
    level: 0,
    then: Then::Prove,
};

const THREE_THEN_PROVE: Deed = Deed {
    lemmas: 3,
    level: 1,
    then: Then::Prove,
};

const ONE_THEN_END: Deed = Deed {
    lemmas: 1,
    level: 0,
    then: Then::End,
};

const ONE_THEN_PROVE: Deed = Deed {
    lemmas: 1,
    level: 0,
    then: Then::Prove,
};

const ONE_LATER_THEN_PROVE: Deed = Deed {
    lemmas: 1,
    level: 1,
    then: Then::Prove,
};

const ONE_THEN_BREAK: Deed = Deed {
    lemmas: 1,
    level: 1,
    then: Then::Break(1, 3),
};

const TWO_THEN_FAIL: Deed = Deed {
    lemmas: 2,
    level: 2,
    then: Then::Fail,
};

const ONE_OF_NO_GOAL: Deed = Deed {
    lemmas: 1,
    level: 2,
    then: Then::Prove,
};

const RUNS: &[(&str, &[Deed], &str)] = &[
    // Two lemmas, which the proof cites; the second goal is given them too, and makes one more.
    (
        HOLDS,
        &[TWO_THEN_PROVE, END, THREE_THEN_PROVE, END],
        "whole, closed, verified: 0 claims 0, 0 has a lemma by 0, lemma 0, 0 has a lemma by 0, lemma 1, 0 proves 0, goal 0, 0 claims 2, 0 has a lemma by 2, lemma 2, 0 proves 2, goal 1, 0 cites 0, 0 cites 1, 2 cites 0, 2 cites 1, 2 cites 2,",
    ),
    // The lemmas of a piece that ends stay for the next one.
    (
        HOLDS,
        &[ONE_THEN_END, ONE_THEN_PROVE, ONE_LATER_THEN_PROVE, END],
        "whole, closed, verified: 0 claims 0, 0 has a lemma by 0, lemma 0, 0 ends 0, 0 claims 1, 0 proves 1, goal 0, 0 claims 2, 0 proves 2, goal 1, 1 cites 0, 2 cites 0,",
    ),
    // A lemma before a break, and one before memory runs out.
    (
        BROKEN,
        &[PROVE, END, ONE_THEN_BREAK, END, TWO_THEN_FAIL],
        "stopped, open, refuted: 0 claims 0, 0 proves 0, goal 0, 0 claims 2, 0 has a lemma by 2, lemma 0, 0 breaks goal 1 by 2, 0 claims 4, 0 has a lemma by 4, lemma 1,",
    ),
    // A level that no goal has.
    (
        HOLDS,
        &[ONE_OF_NO_GOAL, END, END, END],
        "whole, closed, unproved: 0 claims 0, 0 ends 0, 0 claims 1, 0 ends 1, 0 claims 2, 0 ends 2, 0 claims 3, 0 ends 3,",
    ),
];

#[test]
fn events_of_runs_with_lemmas(rt: HostRuntime) -> Result<(), Fail> {
    for (text, deeds, expected) in RUNS {
        let shown = shown_by(rt.alloc(), text, 0, deeds)?;
        assert_eq!(&rt; shown.as_str(), *expected);
    }
    Ok(())
}

// Lemmas of a later goal are not given for a piece of an earlier one, which makes 512 of them; then none is wanted any more.
#[test]
fn events_of_a_run_with_all_lemmas(rt: HostRuntime) -> Result<(), Fail> {
    let alloc = rt.alloc();
    let deeds = &[ONE_LATER_THEN_PROVE, END, END, END];
    let shown = shown_by(alloc, HOLDS, 0, deeds)?;
    let mut expected = String::from_str(alloc, "whole, closed, unproved: 0 claims 0,")?;
    for number in 0..512 {
        write!(&mut expected, " 0 has a lemma by 0, lemma {number},")?;
    }
    expected.push_str(" 0 proves 0, goal 0, 0 claims 2, 0 ends 2, 0 claims 3, 0 ends 3,")?;
    assert_eq!(&rt; shown.as_str(), expected.as_str());
    Ok(())
}
