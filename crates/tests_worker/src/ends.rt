// What comes of pieces. Piece 2 * goal is that of the cut route, the next that of the whole route.

use crate::counter::Counter;
use crate::forms::form_of_text;
use crate::giving::given;
use crate::texts::text_of_given;
use std::alloc::Global;
use std::test::Fail;

const BOUNDED: &str = "in u32 x\npre rng x <= 3@u32\nassert rng x <= 4@u32\nend";

const WALKED: &str = "in u4 x\nassert rng x & x = x\nassert rng x < 15@u4\nend";

const SEARCHED: &str = "in u32 x\nin u32 y\nassert rng x & y = y & x\nend";

const SOUGHT: &str = "in u32 x\nin u32 y\npre rng x ^ y = 5@u32\nassert rng x & y = y & x\nend";

const REDUCED: &str = "in u32 x\nin u32 y\nassert alg x*y = y*x\nassert alg x*x = y*y\nend";

const LATER: &str = "in u32 x\nin u32 y\nassume alg x = y\nassert alg x*x = y*y\nend";

const BROKEN: &str =
    "in u32 x\nassert rng x <= 4294967294@u32\nassert rng x <= 4294967294@u32\nend";

const CARRIED: &str = "in u32 x\npre rng x <= 7@u32\nadd u32 y x 1@u32\nassert rng y <= 8@u32\nend";

const STRAYED: &str = "in u32 x\npre alg x*x = 4\nassert rng x = 2@u32\nend";

const MASKED: &str = "in u32 x\npre rng x & 4294967295@u32 <= 3@u32\nassert rng x <= 3@u32\nend";

// The program, the piece, whether more lemmas are wanted, the poll that cancels, the budget, and what comes.
const ENDS: &[(&str, u32, bool, u64, u32, &str)] = &[
    // By the intervals, without a poll.
    (
        BOUNDED,
        0,
        true,
        1,
        1000,
        "shown goal 0 by 1 lines, 0 polls",
    ),
    // By a walk of its 16 assignments where the budget is so great, else by clauses.
    (WALKED, 0, true, 1, 16, "shown goal 0 by 0 lines, 0 polls"),
    (WALKED, 0, false, 0, 15, "shown goal 0 by 0 lines, 1 polls"),
    // The walk of a cut piece ends with a model, that of a whole piece with a break.
    (WALKED, 2, true, 1, 16, "ended model, 0 polls"),
    (WALKED, 3, true, 1, 16, "shown break of goal 1: 15, 0 polls"),
    // By clauses, which are searched after one poll.
    (
        SEARCHED,
        0,
        false,
        0,
        1000,
        "shown goal 0 by 0 lines, 1 polls",
    ),
    (SEARCHED, 0, false, 1, 1000, "nothing, 1 polls"),
    (SEARCHED, 0, false, 0, 1, "ended steps 1, 1 polls"),
    (SEARCHED, 0, false, 0, 2, "ended steps 2, 1 polls"),
    // Each of the four candidates for lemmas is denied by a run, so none is searched.
    (
        SEARCHED,
        0,
        true,
        0,
        1000,
        "shown goal 0 by 0 lines, 1 polls",
    ),
    (SEARCHED, 0, true, 1, 1000, "nothing, 1 polls"),
    // No run that is tried meets the precondition: four candidates are searched before; each asks the port.
    (SOUGHT, 0, true, 0, 1000, "shown goal 0 by 1 lines, 5 polls"),
    (SOUGHT, 0, true, 1, 1000, "nothing, 1 polls"),
    (SOUGHT, 0, true, 2, 1000, "nothing, 2 polls"),
    // By reduction, after one poll. The break is the first trial input that refutes the goal.
    (
        REDUCED,
        0,
        true,
        0,
        1000,
        "shown goal 0 by 0 lines, 1 polls",
    ),
    (REDUCED, 0, true, 1, 1000, "nothing, 1 polls"),
    (REDUCED, 2, true, 0, 1000, "ended later, 1 polls"),
    (
        REDUCED,
        3,
        true,
        0,
        1000,
        "shown break of goal 1: 3449765985 602335547, 1 polls",
    ),
    // What reduction leaves waits.
    (LATER, 0, true, 0, 1000, "ended later, 1 polls"),
    (LATER, 1, true, 0, 1000, "ended later, 1 polls"),
    (LATER, 1, true, 1, 1000, "nothing, 1 polls"),
    // A model of the clauses of a cut piece, and a break by that of the whole one; later goals rest on earlier ones.
    (BROKEN, 0, false, 0, 1000, "ended model, 1 polls"),
    (
        BROKEN,
        1,
        false,
        0,
        1000,
        "shown break of goal 0: 4294967295, 1 polls",
    ),
    (
        BROKEN,
        3,
        false,
        0,
        1000,
        "shown goal 1 by 1 lines, 0 polls",
    ),
    // An exactness goal.
    (
        CARRIED,
        0,
        false,
        0,
        1000,
        "shown goal 0 by 1 lines, 0 polls",
    ),
    (
        CARRIED,
        1,
        false,
        0,
        1000,
        "shown goal 0 by 1 lines, 0 polls",
    ),
    // A model of a cut piece, and a stray at the precondition of the whole one.
    (STRAYED, 0, false, 0, 1000, "ended model, 1 polls"),
    (
        STRAYED,
        1,
        false,
        0,
        1000,
        "ended stray at line 1, no: 3, 1 polls",
    ),
    // The lemma that bit 31 of x is 0; without it where no more are wanted.
    (
        MASKED,
        0,
        true,
        0,
        1000,
        "given lemma of level 0: 0.31=0 by 1 lines, 1 polls",
    ),
    (
        MASKED,
        1,
        true,
        0,
        1000,
        "given lemma of level 0: 0.31=0 by 1 lines, 1 polls",
    ),
    (
        MASKED,
        0,
        false,
        0,
        1000,
        "shown goal 0 by 1 lines, 1 polls",
    ),
];

fn shown_of(
    alloc: Global,
    text: &str,
    piece: u32,
    more: bool,
    cancel_at: u64,
    budget: u32,
) -> Result<String, Fail> {
    let form = form_of_text(alloc, text)?;
    let mut port = Counter::new(cancel_at);
    let outcome = given(alloc, &form, piece, more, &mut port, budget)?;
    Ok(text_of_given(alloc, &outcome, &port)?)
}

#[test]
fn ends_of_pieces(rt: HostRuntime) -> Result<(), Fail> {
    let alloc = rt.alloc();
    let mut all = String::new(alloc);
    let mut wanted = String::new(alloc);
    for (text, piece, more, cancel_at, budget, expected) in ENDS {
        let shown = shown_of(alloc, text, *piece, *more, *cancel_at, *budget)?;
        write!(&mut all, "{}\n", shown.as_str())?;
        write!(&mut wanted, "{expected}\n")?;
    }
    assert_eq!(&rt; all.as_str(), wanted.as_str());
    Ok(())
}
