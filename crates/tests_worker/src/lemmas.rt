// Runs of one worker in which lemmas are made.

use crate::forms::form_of_text;
use crate::job::{BUDGET, driven};
use std::test::Fail;
use tests_gate::text_of;

const MASKED: &str = "in u32 x\npre rng x & 4294967295@u32 <= 3@u32\nassert rng x <= 3@u32\nend";

const TWICE: &str =
    "in u32 x\npre rng x & 4294967295@u32 <= 3@u32\nassert rng x <= 3@u32\nassert rng x & 3@u32 = x\nend";

const OTHER: &str =
    "in u32 x\nin u32 y\npre rng x & y <= 3@u32\npre rng x & 2147483648@u32 = 0@u32\nassert rng y & x = x & y\nassert rng x | y = y | x\nend";

const RUNS: &[(&str, &str)] = &[
    // The lemma says that bit 31 of x is 0, and the proof cites it.
    (
        MASKED,
        "closed, verified: 0 claims 0, 0 has a lemma by 0, lemma 0, 0 proves 0, goal 0, 0 cites 0,",
    ),
    // The second goal makes none, as it is there already, and its proof cites that of the first.
    (
        TWICE,
        "closed, verified: 0 claims 0, 0 has a lemma by 0, lemma 0, 0 proves 0, goal 0, 0 claims 2, 0 proves 2, goal 1, 0 cites 0, 2 cites 0,",
    ),
    // The same where the claims have a variable of which nothing is known.
    (
        OTHER,
        "closed, verified: 0 claims 0, 0 has a lemma by 0, lemma 0, 0 proves 0, goal 0, 0 claims 2, 0 proves 2, goal 1, 0 cites 0, 2 cites 0,",
    ),
];

#[test]
fn runs_with_lemmas(rt: HostRuntime) -> Result<(), Fail> {
    let alloc = rt.alloc();
    let mut all = String::new(alloc);
    let mut wanted = String::new(alloc);
    for (text, expected) in RUNS {
        let board = driven(alloc, form_of_text(alloc, text)?)?;
        all.push_str(text_of(alloc, &board, BUDGET)?.as_str())?;
        all.push_str("\n")?;
        wanted.push_str(expected)?;
        wanted.push_str("\n")?;
    }
    assert_eq!(&rt; all.as_str(), wanted.as_str());
    Ok(())
}
