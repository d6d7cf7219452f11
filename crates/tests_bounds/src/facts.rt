// Facts with a lemma for a claim, and facts with many hypotheses.

use crate::forms::{follows_at, form_of};
use std::alloc::{AllocError, Global};
use std::process::Abort;
use std::test::Fail;
use tcl_goals::{BitClause, BitLit, Claim, Lemma};

// The lemma that variable 0 is odd.
fn odd(alloc: Global) -> Result<Claim, AllocError> {
    let mut clause = BitClause::new(alloc);
    clause.push(BitLit {
        var: 0,
        bit: 0,
        value: true,
    })?;
    Ok(Claim::Lemma(Lemma { level: 0, clause }))
}

#[test]
fn lemmas_follow_from_the_empty_alone(rt: HostRuntime) -> Result<(), Fail> {
    let alloc = rt.alloc();
    let form = form_of(
        alloc,
        "in u8 a\npre rng a = 1@u8\npre rng a > 7@u8\nassert rng true\nend",
    )?;
    let from_one = follows_at(alloc, &form, odd(alloc)?, 2)?;
    assert!(&rt; !from_one, "a lemma does not follow");
    let from_both = follows_at(alloc, &form, odd(alloc)?, 3)?;
    assert!(&rt; from_both, "from an empty interval it does");
    Ok(())
}

// The program of many goals.
fn many(alloc: Global) -> Result<String, AllocError> {
    let mut text = String::new(alloc);
    text.push_str("in u64 a\nin u64 b\npre rng a < 1000@u64\n")?;
    for _ in 0..4096 {
        text.push_str("assert rng a <= 1000@u64 && b >= 0@u64\n")?;
    }
    text.push_str("end\n")?;
    Ok(text)
}

// Each of many goals from all goals before it.
#[test]
fn many_goals(rt: HostRuntime) -> Result<(), Fail> {
    let alloc = rt.alloc();
    let form = form_of(alloc, many(alloc)?.as_str())?;
    for goal in 0..4096u32 {
        let answer = follows_at(alloc, &form, Claim::Goal(goal), 3 + goal)?;
        assert!(&rt; answer, "goal {goal} follows");
    }
    Ok(())
}
