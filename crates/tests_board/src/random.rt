// Random lists of steps against the plain model.

use crate::bench::Bench;
use crate::forms::form_of_text;
use crate::model::{Known, Model};
use crate::steps::{Step, said_to};
use crate::table::TEXT;
use std::alloc::Global;
use std::process::Abort;
use std::test::Fail;
use tcl_board::GoalAnswer;
use tcl_goals::{Cause, has_goal};

// The generator of Knuth's MMIX.
fn next(state: u64) -> u64 {
    state
        .wrapping_mul(6364136223846793005)
        .wrapping_add(1442695040888963407)
}

// A number below a bound that is not 0.
fn below(state: u64, bound: u32) -> u32 {
    if bound == 0 {
        return 0;
    }
    ((state >> 33) % bound as u64) as u32
}

// A step of one of three workers.
fn random_step(state: u64) -> Step {
    let worker = below(next(state), 3);
    let goal = below(next(next(state)), 4);
    let number = below(next(next(next(state))), 4);
    match below(state, 13) {
        0 | 1 => Step::Claim(worker),
        2 => Step::Poll(worker),
        3 => Step::Prove(worker, if goal < 2 { 0 } else { 3 }),
        4 | 5 => Step::Break(worker, if goal < 2 { 1 } else { 2 }),
        6 => Step::End(worker),
        7 => Step::Lemma(worker, goal),
        8 => Step::LemmaCiting(worker, goal, number),
        9 => Step::AdmitLemma(number),
        10 => Step::LemmaWithCube(worker, goal),
        11 => Step::GoalAsLemma(worker, 0),
        _ => Step::AdmitGoal(goal),
    }
}

// The goals whose line has this place in the program of the tests.
fn known_of(answer: GoalAnswer<'_>) -> Known {
    match answer {
        GoalAnswer::Proved => Known::Proved,
        GoalAnswer::Refuted(_) => Known::Refuted,
        GoalAnswer::Unproved(Cause::Steps(_)) => Known::Spent,
        GoalAnswer::Unproved(_) => Known::Open,
        GoalAnswer::Strayed(place, _) => Known::Strayed(place.saturating_sub(1)),
        GoalAnswer::Open => Known::Open,
    }
}

// The lemmas that are handed out for each piece.
fn compare_lemmas(
    rt: &impl Abort,
    alloc: Global,
    bench: &Bench,
    model: &Model,
) -> Result<(), Fail> {
    for piece in 0..8 {
        let count = match bench.lemmas_for(alloc, piece)? {
            Some(lemmas) => lemmas.items().len(),
            None => 512,
        };
        let usable = model.usable_lemmas(piece / 2) as usize;
        assert!(rt; count == usable, "the lemmas for piece {piece}");
    }
    Ok(())
}

fn compare(rt: &impl Abort, bench: &Bench, model: &Model) -> Result<(), Fail> {
    let board = bench.board();
    assert!(rt; board.verdict() == model.verdict(), "the verdict");
    assert!(rt;
        board.events().len() == model.events() as usize,
        "the number of events"
    );
    assert!(rt;
        board.lemma_count() as usize == model.lemma_count(),
        "the number of lemmas"
    );
    for goal in 0..4 {
        if has_goal(board.ssa().lines().as_slice(), goal) {
            let known = known_of(board.answer(goal));
            assert!(rt; known == model.known(goal), "goal {goal}");
        }
    }
    Ok(())
}

fn one_list(rt: &impl Abort, alloc: Global, bench: &mut Bench, seed: u64) -> Result<(), Fail> {
    let mut model = Model::begin(alloc, 4)?;
    let mut state = seed;
    for k in 0..24 {
        state = next(state);
        let step = random_step(state);
        let said = said_to(alloc, bench, step)?;
        let expected = model.said_to(step)?;
        assert!(rt; said == expected, "list {seed}, step {k}");
    }
    compare_lemmas(rt, alloc, bench, &model)?;
    compare(rt, bench, &model)
}

// The lists of these seeds.
fn lists(rt: &impl Abort, alloc: Global, first: u64, end: u64) -> Result<(), Fail> {
    let form = form_of_text(alloc, TEXT)?;
    for seed in first..end {
        let mut bench = Bench::begin(alloc, form.copy()?)?;
        one_list(rt, alloc, &mut bench, seed)?;
    }
    Ok(())
}

#[test]
fn random_lists_below_2000(rt: HostRuntime) -> Result<(), Fail> {
    lists(&rt, rt.alloc(), 0, 2000)
}

#[test]
fn random_lists_below_4000(rt: HostRuntime) -> Result<(), Fail> {
    lists(&rt, rt.alloc(), 2000, 4000)
}

#[test]
fn random_lists_below_6000(rt: HostRuntime) -> Result<(), Fail> {
    lists(&rt, rt.alloc(), 4000, 6000)
}

#[test]
fn random_lists_below_8000(rt: HostRuntime) -> Result<(), Fail> {
    lists(&rt, rt.alloc(), 6000, 8000)
}

#[test]
fn random_lists_below_10000(rt: HostRuntime) -> Result<(), Fail> {
    lists(&rt, rt.alloc(), 8000, 10000)
}
