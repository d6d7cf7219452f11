//! Steps of the board, and what it answers.

use crate::bench::Bench;
use crate::showing::{
    shown_break, shown_goal, shown_lemma, shown_lemma_citing, shown_lemma_with_cube,
};
use std::alloc::{AllocError, Global};
use tcl_board::{Admitted, Submitted};
use tcl_port::Poll;

// A step, with the number of its worker.
#[derive(Clone, Copy)]
pub(crate) enum Step {
    Claim(u32),
    Poll(u32),
    // the worker proves this goal, breaks it by its input, ends by the budget
    Prove(u32, u32),
    Break(u32, u32),
    End(u32),
    // a lemma of this level; one with a cube; one that cites the lemma of this number; a goal as a lemma
    Lemma(u32, u32),
    LemmaWithCube(u32, u32),
    LemmaCiting(u32, u32, u32),
    GoalAsLemma(u32, u32),
    AdmitGoal(u32),
    AdmitLemma(u32),
}

// What the board answers: that the step may not be asked for, or the answer of its call.
#[derive(Clone, Copy, PartialEq, Eq)]
pub(crate) enum Said {
    Nothing,
    Piece(u32),
    NoPiece,
    Go,
    Cancelled,
    Taken,
    NotHeld,
    Foreign,
    Full,
    Settled,
    Yes,
    No,
}

// The values that refute goals 1 and 2 of the program of the tests.
fn breaking_value(goal: u32) -> i128 {
    if goal == 1 { 3 } else { 2 }
}

fn said_of(answer: Option<Submitted>) -> Said {
    match answer {
        None => Said::Nothing,
        Some(Submitted::Taken) => Said::Taken,
        Some(Submitted::NotHeld) => Said::NotHeld,
        Some(Submitted::Foreign) => Said::Foreign,
        Some(Submitted::Full) => Said::Full,
        Some(Submitted::Settled) => Said::Settled,
    }
}

fn said_if(answer: bool) -> Said {
    if answer { Said::Yes } else { Said::No }
}

fn claimed(bench: &mut Bench, worker: u32) -> Said {
    match bench.claim(worker) {
        None => Said::Nothing,
        Some(None) => Said::NoPiece,
        Some(Some(piece)) => Said::Piece(piece),
    }
}

fn polled(bench: &mut Bench, worker: u32) -> Said {
    match bench.poll(worker) {
        None => Said::Nothing,
        Some(Poll::Go) => Said::Go,
        Some(Poll::Cancelled) => Said::Cancelled,
    }
}

fn proved(alloc: Global, bench: &mut Bench, worker: u32, goal: u32) -> Result<Said, AllocError> {
    let shown = shown_goal(alloc, bench.ssa(), goal)?;
    match shown {
        Some(witness) => Ok(said_of(bench.show(worker, witness))),
        None => Ok(Said::Nothing),
    }
}

fn broken(alloc: Global, bench: &mut Bench, worker: u32, goal: u32) -> Result<Said, AllocError> {
    let shown = shown_break(alloc, bench.ssa(), goal, breaking_value(goal))?;
    match shown {
        Some(witness) => Ok(said_of(bench.show(worker, witness))),
        None => Ok(Said::Nothing),
    }
}

fn lemma(alloc: Global, bench: &mut Bench, worker: u32, level: u32) -> Result<Said, AllocError> {
    let shown = shown_lemma(alloc, bench.ssa(), level)?;
    match shown {
        Some(witness) => Ok(said_of(bench.lemma(worker, witness))),
        None => Ok(Said::Nothing),
    }
}

fn lemma_with_cube(
    alloc: Global,
    bench: &mut Bench,
    worker: u32,
    level: u32,
) -> Result<Said, AllocError> {
    let shown = shown_lemma_with_cube(alloc, bench.ssa(), level)?;
    match shown {
        Some(witness) => Ok(said_of(bench.lemma(worker, witness))),
        None => Ok(Said::Nothing),
    }
}

fn lemma_citing(
    alloc: Global,
    bench: &mut Bench,
    worker: u32,
    level: u32,
    number: u32,
) -> Result<Said, AllocError> {
    let shown = shown_lemma_citing(alloc, bench.ssa(), level, number)?;
    match shown {
        Some(witness) => Ok(said_of(bench.lemma(worker, witness))),
        None => Ok(Said::Nothing),
    }
}

fn goal_as_lemma(
    alloc: Global,
    bench: &mut Bench,
    worker: u32,
    goal: u32,
) -> Result<Said, AllocError> {
    let shown = shown_goal(alloc, bench.ssa(), goal)?;
    match shown {
        Some(witness) => Ok(said_of(bench.lemma(worker, witness))),
        None => Ok(Said::Nothing),
    }
}

// What the board says to a step.
pub(crate) fn said_to(alloc: Global, bench: &mut Bench, step: Step) -> Result<Said, AllocError> {
    match step {
        Step::Claim(worker) => Ok(claimed(bench, worker)),
        Step::Poll(worker) => Ok(polled(bench, worker)),
        Step::Prove(worker, goal) => proved(alloc, bench, worker, goal),
        Step::Break(worker, goal) => broken(alloc, bench, worker, goal),
        Step::End(worker) => Ok(said_of(bench.end(worker))),
        Step::Lemma(worker, level) => lemma(alloc, bench, worker, level),
        Step::LemmaWithCube(worker, level) => lemma_with_cube(alloc, bench, worker, level),
        Step::LemmaCiting(worker, level, number) => lemma_citing(
            alloc, bench, worker, level, number,
        ),
        Step::GoalAsLemma(worker, goal) => goal_as_lemma(alloc, bench, worker, goal),
        Step::AdmitGoal(goal) => Ok(said_if(bench.admit(Admitted::Goal(goal)))),
        Step::AdmitLemma(number) => Ok(said_if(bench.admit(Admitted::Lemma(number)))),
    }
}
