//! Looking up what is kept.

ghost use Rattle.std.specs.Prelude.{◌≡◌, ◌<◌, ◌≤◌, ◌+◌, ◌^◌, ◌++◌, [], nat_lt, All, map, slice_get, length, option_copied, IfOk, IfSome, OnOk};
ghost use Rattle.std.specs.Option.{option_map};
ghost use Rattle.tcl_goals.specs.LemmaList.{next_number};
ghost use Rattle.tcl_lang.specs.Program.{VersionedProgram};
ghost use Rattle.tcl_board.specs.Judging.{Speaks, OutcomeSpeaks};
ghost use Rattle.tcl_board.specs.Own as own;
ghost use Rattle.tcl_board.specs.Told as told;
ghost use Rattle.tcl_board.specs.Sight.{seen_of};

use crate::event::{LemmaMark, Status};
use crate::evidence::{Evidence, Outcome};
use crate::judging::admitted_lemma;
use crate::told::GoalAnswer;
use std::alloc::{AllocError, Global};
use tcl_goals::{Lemma, Lemmas, Shown, goal_place};
use tcl_lang::{Input, Line};

/// The evidence that is kept under a number.
#[tactic(auto, using(crate::proofs::OwnLemmas::get_map))]
pub(crate) fn evidence<E: Evidence>(kept: &[Outcome<E>], number: u32) -> Option<&E>
    ensures seen { option_map (told.evident_of E.shows E.cited) (option_copied result) ≡ told.evident_in (slice_get (map (seen_of E.shows E.cited) kept.now) number) }
    ensures speaks { (p : VersionedProgram) → All (OutcomeSpeaks p E.program E.alone) kept.now → IfSome (option_copied result) (λ e. Speaks p (E.program e) (E.alone e)) }
{
    match kept.get(number as usize) {
        Some(Outcome::Shown(evidence)) => Some(evidence),
        Some(Outcome::Lemma(evidence)) => Some(evidence),
        _ => None,
    }
}

/// The number of what a piece is proved by.
pub(crate) fn proved_by(statuses: &[Status], piece: u32) -> Option<u32>
    ensures { result ≡ told.proved_by (slice_get statuses.now piece) }
{
    match statuses.get(piece as usize) {
        Some(Status::Proved(number)) => Some(*number),
        _ => None,
    }
}

/// The number of the recorded break of a goal.
pub(crate) fn broken_by(breaks: &[Option<u32>], goal: u32) -> Option<u32>
    ensures { result ≡ told.broken_by (slice_get breaks.now goal) }
{
    match breaks.get(goal as usize) {
        Some(number) => *number,
        None => None,
    }
}

/// The number of what is kept of a lemma.
pub(crate) fn marked_by(marks: &[LemmaMark], number: u32) -> Option<u32>
    ensures { result ≡ told.marked_by (slice_get marks.now number) }
{
    match marks.get(number as usize) {
        Some(mark) => Some(mark.kept),
        None => None,
    }
}

/// The input that is shown.
pub(crate) fn input_of(shown: &Shown) -> Option<&Input>
    ensures { option_copied result ≡ told.input_of shown.now }
{
    match shown {
        Shown::Breaks(_, input) => Some(input),
        Shown::Fact(_) => None,
    }
}

/// The input of the evidence that is kept under a number.
fn kept_input<E: Evidence>(kept: &[Outcome<E>], number: u32) -> Option<&Input>
    ensures { option_copied result ≡ told.input_in (told.evident_in (slice_get (map (seen_of E.shows E.cited) kept.now) number)) }
{
    match evidence(kept, number) {
        Some(evidence) => input_of(evidence.shown()),
        None => None,
    }
}

/// The answer of a cause that is kept under a number.
#[tactic(auto, using(crate::proofs::OwnLemmas::get_map))]
fn cause_in<E: Evidence>(kept: &[Outcome<E>], number: u32) -> GoalAnswer<'_>
    ensures { told.told result ≡ told.cause_in (slice_get (map (seen_of E.shows E.cited) kept.now) number) }
{
    match kept.get(number as usize) {
        Some(Outcome::Ended(cause)) => GoalAnswer::Unproved(cause),
        _ => GoalAnswer::Open,
    }
}

/// The answer of a break of a smaller goal, whose place is given.
fn stray_in<'a>(place: u32, input: Option<&'a Input>) -> GoalAnswer<'a>
    ensures { told.told result ≡ told.stray_in place (option_copied input.entry) }
{
    match input {
        Some(input) => GoalAnswer::Strayed(place, input),
        None => GoalAnswer::Open,
    }
}

/// The answer of a piece with a cause.
pub(crate) fn answer_by<'a, E: Evidence>(
    lines: &[Line],
    kept: &'a [Outcome<E>],
    statuses: &[Status],
    piece: u32,
) -> GoalAnswer<'a>
    requires { length lines.now < 2 ^ 32 }
    ensures { told.told result ≡ told.answer_by lines.now (map (seen_of E.shows E.cited) kept.now) (slice_get statuses.now piece) }
{
    match statuses.get(piece as usize) {
        Some(Status::Ended(number)) => cause_in(kept, *number),
        Some(Status::Strayed(goal, number)) => stray_in(
            goal_place(lines, *goal) as u32,
            kept_input(kept, *number),
        ),
        _ => GoalAnswer::Open,
    }
}

/// The admitted lemma of a number where its level is at most the goal.
fn fitting<'a, E: Evidence>(
    marks: &[LemmaMark],
    kept: &'a [Outcome<E>],
    number: u32,
    goal: u32,
) -> Option<&'a Lemma>
    ensures { option_copied result ≡ own.fitting goal (own.marked_lemma (map (seen_of E.shows E.cited) kept.now) (slice_get marks.now number)) }
{
    match admitted_lemma(marks, kept, number) {
        Some(lemma) => if lemma.level <= goal {
            Some(lemma)
        } else {
            None
        },
        None => None,
    }
}

/// Adds a lemma under a number, if there is one.
#[tactic(auto, using(crate::proofs::Knowing::next_more))]
fn push(lemmas: &mut Lemmas, number: u32, lemma: Option<&Lemma>) -> Result<(), AllocError>
    requires { next_number lemmas.old.items ≤ number }
    ensures pushed { OnOk result (lemmas.new.items ≡ lemmas.old.items ++ own.with_number number (option_copied lemma.entry) []) }
    ensures next { OnOk result (next_number lemmas.new.items ≤ number + 1) }
    ensures more { OnOk result (lemmas.new.more ≡ lemmas.old.more) }
{
    match lemma {
        Some(lemma) => lemmas.push(number, lemma.copy()?),
        None => Ok(()),
    }
}

/// The admitted lemmas whose level is at most the goal, and the mark whether more may be submitted.
pub(crate) fn lemmas_up_to<E: Evidence>(
    alloc: Global,
    marks: &[LemmaMark],
    kept: &[Outcome<E>],
    goal: u32,
) -> Result<Lemmas, AllocError>
    requires { length marks.now < 2 ^ 32 }
    ensures { IfOk result (λ lemmas. lemmas ≡ record { items = own.fitting_from goal 0 (map (seen_of E.shows E.cited) kept.now) marks.now; more = nat_lt (length marks.now) 512 }) }
{
    let mut lemmas = Lemmas::new(alloc);
    for number in 0..marks.len() {
        push(
            &mut lemmas,
            number as u32,
            fitting(marks, kept, number as u32, goal),
        )?;
    }
    lemmas.set_more(marks.len() < 512);
    Ok(lemmas)
}
