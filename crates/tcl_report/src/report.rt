//! The text of a report.

ghost use Rattle.std.specs.Prelude.{◌≡◌, ◌++◌, [], ◌∷◌, true, IfOk, codes};
ghost use Rattle.tcl_lang.specs.Versions.{form_of};
ghost use Rattle.tcl_goals.specs.Places.{goals_of, has_goal};
ghost use Rattle.tcl_board.specs.Finished.{IsFinished};
ghost use Rattle.tcl_board.specs.Told as told;
ghost use Rattle.tcl_report.specs.Growing.{Grows};
ghost use Rattle.tcl_report.specs.Report as report_words;
ghost use Rattle.tcl_report.specs.ReportSays.{IsReport};

use crate::causes::{print_cause, print_stray};
use crate::inputs::{number_at, print_input};
use crate::printer::{Printer, begin, finish, print, print_number};
use std::alloc::{AllocError, Global};
use tcl_board::{Board, Evidence, GoalAnswer};
use tcl_goals::{Cause, Goal, Goals, Kind, Verdict, goals};
use tcl_lang::Typed;

/// The word of a goal's kind.
fn word_of_kind(kind: Kind) -> &'static str
    ensures { result.now ≡ report_words.word_of_kind kind }
{
    match kind {
        Kind::Exact => "exact",
        Kind::Assert => "assert",
        Kind::Cut => "cut",
        Kind::Post => "post",
    }
}

/// The word of a verdict.
fn word_of_verdict(verdict: Verdict) -> &'static str
    ensures { result.now ≡ report_words.word_of_verdict verdict }
{
    match verdict {
        Verdict::Verified => "verified",
        Verdict::Refuted => "refuted",
        Verdict::Unproved => "unproved",
    }
}

/// Prints what follows the kind on a goal's line, and the lines of an input that belongs to it.
#[tactic(auto, using(crate::proofs::Growing::further, crate::proofs::Growing::unchanged))]
fn print_answer(printer: &mut Printer, typed: &Typed, answer: GoalAnswer<'_>)
    ensures { Grows printer.old (report_words.answer_text typed.now (told.told answer.entry)) printer.new }
{
    match answer {
        GoalAnswer::Proved => print(printer, b"proved\n"),
        GoalAnswer::Refuted(input) => print_refuted(printer, typed, input.as_slice()),
        GoalAnswer::Unproved(cause) => print_unproved(printer, typed, cause),
        GoalAnswer::Strayed(place, input) => {
            print_strayed(printer, typed, place, input.as_slice());
        }
        GoalAnswer::Open => (),
    }
}

/// Prints the words of an unproved goal.
#[tactic(auto, using(crate::proofs::Growing::further))]
fn print_unproved(printer: &mut Printer, typed: &Typed, cause: &Cause)
    ensures { Grows printer.old (codes "unproved " ++ report_words.cause_text typed.now cause.now) printer.new }
{
    print(printer, b"unproved ");
    print_cause(printer, typed, cause);
}

/// Prints the words of a goal that is unproved by an input which refutes the goal of this place.
#[tactic(auto, using(crate::proofs::Growing::further))]
fn print_strayed(printer: &mut Printer, typed: &Typed, place: u32, input: &[i128])
    ensures { Grows printer.old (codes "unproved " ++ report_words.stray_text typed.now place input.now) printer.new }
{
    print(printer, b"unproved ");
    print_stray(printer, typed, place, input);
}

/// Prints the word of a refuted goal and the input that refutes it.
#[tactic(auto, using(crate::proofs::Growing::further))]
fn print_refuted(printer: &mut Printer, typed: &Typed, input: &[i128])
    ensures { Grows printer.old ((codes "refuted" ++ (10 ∷ [] ++ report_words.input_text typed.now input.now))) printer.new }
{
    print(printer, b"refuted");
    print(printer, b"\n");
    print_input(printer, typed, input);
}

/// Prints the beginning of the line of a goal.
#[tactic(auto, using(crate::proofs::Growing::further))]
fn print_head(printer: &mut Printer, typed: &Typed, goal: &Goal)
    ensures { Grows printer.old (report_words.goal_head typed.now goal.now) printer.new }
{
    print(printer, b"goal ");
    print_number(printer, goal.number as u64);
    print(printer, b" line ");
    print_number(printer, number_at(typed, goal.place as usize));
    print(printer, b" ");
}

/// Prints the line of a goal by what the board tells of it.
#[tactic(auto, using(crate::proofs::Growing::further))]
fn print_goal<E: Evidence>(printer: &mut Printer, typed: &Typed, board: &Board<E>, goal: &Goal)
    requires { has_goal board.now.program.lines goal.now.number ≡ true }
    ensures { Grows printer.old (report_words.goal_text typed.now goal.now (told.answer_of board.now goal.now.number)) printer.new }
{
    print_head(printer, typed, goal);
    print(printer, word_of_kind(goal.kind).as_bytes());
    print(printer, b" ");
    print_answer(printer, typed, board.answer(goal.number));
}

/// Prints the lines of all goals.
#[tactic(auto, using(crate::proofs::Growing::start, crate::proofs::ReportLemmas::goals_more, crate::proofs::GoalLemmas::goal_there))]
fn print_goals<E: Evidence>(printer: &mut Printer, typed: &Typed, board: &Board<E>, goals: &Goals)
    requires { goals.now ≡ goals_of board.now.program.lines }
    ensures { Grows printer.old (report_words.goals_text typed.now board.now goals.now) printer.new }
{
    for k in 0..goals.len() {
        print_goal(printer, typed, board, goals.at(k));
    }
}

/// Prints the lines of all goals and the verdict.
#[tactic(auto, using(crate::proofs::Growing::further), unfolding(crate::specs::Report::report_of))]
fn print_report<E: Evidence>(printer: &mut Printer, typed: &Typed, board: &Board<E>, goals: &Goals)
    requires goals { goals.now ≡ goals_of board.now.program.lines }
    requires lines { goals.now ≡ goals_of typed.now.program.lines }
    ensures { Grows printer.old (report_words.report_of typed.now board.now) printer.new }
{
    print_goals(printer, typed, board, goals);
    print(printer, word_of_verdict(board.verdict()).as_bytes());
    print(printer, b"\n");
}

/// The lines of all goals and the verdict.
fn lines_and_verdict<E: Evidence>(
    alloc: Global,
    typed: &Typed,
    board: &Board<E>,
    goals: &Goals,
) -> Result<Vec<u8>, AllocError>
    requires goals { goals.now ≡ goals_of board.now.program.lines }
    requires lines { goals.now ≡ goals_of typed.now.program.lines }
    ensures { IfOk result (λ text. text.items ≡ report_words.report_of typed.now board.now) }
{
    let mut printer = begin(alloc);
    print_report(&mut printer, typed, board, goals);
    finish(printer)
}

/// The text of the report by what the board tells.
fn told_text<E: Evidence>(
    alloc: Global,
    typed: &Typed,
    board: &Board<E>,
) -> Result<Vec<u8>, AllocError>
    requires { board.now.program ≡ form_of typed.now.program }
    ensures { IfOk result (λ text. text.items ≡ report_words.report_of typed.now board.now) }
{
    let list = goals(alloc, board.ssa())?;
    let text = lines_and_verdict(alloc, typed, board, &list)?;
    Ok(text)
}

/// The text of the report on a program by a board of its versioned form, on which nothing is left to do.
///
/// It has one line for each goal in order: its number from 0, the line of the text on which it stands, its kind, and what the
/// board tells of it. The lines of the input follow a refuted goal and a stray, one for each value in the order of the lines
/// that take them. The last line is the verdict. Every line ends with a line feed. The only error is that memory has run out.
pub fn report_text<E: Evidence>(
    alloc: Global,
    typed: &Typed,
    board: &Board<E>,
) -> Result<Vec<u8>, AllocError>
    requires finished { IsFinished board.now.position }
    requires program { board.now.program ≡ form_of typed.now.program }
    ensures text { IfOk result (λ text. text.items ≡ report_words.report_of typed.now board.now) }
    ensures report { IfOk result (λ text. IsReport E.causes typed.now board.now text.items) }
{
    board.known();
    board.apart();
    board.finished_has_causes();
    let text = told_text(alloc, typed, board)?;
    Ok(text)
}
