//! The causes of unproved goals in a report.

ghost use Rattle.std.specs.Prelude.{◌≡◌, ◌++◌, [], ◌∷◌, codes};
ghost use Rattle.std.specs.Fmt.{decimal};
ghost use Rattle.tcl_report.specs.Growing.{Grows};
ghost use Rattle.tcl_report.specs.Report as report_words;

use crate::inputs::{number_at, print_input};
use crate::printer::{Printer, print, print_number};
use tcl_goals::{At, Cause, What};
use tcl_lang::Typed;

/// The word of what passed its stated size.
fn word_of_what(what: What) -> &'static str
    ensures { result.now ≡ report_words.word_of_what what }
{
    match what {
        What::Clauses => "clauses ",
        What::Degree => "degree ",
        What::Terms => "terms ",
    }
}

/// Prints where numbers became too great: the claim, or a line by its number in the text.
#[tactic(auto, using(crate::proofs::Growing::further))]
fn print_at(printer: &mut Printer, typed: &Typed, at: At)
    ensures { Grows printer.old (report_words.at_text typed.now at) printer.new }
{
    match at {
        At::Claim => print(printer, b"claim"),
        At::Line(place) => {
            print(printer, b"line ");
            print_number(printer, number_at(typed, place as usize));
        }
    }
}

/// Prints a number and the end of the line.
#[tactic(auto, using(crate::proofs::Growing::further))]
fn print_last(printer: &mut Printer, number: u64)
    ensures { Grows printer.old (decimal number ++ 10 ∷ []) printer.new }
{
    print_number(printer, number);
    print(printer, b"\n");
}

/// Prints the spent budget.
#[tactic(auto, using(crate::proofs::Growing::further))]
fn print_steps(printer: &mut Printer, count: u32)
    ensures { Grows printer.old ((codes "steps " ++ (decimal count ++ 10 ∷ []))) printer.new }
{
    print(printer, b"steps ");
    print_last(printer, count as u64);
}

/// Prints where numbers became too great.
#[tactic(auto, using(crate::proofs::Growing::further))]
fn print_width(printer: &mut Printer, typed: &Typed, at: At)
    ensures { Grows printer.old ((codes "width " ++ (report_words.at_text typed.now at ++ 10 ∷ []))) printer.new }
{
    print(printer, b"width ");
    print_at(printer, typed, at);
    print(printer, b"\n");
}

/// Prints a size that passed its limit.
#[tactic(auto, using(crate::proofs::Growing::further))]
fn print_size(printer: &mut Printer, what: What, count: u32)
    ensures { Grows printer.old ((codes "size " ++ (report_words.word_of_what what ++ (decimal count ++ 10 ∷ [])))) printer.new }
{
    print(printer, b"size ");
    print(printer, word_of_what(what).as_bytes());
    print_last(printer, count as u64);
}

/// Prints the line of a stray, and the lines of its input.
#[tactic(auto, using(crate::proofs::Growing::further))]
pub(crate) fn print_stray(printer: &mut Printer, typed: &Typed, place: u32, input: &[i128])
    ensures { Grows printer.old (report_words.stray_text typed.now place input.now) printer.new }
{
    print(printer, b"stray ");
    print_last(printer, number_at(typed, place as usize));
    print_input(printer, typed, input);
}

/// Prints a cause to its line, and the lines of an input that belongs to it.
pub(crate) fn print_cause(printer: &mut Printer, typed: &Typed, cause: &Cause)
    ensures { Grows printer.old (report_words.cause_text typed.now cause.now) printer.new }
{
    match cause {
        Cause::Model => print(printer, b"model\n"),
        Cause::Steps(count) => print_steps(printer, *count),
        Cause::Width(at) => print_width(printer, typed, *at),
        Cause::Size(what, count) => print_size(printer, *what, *count),
        Cause::Rest(_, _) => print(printer, b"open\n"),
        Cause::Stray(place, _, input) => print_stray(printer, typed, *place, input.as_slice()),
        Cause::Later => print(printer, b"later\n"),
    }
}
