//! The canonical text of a program.

ghost use Rattle.std.specs.Prelude.{◌≡◌, IfOk};
ghost use Rattle.tcl_text.specs.Canonical as canonical;
ghost use Rattle.tcl_report.specs.Parts as part_words;
ghost use Rattle.tcl_report.specs.Growing.{Grows};
ghost use Rattle.tcl_report.specs.Readable.{IsReadable, ReadsAs};

use crate::line::print_line;
use crate::printer::{Printer, begin, finish, print};
use crate::text::Text;
use std::alloc::{AllocError, Global};
use tcl_lang::{Line, Lines, Names, Program};

/// Prints a line with its end.
#[tactic(auto, using(crate::proofs::Growing::further))]
fn print_ended_line(printer: &mut Printer, names: &Names, line: &Line)
    ensures { Grows printer.old (part_words.ended_line names.now line.now) printer.new }
{
    print_line(printer, names, line);
    print(printer, b"\n");
}

/// Prints the lines, each with its end.
#[tactic(auto, using(crate::proofs::Growing::none, crate::proofs::Growing::more, crate::proofs::Growing::all))]
fn print_lines(printer: &mut Printer, names: &Names, lines: &Lines)
    ensures { Grows printer.old (part_words.lines_text names.now lines.now) printer.new }
{
    for line in lines.as_slice() {
        print_ended_line(printer, names, line);
    }
}

/// Prints the lines and `end`.
#[tactic(auto, using(crate::proofs::Growing::further))]
fn print_program(printer: &mut Printer, program: &Program)
    ensures { Grows printer.old (canonical.canonical_text program.now) printer.new }
{
    print_lines(printer, program.names(), program.lines());
    print(printer, b"end\n");
}

/// The lines and `end`.
fn lines_and_end(alloc: Global, program: &Program) -> Result<Text, AllocError>
    ensures { IfOk result (λ text. text.items ≡ canonical.canonical_text program.now) }
{
    let mut printer = begin(alloc);
    print_program(&mut printer, program);
    finish(printer)
}

/// The canonical text of a program that some text reads as: each line with one space between its words, brackets exactly
/// where the reading without them would give another tree or none, and `end`; every line ends with a line feed. It reads
/// as the same program.
#[tactic(auto, using(crate::proofs::Readback::readable_text))]
pub fn program_text(alloc: Global, program: &Program) -> Result<Vec<u8>, AllocError>
    requires { IsReadable program.now }
    ensures text { IfOk result (λ text. text.items ≡ canonical.canonical_text program.now) }
    ensures reads { IfOk result (λ text. ReadsAs text.items program.now) }
{
    let text = lines_and_end(alloc, program)?;
    Ok(text)
}
