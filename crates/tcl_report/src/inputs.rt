//! The lines of an input in a report.

ghost use Rattle.std.specs.Prelude.{◌≡◌, ◌<◌, ◌++◌, ◌+◌, ◌^◌, [], cond, pos, slice_index, slice_index_or};
ghost use Rattle.tcl_report.specs.Growing.{Grows};
ghost use Rattle.tcl_report.specs.Report as report_words;

use crate::printer::{Printer, print, print_integer, print_number};
use tcl_lang::{Line, Names, Typed};

/// The bytes of name `n`, none past the last name.
fn name_at(names: &Names, n: u32) -> &[u8]
    ensures { result.now ≡ slice_index_or names.now n [] }
{
    match names.as_slice().get(n as usize) {
        Some(name) => name.as_slice(),
        None => &[],
    }
}

/// The line number of place `k`.
pub(crate) fn number_at(typed: &Typed, k: usize) -> u64
    ensures { result ≡ slice_index typed.now.places k }
{
    match typed.places().as_slice().get(k) {
        Some(number) => *number,
        None => 0,
    }
}

/// Value `j` of an input, 0 past its end.
fn value_at(input: &[i128], j: usize) -> i128
    ensures { result ≡ slice_index_or input.now j (pos 0) }
{
    match input.get(j) {
        Some(value) => *value,
        None => 0,
    }
}

/// The count with one more, where there is one more.
fn counted(n: usize, more: bool) -> usize
    requires { n < 2 ^ 32 }
    ensures { result ≡ n + cond more 1 0 }
{
    if more { n + 1 } else { n }
}

/// Prints the beginning of the line of a value.
#[tactic(auto, using(crate::proofs::Growing::further))]
fn print_head(printer: &mut Printer, is_in: bool, number: u64)
    ensures { Grows printer.old (report_words.value_head is_in number) printer.new }
{
    if is_in {
        print(printer, b"in ");
    } else {
        print(printer, b"nondet ");
        print_number(printer, number);
        print(printer, b" ");
    }
}

/// Prints the line of one value, under the name to which it is given.
#[tactic(auto, using(crate::proofs::Growing::further, crate::proofs::Growing::unchanged))]
fn print_named(
    printer: &mut Printer,
    names: &Names,
    is_in: bool,
    number: u64,
    value: i128,
    name: Option<u32>,
)
    ensures { Grows printer.old (report_words.named_text is_in names.now number value name) printer.new }
{
    match name {
        None => (),
        Some(name) => {
            print_head(printer, is_in, number);
            print(printer, name_at(names, name));
            print(printer, b" ");
            print_integer(printer, &value);
            print(printer, b"\n");
        }
    }
}

/// Prints the line of the value that the line of place `k` takes, which is value `j` of the input.
fn print_taken(
    printer: &mut Printer,
    typed: &Typed,
    input: &[i128],
    k: usize,
    j: usize,
    line: &Line,
)
    ensures { Grows printer.old (report_words.taken_text typed.now.program.names (slice_index typed.now.places k) (slice_index_or input.now j (pos 0)) line.now) printer.new }
{
    print_named(
        printer,
        typed.program().names(),
        line.is_input(),
        number_at(typed, k),
        value_at(input, j),
        line.taken_name(),
    )
}

/// Prints the lines of an input, one for each value in the order of the lines that take them.
#[tactic(auto, using(crate::proofs::Growing::start, crate::proofs::ReportLemmas::values_more, crate::proofs::ReportLemmas::count_more))]
pub(crate) fn print_input(printer: &mut Printer, typed: &Typed, input: &[i128])
    ensures { Grows printer.old (report_words.input_text typed.now input.now) printer.new }
{
    let lines = typed.program().lines();
    let mut j = 0;
    for k in 0..lines.len() {
        let line = lines.at(k);
        print_taken(printer, typed, input, k, j, line);
        j = counted(j, line.taken_name().is_some());
    }
}
