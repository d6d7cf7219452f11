//! Algebraic terms and moduli.

ghost use Rattle.std.specs.Prelude.{◌≡◌, ◌++◌, Some};
ghost use Rattle.tcl_text.specs.Canonical as canonical;
ghost use Rattle.tcl_report.specs.Parts as part_words;
ghost use Rattle.tcl_report.specs.Growing.{Grows};

use crate::printer::{Printer, print, print_bracket, print_integer, print_name, print_number};
use tcl_lang::{Modulus, Names, Part, Term};

/// Prints a term that stands at this place.
#[tactic(auto, using(crate::proofs::Growing::further))]
pub(crate) fn print_term(term: &Term, names: &Names, place: u32, printer: &mut Printer)
    ensures { Grows printer.old (canonical.term_text names.now term.now place) printer.new }
{
    match term {
        Term::Var(name) => print_name(printer, names, *name),
        Term::Num(n) => print_integer(printer, n),
        Term::Neg(inner) => {
            print_bracket(printer, b'(', 2, place);
            print(printer, b"-");
            print_term(inner.get(), names, 1, printer);
            print_bracket(printer, b')', 2, place);
        }
        Term::Add(left, right) => {
            print_bracket(printer, b'(', 4, place);
            print_term(left.get(), names, 4, printer);
            print(printer, b" + ");
            print_term(right.get(), names, 3, printer);
            print_bracket(printer, b')', 4, place);
        }
        Term::Sub(left, right) => {
            print_bracket(printer, b'(', 4, place);
            print_term(left.get(), names, 4, printer);
            print(printer, b" - ");
            print_term(right.get(), names, 3, printer);
            print_bracket(printer, b')', 4, place);
        }
        Term::Mul(left, right) => {
            print_bracket(printer, b'(', 3, place);
            print_term(left.get(), names, 3, printer);
            print(printer, b" * ");
            print_term(right.get(), names, 2, printer);
            print_bracket(printer, b')', 3, place);
        }
        Term::Pow(base, power) => {
            print_bracket(printer, b'(', 1, place);
            print_term(base.get(), names, 0, printer);
            print_exponent(printer, *power, place);
        }
    }
}

/// Prints the exponent of a power that stands at this place.
#[tactic(auto, using(crate::proofs::Growing::further))]
fn print_exponent(printer: &mut Printer, power: u32, place: u32)
    ensures { Grows printer.old (part_words.exponent_text power place) printer.new }
{
    print(printer, b"**");
    print_number(printer, power as u64);
    print_bracket(printer, b')', 1, place);
}

/// Prints the exponent of a part of a modulus, if it has one.
#[tactic(auto, using(crate::proofs::Growing::further, crate::proofs::Growing::unchanged))]
fn print_power(printer: &mut Printer, power: Option<u32>)
    ensures { Grows printer.old (canonical.power_text power) printer.new }
{
    match power {
        None => (),
        Some(k) => {
            print(printer, b"**");
            print_number(printer, k as u64);
        }
    }
}

/// Prints a part of a modulus without its sign.
#[tactic(auto, using(crate::proofs::Growing::further))]
fn print_part(printer: &mut Printer, part: &Part)
    ensures { Grows printer.old (canonical.part_text part.now) printer.new }
{
    print_integer(printer, &part.base);
    print_power(printer, part.power);
}

/// Prints a part with its sign as an operator.
#[tactic(auto, using(crate::proofs::Growing::further))]
fn print_more_part(printer: &mut Printer, part: &Part)
    ensures { Grows printer.old (part_words.signed_part_text part.now) printer.new }
{
    print(printer, if part.minus { b" - " } else { b" + " });
    print_part(printer, part);
}

/// Prints the parts behind the first one.
#[tactic(auto, using(crate::proofs::Growing::none, crate::proofs::Growing::more, crate::proofs::Growing::all))]
fn print_more_parts(printer: &mut Printer, parts: &[Part])
    ensures { Grows printer.old (part_words.signed_parts_text parts.now) printer.new }
{
    for part in parts {
        print_more_part(printer, part);
    }
}

/// Prints a modulus, if there is one.
#[tactic(auto, using(crate::proofs::Growing::further, crate::proofs::Growing::unchanged))]
pub(crate) fn print_modulus(printer: &mut Printer, modulus: &Option<Modulus>)
    ensures { Grows printer.old (canonical.modulus_text modulus.now) printer.new }
{
    match modulus {
        None => (),
        Some(parts) => print_parts(printer, parts.as_slice()),
    }
}

/// Prints the parts of a modulus.
#[tactic(auto, using(crate::proofs::Growing::further, crate::proofs::Growing::unchanged))]
fn print_parts(printer: &mut Printer, parts: &[Part])
    ensures { Grows printer.old (canonical.modulus_text (Some parts.now)) printer.new }
{
    match parts {
        [] => (),
        [first, others @ ..] => {
            print(printer, b" mod ");
            print_part(printer, first);
            print_more_parts(printer, others);
        }
    }
}
