//! A text that is printed.

ghost use Rattle.std.specs.Prelude.{◌≡◌, [], true, IfOk, codes, if◌then◌else◌, ◌++◌};
ghost use Rattle.std.specs.Fmt.{decimal, signed_decimal};
ghost use Rattle.tcl_text.specs.Canonical as canonical;
ghost use Rattle.tcl_report.specs.Growing.{Grows};

use crate::text::{Text, add, add_integer, add_number};
use std::alloc::{AllocError, Global};
use tcl_lang::{Atom, Names, Ty};

/// A text so far. Where memory has run out it is not whole, and nothing more is added.
#[derive(Drop)]
pub(crate) struct Printer {
    alloc: Global,
    text: Text,
    is_whole: bool,
}

/// A text of no bytes.
pub(crate) fn begin(alloc: Global) -> Printer
    ensures whole { result.is_whole ≡ true }
    ensures empty { result.text.items ≡ [] }
{
    Printer {
        alloc,
        text: Vec::new(alloc),
        is_whole: true,
    }
}

/// The bytes of a whole text.
pub(crate) fn finish(printer: Printer) -> Result<Text, AllocError>
    ensures whole { IfOk result (λ _. printer.is_whole ≡ true) }
    ensures text { IfOk result (λ text. text.items ≡ printer.text.items) }
{
    if printer.is_whole {
        Ok(printer.text)
    } else {
        Err(AllocError)
    }
}

/// Prints bytes.
pub(crate) fn print(printer: &mut Printer, bytes: &[u8])
    ensures { Grows printer.old bytes.now printer.new }
{
    if printer.is_whole {
        printer.is_whole = add(&mut printer.text, bytes).is_ok();
    }
}

/// Prints a number in decimal.
pub(crate) fn print_number(printer: &mut Printer, n: u64)
    ensures { Grows printer.old (decimal n) printer.new }
{
    if printer.is_whole {
        printer.is_whole = add_number(printer.alloc, &mut printer.text, n).is_ok();
    }
}

/// Prints an integer in decimal.
pub(crate) fn print_integer(printer: &mut Printer, n: &i128)
    ensures { Grows printer.old (signed_decimal n.now) printer.new }
{
    if printer.is_whole {
        printer.is_whole = add_integer(printer.alloc, &mut printer.text, n).is_ok();
    }
}

/// Prints a bracket where a tree is looser than its place.
#[tactic(auto, using(crate::proofs::Growing::unchanged))]
pub(crate) fn print_bracket(printer: &mut Printer, code: u8, own: u32, place: u32)
    ensures { Grows printer.old (canonical.bracket code own place) printer.new }
{
    if own > place {
        print(printer, &[code]);
    }
}

/// Prints the name of this number.
#[tactic(auto, using(crate::proofs::Growing::unchanged))]
pub(crate) fn print_name(printer: &mut Printer, names: &Names, name: u32)
    ensures { Grows printer.old (canonical.name_text names.now name) printer.new }
{
    match names.as_slice().get(name as usize) {
        Some(bytes) => print(printer, bytes.as_slice()),
        None => (),
    }
}

/// The letter of a type.
fn sign_of(ty: Ty) -> u8
    ensures { result ≡ if ty.signed then 115 else 117 }
{
    if ty.signed { b's' } else { b'u' }
}

/// Prints a type.
#[tactic(auto, using(crate::proofs::Growing::further))]
pub(crate) fn print_type(printer: &mut Printer, ty: Ty)
    ensures { Grows printer.old (canonical.type_text ty) printer.new }
{
    print(printer, &[sign_of(ty)]);
    print_number(printer, ty.width as u64);
}

/// Prints a literal.
#[tactic(auto, using(crate::proofs::Growing::further))]
fn print_literal(printer: &mut Printer, ty: Ty, n: &i128)
    ensures { Grows printer.old (signed_decimal n.now ++ (codes "@" ++ canonical.type_text ty)) printer.new }
{
    print_integer(printer, n);
    print(printer, b"@");
    print_type(printer, ty);
}

/// Prints an operand.
pub(crate) fn print_atom(printer: &mut Printer, names: &Names, atom: &Atom)
    ensures { Grows printer.old (canonical.atom_text names.now atom.now) printer.new }
{
    match atom {
        Atom::Var(name) => print_name(printer, names, *name),
        Atom::Lit(ty, n) => print_literal(printer, *ty, n),
    }
}
