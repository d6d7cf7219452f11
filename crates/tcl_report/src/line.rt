//! Lines.

ghost use Rattle.std.specs.Prelude.{◌≡◌, ◌++◌, codes};
ghost use Rattle.tcl_text.specs.Canonical as canonical;
ghost use Rattle.tcl_report.specs.Parts as part_words;
ghost use Rattle.tcl_report.specs.Growing.{Grows};
ghost use Rattle.tcl_text.specs.Words as words;

use crate::printer::{Printer, print, print_atom, print_name, print_number, print_type};
use crate::range::print_range_pred;
use crate::term::{print_modulus, print_term};
use tcl_lang::{AlgPred, Atom, Instr, Line, Names, Pred, RngPred, Ty};
use tcl_text::{has_amount, word_of_op};

/// Prints an algebraic predicate.
#[tactic(auto, using(crate::proofs::Growing::further))]
fn print_equation(printer: &mut Printer, names: &Names, pred: &AlgPred)
    ensures { Grows printer.old (part_words.equation_text names.now pred.now) printer.new }
{
    print_term(&pred.left, names, 4, printer);
    print(printer, b" = ");
    print_term(&pred.right, names, 4, printer);
    print_modulus(printer, &pred.modulus);
}

/// Prints a range predicate behind its word.
#[tactic(auto, using(crate::proofs::Growing::further))]
fn print_ranges(printer: &mut Printer, names: &Names, pred: &RngPred)
    ensures { Grows printer.old (codes "rng " ++ canonical.range_pred_text names.now pred.now) printer.new }
{
    print(printer, b"rng ");
    print_range_pred(pred, names, 3, printer);
}

/// Prints an algebraic predicate behind its word.
#[tactic(auto, using(crate::proofs::Growing::further))]
fn print_algebra(printer: &mut Printer, names: &Names, pred: &AlgPred)
    ensures { Grows printer.old (codes "alg " ++ part_words.equation_text names.now pred.now) printer.new }
{
    print(printer, b"alg ");
    print_equation(printer, names, pred);
}

/// Prints a predicate.
fn print_predicate(printer: &mut Printer, names: &Names, pred: &Pred)
    ensures { Grows printer.old (canonical.predicate_text names.now pred.now) printer.new }
{
    match pred {
        Pred::Rng(pred) => print_ranges(printer, names, pred),
        Pred::Alg(pred) => print_algebra(printer, names, pred),
    }
}

/// Prints a name behind a space.
#[tactic(auto, using(crate::proofs::Growing::further))]
fn print_spaced_name(printer: &mut Printer, names: &Names, name: u32)
    ensures { Grows printer.old (part_words.spaced_name names.now name) printer.new }
{
    print(printer, b" ");
    print_name(printer, names, name);
}

/// Prints names, each behind a space.
#[tactic(auto, using(crate::proofs::Growing::none, crate::proofs::Growing::more, crate::proofs::Growing::all))]
fn print_names(printer: &mut Printer, names: &Names, outs: &[u32])
    ensures { Grows printer.old (part_words.names_text names.now outs.now) printer.new }
{
    for name in outs {
        print_spaced_name(printer, names, *name);
    }
}

/// Prints an operand behind a space.
#[tactic(auto, using(crate::proofs::Growing::further))]
fn print_spaced_atom(printer: &mut Printer, names: &Names, atom: &Atom)
    ensures { Grows printer.old (part_words.spaced_atom names.now atom.now) printer.new }
{
    print(printer, b" ");
    print_atom(printer, names, atom);
}

/// Prints operands, each behind a space.
#[tactic(auto, using(crate::proofs::Growing::none, crate::proofs::Growing::more, crate::proofs::Growing::all))]
fn print_atoms(printer: &mut Printer, names: &Names, atoms: &[Atom])
    ensures { Grows printer.old (part_words.atoms_text names.now atoms.now) printer.new }
{
    for atom in atoms {
        print_spaced_atom(printer, names, atom);
    }
}

/// Prints the amount of an instruction that has one.
#[tactic(auto, using(crate::proofs::Growing::further, crate::proofs::Growing::unchanged))]
fn print_amount(printer: &mut Printer, has: bool, n: u32)
    ensures { Grows printer.old (canonical.amount_text has n) printer.new }
{
    if has {
        print(printer, b" ");
        print_number(printer, n as u64);
    }
}

/// Prints an instruction.
#[tactic(auto, using(crate::proofs::Growing::further))]
fn print_instruction(printer: &mut Printer, names: &Names, instr: &Instr)
    ensures { Grows printer.old (canonical.instruction_text names.now instr.now) printer.new }
{
    print(printer, word_of_op(instr.op).as_bytes());
    print(printer, b" ");
    print_type(printer, instr.ty);
    print_names(printer, names, instr.outs.as_slice());
    print_atoms(printer, names, instr.args.as_slice());
    print_amount(printer, has_amount(instr.op), instr.amount);
}

/// Prints the line of a name that is given.
#[tactic(auto, using(crate::proofs::Growing::further))]
fn print_given(printer: &mut Printer, names: &Names, ty: Ty, name: u32)
    ensures { Grows printer.old (codes "in " ++ (canonical.type_text ty ++ (codes " " ++ canonical.name_text names.now name))) printer.new }
{
    print(printer, b"in ");
    print_type(printer, ty);
    print(printer, b" ");
    print_name(printer, names, name);
}

/// Prints a line of this word and a predicate.
#[tactic(auto, using(crate::proofs::Growing::further))]
fn print_stated(printer: &mut Printer, names: &Names, word: &[u8], pred: &Pred)
    ensures { Grows printer.old (word.now ++ canonical.predicate_text names.now pred.now) printer.new }
{
    print(printer, word);
    print_predicate(printer, names, pred);
}

/// Prints a line without its end.
pub(crate) fn print_line(printer: &mut Printer, names: &Names, line: &Line)
    ensures { Grows printer.old (canonical.line_text names.now line.now) printer.new }
{
    match line {
        Line::Input(ty, name) => print_given(printer, names, *ty, *name),
        Line::Step(instr) => print_instruction(printer, names, instr),
        Line::Pre(pred) => print_stated(printer, names, b"pre ", pred),
        Line::Assert(pred) => print_stated(printer, names, b"assert ", pred),
        Line::Assume(pred) => print_stated(printer, names, b"assume ", pred),
        Line::Cut(pred) => print_stated(printer, names, b"cut ", pred),
        Line::Post(pred) => print_stated(printer, names, b"post ", pred),
    }
}
