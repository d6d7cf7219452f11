//! Range terms and predicates.

ghost use Rattle.std.specs.Prelude.{◌≡◌, ◌++◌};
ghost use Rattle.tcl_text.specs.Canonical as canonical;
ghost use Rattle.tcl_report.specs.Parts as part_words;
ghost use Rattle.tcl_report.specs.Growing.{Grows};

use crate::printer::{Printer, print, print_atom, print_bracket, print_type};
use tcl_lang::{Atom, CmpOp, Names, RngOp, RngPred, RngTerm, Ty};

/// The loosest place at which an operand stands without brackets.
fn atom_place(atom: &Atom) -> u32
    ensures { result ≡ canonical.atom_place atom.now }
{
    match atom {
        Atom::Var(_) => 0,
        Atom::Lit(_, n) => { if *n < 0 { 0 } else { 1 } }
    }
}

/// The loosest place at which an operator stands without brackets.
fn operator_place(op: RngOp) -> u32
    ensures { result ≡ canonical.operator_place op }
{
    match op {
        RngOp::Mul => 3,
        RngOp::Add => 4,
        RngOp::Sub => 4,
        RngOp::And => 5,
        RngOp::Xor => 6,
        RngOp::Or => 7,
    }
}

/// The place of its right side.
fn right_place(op: RngOp) -> u32
    ensures { result ≡ canonical.right_place op }
{
    match op {
        RngOp::Mul => 2,
        RngOp::Add => 3,
        RngOp::Sub => 3,
        RngOp::And => 4,
        RngOp::Xor => 5,
        RngOp::Or => 6,
    }
}

/// An operator between its sides.
fn operator_text(op: RngOp) -> &'static str
    ensures { result.now ≡ canonical.operator_text op }
{
    match op {
        RngOp::Add => " + ",
        RngOp::Sub => " - ",
        RngOp::Mul => " * ",
        RngOp::And => " & ",
        RngOp::Or => " | ",
        RngOp::Xor => " ^ ",
    }
}

/// A comparison between its sides.
fn comparison_text(op: CmpOp) -> &'static str
    ensures { result.now ≡ canonical.comparison_text op }
{
    match op {
        CmpOp::Eq => " = ",
        CmpOp::Ne => " != ",
        CmpOp::Lt => " < ",
        CmpOp::Le => " <= ",
        CmpOp::Gt => " > ",
        CmpOp::Ge => " >= ",
    }
}

/// Prints an operand that stands at this place.
#[tactic(auto, using(crate::proofs::Growing::further))]
fn print_leaf(printer: &mut Printer, names: &Names, atom: &Atom, place: u32)
    ensures { Grows printer.old (part_words.leaf_text names.now atom.now place) printer.new }
{
    print_bracket(printer, b'(', atom_place(atom), place);
    print_atom(printer, names, atom);
    print_bracket(printer, b')', atom_place(atom), place);
}

/// Prints the beginning of a cast.
#[tactic(auto, using(crate::proofs::Growing::further))]
fn print_cast(printer: &mut Printer, ty: Ty)
    ensures { Grows printer.old (part_words.cast_text ty) printer.new }
{
    print(printer, b"cast(");
    print_type(printer, ty);
    print(printer, b", ");
}

/// Prints a range term that stands at this place.
#[tactic(auto, using(crate::proofs::Growing::further))]
fn print_range_term(term: &RngTerm, names: &Names, place: u32, printer: &mut Printer)
    ensures { Grows printer.old (canonical.range_term_text names.now term.now place) printer.new }
{
    match term {
        RngTerm::Leaf(atom) => print_leaf(printer, names, atom, place),
        RngTerm::Neg(inner) => {
            print_bracket(printer, b'(', 2, place);
            print(printer, b"-");
            print_range_term(inner.get(), names, 0, printer);
            print_bracket(printer, b')', 2, place);
        }
        RngTerm::Flip(inner) => {
            print_bracket(printer, b'(', 2, place);
            print(printer, b"~");
            print_range_term(inner.get(), names, 1, printer);
            print_bracket(printer, b')', 2, place);
        }
        RngTerm::Bin(op, left, right) => {
            print_bracket(printer, b'(', operator_place(*op), place);
            print_range_term(left.get(), names, operator_place(*op), printer);
            print(printer, operator_text(*op).as_bytes());
            print_range_term(right.get(), names, right_place(*op), printer);
            print_bracket(printer, b')', operator_place(*op), place);
        }
        RngTerm::Cast(ty, inner) => {
            print_cast(printer, *ty);
            print_range_term(inner.get(), names, 7, printer);
            print(printer, b")");
        }
    }
}

/// Prints a range predicate that stands at this place.
#[tactic(auto, using(crate::proofs::Growing::further))]
pub(crate) fn print_range_pred(pred: &RngPred, names: &Names, place: u32, printer: &mut Printer)
    ensures { Grows printer.old (part_words.range_pred_text names.now pred.now place) printer.new }
{
    match pred {
        RngPred::True => print(printer, b"true"),
        RngPred::False => print(printer, b"false"),
        RngPred::Cmp(op, left, right) => {
            print_range_term(left, names, 7, printer);
            print(printer, comparison_text(*op).as_bytes());
            print_range_term(right, names, 7, printer);
        }
        RngPred::Not(inner) => {
            print_bracket(printer, b'[', 1, place);
            print(printer, b"!");
            print_range_pred(inner.get(), names, 0, printer);
            print_bracket(printer, b']', 1, place);
        }
        RngPred::Both(left, right) => {
            print_bracket(printer, b'[', 2, place);
            print_range_pred(left.get(), names, 2, printer);
            print(printer, b" && ");
            print_range_pred(right.get(), names, 1, printer);
            print_bracket(printer, b']', 2, place);
        }
        RngPred::Either(left, right) => {
            print_bracket(printer, b'[', 3, place);
            print_range_pred(left.get(), names, 3, printer);
            print(printer, b" || ");
            print_range_pred(right.get(), names, 2, printer);
            print_bracket(printer, b']', 3, place);
        }
    }
}
