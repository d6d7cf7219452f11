// What an instruction asks of its type, its amount, its operands and its results.

ghost use Rattle.std.specs.Prelude.{◌≡◌};
ghost use Rattle.std.specs.List.{list_any, list_all};
ghost use Rattle.tcl_lang.specs.Types as types;
ghost use Rattle.tcl_lang.specs.Typing as typing;
ghost use Rattle.tcl_types.specs.Operands as operands;

use crate::number::is_in_type;
use crate::table::{BIT, Types, unsigned};
use tcl_lang::{Atom, Instr, Op, Ty};

/// Carries and borrows want an unsigned type, results of twice the width a width of at most 32.
pub(crate) fn allows(op: Op, ty: Ty) -> bool
    ensures { result ≡ typing.allows op ty }
{
    match op {
        Op::Adds | Op::Adcs | Op::Subb | Op::Sbbs => !ty.signed,
        Op::Mulj | Op::Join => ty.width <= 32,
        _ => true,
    }
}

/// A shift takes 0 to w - 1, a split 1 to w - 1.
pub(crate) fn allows_amount(op: Op, ty: Ty, amount: u32) -> bool
    ensures { result ≡ typing.allows_amount op ty amount }
{
    match op {
        Op::Shl => amount < ty.width,
        Op::Split => 0 < amount && amount < ty.width,
        _ => true,
    }
}

pub(crate) fn any_undefined(types: &Types, args: &[Atom]) -> bool
    ensures { result ≡ list_any (operands.is_undefined_atom types.now) args.now }
{
    args.iter().any(|atom| is_undefined(types, atom))
}

pub(crate) fn is_undefined(types: &Types, atom: &Atom) -> bool
    ensures { result ≡ operands.is_undefined_atom types.now atom.now }
{
    match atom {
        Atom::Var(name) => types.type_of(*name).is_none(),
        Atom::Lit(..) => false,
    }
}

pub(crate) fn all_sound_literals(args: &[Atom]) -> bool
    ensures { result ≡ list_all typing.is_sound_literal args.now }
{
    args.iter().all(|atom| is_sound_literal(atom))
}

pub(crate) fn is_sound_literal(atom: &Atom) -> bool
    ensures { result ≡ typing.is_sound_literal atom.now }
{
    match atom {
        Atom::Var(_) => true,
        Atom::Lit(ty, n) => is_in_type(*ty, *n),
    }
}

pub(crate) fn operands_suit(types: &Types, instr: &Instr) -> bool
    ensures { result ≡ typing.operands_suit types.now (typing.operand_types instr.now.op instr.now.ty) instr.now.args }
{
    let ty = Some(instr.ty);
    let bit = Some(BIT);
    let args = instr.args.as_slice();
    match instr.op {
        Op::Nondet | Op::Cast | Op::Vpc => true,
        Op::Mov | Op::Shl | Op::Split | Op::Not => all_suit(types, &[ty], args),
        Op::Adc | Op::Adcs | Op::Sbb | Op::Sbbs => all_suit(types, &[ty, ty, bit], args),
        Op::Join => all_suit(types, &[ty, Some(unsigned(instr.ty))], args),
        Op::Cmov => all_suit(types, &[bit, ty, ty], args),
        _ => all_suit(types, &[ty, ty], args),
    }
}

fn all_suit(types: &Types, wanted: &[Option<Ty>], args: &[Atom]) -> bool
    ensures { result ≡ typing.operands_suit types.now wanted.now args.now }
{
    for k in 0..wanted.len().min(args.len()) {
        if !suits(wanted[k], types.type_of_atom(&args[k])) {
            return false;
        }
    }
    true
}

/// Where no type is wanted any operand may stand.
fn suits(wanted: Option<Ty>, ty: Option<Ty>) -> bool
    ensures { result ≡ typing.suits wanted ty }
{
    match (wanted, ty) {
        (None, _) => true,
        (Some(_), None) => false,
        (Some(wanted), Some(ty)) => same_type(wanted, ty),
    }
}

pub(crate) fn same_type(left: Ty, right: Ty) -> bool
    ensures { result ≡ types.same_type left right }
{
    left.signed == right.signed && left.width == right.width
}

pub(crate) fn has_twice(names: &[u32]) -> bool
    ensures { result ≡ typing.has_twice names.now }
{
    for k in 0..names.len() {
        if names[k + 1..].contains(&names[k]) {
            return true;
        }
    }
    false
}
