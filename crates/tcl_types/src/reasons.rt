// The reasons for which a line is ill-typed: a function for each, over the line and the types of the names so far.

ghost use Rattle.std.specs.Prelude.{◌≡◌};
ghost use Rattle.tcl_lang.specs.Line.{predicate_of};
ghost use Rattle.tcl_lang.specs.Typing as typing;

use crate::instruction::{
    all_sound_literals, allows, allows_amount, any_undefined, has_twice, operands_suit,
};
use crate::modulus::has_sound_modulus;
use crate::predicate::{agrees, has_sound_literals, uses_undefined};
use crate::table::Types;
use tcl_lang::{Line, Reason};

/// The first reason for which the line is ill-typed under these types of the names that earlier lines define, in the
/// order of the variants of `Reason`; each is looked for over the whole line. `None` where there is none.
#[tactic(auto, unfolding(tcl_lang::specs::Typing::reason_of))]
pub fn reason_at(types: &Types, line: &Line) -> Option<Reason>
    ensures { result ≡ typing.reason_of types.now line.now }
{
    if !is_kind_allowed(line) {
        Some(Reason::Kind)
    } else if !is_amount_allowed(line) {
        Some(Reason::Amount)
    } else if has_undefined(types, line) {
        Some(Reason::Undefined)
    } else if has_unsound_literal(line) {
        Some(Reason::Literal)
    } else if !types_agree(types, line) {
        Some(Reason::Mismatch)
    } else if repeats(types, line) {
        Some(Reason::Repeated)
    } else if !is_modulus_sound(line) {
        Some(Reason::Modulus)
    } else {
        None
    }
}

fn is_kind_allowed(line: &Line) -> bool
    ensures { result ≡ typing.allows_line line.now }
{
    match line {
        Line::Step(instr) => allows(instr.op, instr.ty),
        _ => true,
    }
}

fn is_amount_allowed(line: &Line) -> bool
    ensures { result ≡ typing.allows_line_amount line.now }
{
    match line {
        Line::Step(instr) => allows_amount(instr.op, instr.ty, instr.amount),
        _ => true,
    }
}

#[tactic(auto, using(crate::proofs::LineReasons::any_undefined_atom))]
fn has_undefined(types: &Types, line: &Line) -> bool
    ensures { result ≡ typing.has_undefined types.now line.now }
{
    match line.predicate() {
        Some(pred) => uses_undefined(types, pred),
        None => match line.instruction() {
            Some(instr) => any_undefined(types, instr.args.as_slice()),
            None => false,
        },
    }
}

fn has_unsound_literal(line: &Line) -> bool
    ensures { result ≡ typing.has_unsound_literal line.now }
{
    match line.predicate() {
        Some(pred) => !has_sound_literals(pred),
        None => match line.instruction() {
            Some(instr) => !all_sound_literals(instr.args.as_slice()),
            None => false,
        },
    }
}

fn types_agree(types: &Types, line: &Line) -> bool
    ensures { result ≡ typing.agrees_in_types types.now line.now }
{
    match line.predicate() {
        Some(pred) => agrees(types, pred),
        None => match line.instruction() {
            Some(instr) => operands_suit(types, instr),
            None => true,
        },
    }
}

fn repeats(types: &Types, line: &Line) -> bool
    ensures { result ≡ typing.repeats types.now line.now }
{
    match line {
        Line::Input(_, name) => types.type_of(*name).is_some(),
        Line::Step(instr) => has_twice(instr.outs.as_slice()),
        _ => false,
    }
}

fn is_modulus_sound(line: &Line) -> bool
    ensures { result ≡ typing.has_sound_modulus (predicate_of line.now) }
{
    match line.predicate() {
        Some(pred) => has_sound_modulus(pred),
        None => true,
    }
}
