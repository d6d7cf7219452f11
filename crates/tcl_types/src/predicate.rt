// What is asked of a predicate: that its names are defined, its literals lie within their types, and its sides agree.

ghost use Rattle.std.specs.Prelude.{◌≡◌};
ghost use Rattle.std.specs.List.{list_any, list_all};
ghost use Rattle.tcl_lang.specs.Names as names;
ghost use Rattle.tcl_lang.specs.Typing as typing;
ghost use Rattle.tcl_types.specs.Operands as operands;

use crate::instruction::{is_sound_literal, is_undefined, same_type};
use crate::table::Types;
use tcl_lang::{Pred, RngPred, RngTerm, Term, Ty};

#[tactic(auto, using(crate::proofs::LineReasons::any_undefined_atom))]
pub(crate) fn uses_undefined(types: &Types, pred: &Pred) -> bool
    ensures { result ≡ list_any (operands.is_undefined types.now) (names.predicate_names pred.now) }
{
    match pred {
        Pred::Alg(pred) => {
            term_uses_undefined(types, &pred.left) || term_uses_undefined(types, &pred.right)
        }
        Pred::Rng(pred) => range_uses_undefined(types, pred),
    }
}

fn term_uses_undefined(types: &Types, term: &Term) -> bool
    ensures { result ≡ list_any (operands.is_undefined types.now) (names.term_names term.now) }
{
    match term {
        Term::Var(name) => types.type_of(*name).is_none(),
        Term::Num(_) => false,
        Term::Neg(inner) => term_uses_undefined(types, inner.get()),
        Term::Pow(base, _) => term_uses_undefined(types, base.get()),
        Term::Add(left, right) | Term::Sub(left, right) | Term::Mul(left, right) => {
            term_uses_undefined(types, left.get()) || term_uses_undefined(types, right.get())
        }
    }
}

fn range_uses_undefined(types: &Types, pred: &RngPred) -> bool
    ensures { result ≡ list_any (operands.is_undefined_atom types.now) (names.range_atoms pred.now) }
{
    match pred {
        RngPred::True | RngPred::False => false,
        RngPred::Cmp(_, left, right) => {
            word_uses_undefined(types, left) || word_uses_undefined(types, right)
        }
        RngPred::Not(inner) => range_uses_undefined(types, inner.get()),
        RngPred::Both(left, right) | RngPred::Either(left, right) => {
            range_uses_undefined(types, left.get()) || range_uses_undefined(types, right.get())
        }
    }
}

fn word_uses_undefined(types: &Types, term: &RngTerm) -> bool
    ensures { result ≡ list_any (operands.is_undefined_atom types.now) (names.term_atoms term.now) }
{
    match term {
        RngTerm::Leaf(atom) => is_undefined(types, atom),
        RngTerm::Neg(inner) | RngTerm::Flip(inner) | RngTerm::Cast(_, inner) => {
            word_uses_undefined(types, inner.get())
        }
        RngTerm::Bin(_, left, right) => {
            word_uses_undefined(types, left.get()) || word_uses_undefined(types, right.get())
        }
    }
}

pub(crate) fn has_sound_literals(pred: &Pred) -> bool
    ensures { result ≡ list_all typing.is_sound_literal (names.predicate_atoms pred.now) }
{
    match pred {
        Pred::Alg(_) => true,
        Pred::Rng(pred) => range_has_sound_literals(pred),
    }
}

fn range_has_sound_literals(pred: &RngPred) -> bool
    ensures { result ≡ list_all typing.is_sound_literal (names.range_atoms pred.now) }
{
    match pred {
        RngPred::True | RngPred::False => true,
        RngPred::Cmp(_, left, right) => {
            word_has_sound_literals(left) && word_has_sound_literals(right)
        }
        RngPred::Not(inner) => range_has_sound_literals(inner.get()),
        RngPred::Both(left, right) | RngPred::Either(left, right) => {
            range_has_sound_literals(left.get()) && range_has_sound_literals(right.get())
        }
    }
}

fn word_has_sound_literals(term: &RngTerm) -> bool
    ensures { result ≡ list_all typing.is_sound_literal (names.term_atoms term.now) }
{
    match term {
        RngTerm::Leaf(atom) => is_sound_literal(atom),
        RngTerm::Neg(inner) | RngTerm::Flip(inner) | RngTerm::Cast(_, inner) => {
            word_has_sound_literals(inner.get())
        }
        RngTerm::Bin(_, left, right) => {
            word_has_sound_literals(left.get()) && word_has_sound_literals(right.get())
        }
    }
}

pub(crate) fn agrees(types: &Types, pred: &Pred) -> bool
    ensures { result ≡ typing.predicate_agrees types.now pred.now }
{
    match pred {
        Pred::Alg(_) => true,
        Pred::Rng(pred) => sides_agree(types, pred),
    }
}

fn sides_agree(types: &Types, pred: &RngPred) -> bool
    ensures { result ≡ typing.sides_agree types.now pred.now }
{
    match pred {
        RngPred::True | RngPred::False => true,
        RngPred::Cmp(_, left, right) => {
            common_type(range_type(types, left), range_type(types, right)).is_some()
        }
        RngPred::Not(inner) => sides_agree(types, inner.get()),
        RngPred::Both(left, right) | RngPred::Either(left, right) => {
            sides_agree(types, left.get()) && sides_agree(types, right.get())
        }
    }
}

/// The type of a term, where the sides of each operator in it agree.
fn range_type(types: &Types, term: &RngTerm) -> Option<Ty>
    ensures { result ≡ typing.range_type types.now term.now }
{
    match term {
        RngTerm::Leaf(atom) => types.type_of_atom(atom),
        RngTerm::Neg(inner) | RngTerm::Flip(inner) => range_type(types, inner.get()),
        RngTerm::Bin(_, left, right) => {
            common_type(
                range_type(types, left.get()),
                range_type(types, right.get()),
            )
        }
        RngTerm::Cast(ty, inner) => match range_type(types, inner.get()) {
            Some(_) => Some(*ty),
            None => None,
        },
    }
}

fn common_type(left: Option<Ty>, right: Option<Ty>) -> Option<Ty>
    ensures { result ≡ typing.common_type left right }
{
    match (left, right) {
        (Some(left), Some(right)) if same_type(left, right) => Some(left),
        _ => None,
    }
}
