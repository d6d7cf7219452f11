// Operands: the literals and the type of a variable or of a literal number.

ghost use Rattle.std.specs.Prelude.{◌≡◌, ◌≤◌, ◌<◌, IfOk, length, slice_index_or, [], false};
ghost use Rattle.tcl_gates.specs.Meaning.{AreWithin};
ghost use Rattle.tcl_lang.specs.Values.{types_of};
ghost use Rattle.tcl_words.specs.Ranges.{AllWithin, atom_lits, atom_ty};
ghost use Rattle.tcl_words.specs.Steps.{operand_lits, operand_ty};

use crate::words::Words;
use std::alloc::{AllocError, Global};
use tcl_circuits::{Lits, constant, low_part};
use tcl_gates::Gates;
use tcl_lang::{Args, Atom, Ty, Variables};

/// A word with its type.
#[derive(Drop)]
pub(crate) struct TypedWord {
    pub(crate) word: Lits,
    pub(crate) ty: Ty,
}

/// The literals of a variable, and none where there is no such variable.
#[tactic(auto, using(tcl_circuits::proofs::Within::take_own))]
fn variable(alloc: Global, words: &Words, name: u32) -> Result<Lits, AllocError>
    ensures { IfOk result (λ word. word ≡ slice_index_or words.now name []) }
{
    let name = name as usize;
    if name < words.len() {
        let word = words.at(name);
        low_part(alloc, word, word.len())
    } else {
        Ok(Lits::new(alloc))
    }
}

/// The type of a variable, and one of no bits where there is no such variable.
#[tactic(auto, using(crate::proofs::Parts::type_found, crate::proofs::Parts::type_past))]
pub(crate) fn type_of(variables: &Variables, name: u32) -> Ty
    ensures { result ≡ slice_index_or (types_of variables.now) name (record { signed = false; width = 0 }) }
{
    let name = name as usize;
    if name < variables.len() {
        variables.at(name).ty
    } else {
        Ty {
            signed: false,
            width: 0,
        }
    }
}

/// Literals of fewer gates are of more of them too.
pub(crate) fn still_within(words: &Words, count: usize, gates: &Gates)
    requires within { AllWithin count words.now }
    requires fewer { count ≤ length gates.now }
    ensures { AllWithin (length gates.now) words.now }
{
    let _ = words;
    let _ = gates;
}

/// The word and the type of an operand: literals that are there, or known bits.
#[tactic(auto, using(crate::proofs::Parts::all_within_or, tcl_circuits::proofs::Within::constant_within))]
pub(crate) fn operand(
    alloc: Global,
    gates: &Gates,
    words: &Words,
    variables: &Variables,
    atom: Atom,
) -> Result<TypedWord, AllocError>
    requires { AllWithin (length gates.now) words.now }
    ensures word { IfOk result (λ t. t.word ≡ atom_lits words.now atom) }
    ensures ty { IfOk result (λ t. t.ty ≡ atom_ty (types_of variables.now) atom) }
    ensures within { IfOk result (λ t. AreWithin (length gates.now) t.word) }
{
    match atom {
        Atom::Var(name) => Ok(TypedWord {
            word: variable(alloc, words, name)?,
            ty: type_of(variables, name),
        }),
        Atom::Lit(ty, n) => Ok(TypedWord {
            word: constant(alloc, ty.width, n)?,
            ty,
        }),
    }
}

/// Operand k of an instruction, and a word of no bits where it has fewer.
#[tactic(auto, using(crate::proofs::Parts::operand_found, crate::proofs::Parts::operand_past, crate::proofs::Parts::operand_ty_found, crate::proofs::Parts::operand_ty_past, tcl_gates::proofs::Shown::within_none))]
pub(crate) fn operand_at(
    alloc: Global,
    gates: &Gates,
    words: &Words,
    variables: &Variables,
    args: &Args,
    k: usize,
) -> Result<TypedWord, AllocError>
    requires { AllWithin (length gates.now) words.now }
    ensures word { IfOk result (λ t. t.word ≡ operand_lits words.now args.now k) }
    ensures ty { IfOk result (λ t. t.ty ≡ operand_ty variables.now args.now k) }
    ensures within { IfOk result (λ t. AreWithin (length gates.now) t.word) }
{
    if k < args.len() {
        let operand = operand(alloc, gates, words, variables, *args.at(k))?;
        Ok(operand)
    } else {
        let ty = Ty {
            signed: false,
            width: 0,
        };
        Ok(TypedWord {
            word: Lits::new(alloc),
            ty,
        })
    }
}
