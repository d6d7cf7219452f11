// The circuits of range terms: their parts from left to right, inner first.

ghost use Rattle.std.specs.Prelude.{◌≡◌, ◌+◌, ◌/◌, ◌≤◌, ◌<◌, IfOk, OnOk, OnErr, length};
ghost use Rattle.tcl_gates.specs.Meaning.{AreWithin, IsPart};
ghost use Rattle.tcl_lang.specs.Values.{types_of};
ghost use Rattle.tcl_words.specs.Ranges.{AllWithin, combined_lits, term_lits};

use crate::operands::{TypedWord, operand, still_within};
use crate::words::Words;
use std::alloc::{AllocError, Global};
use tcl_circuits::{
    Lits, adder, bitwise_and, bitwise_or, bitwise_xor, difference, extend, negated_word, negation,
    product,
};
use tcl_cnf::Lit;
use tcl_gates::Gates;
use tcl_lang::{RngOp, RngTerm, Variables};

/// Two words by an operator.
#[tactic(auto, using(tcl_gates::proofs::Shown::part_none))]
fn combine(
    alloc: Global,
    gates: &mut Gates,
    op: RngOp,
    a: &Lits,
    b: &Lits,
) -> Result<Lits, AllocError>
    requires first { AreWithin (length gates.old) a.now }
    requires second { AreWithin (length gates.old) b.now }
    ensures made { OnOk result (gates.new ≡ (combined_lits gates.old op a.now b.now).gates) }
    ensures word { IfOk result (λ word. word ≡ (combined_lits gates.old op a.now b.now).word) }
    ensures within { IfOk result (λ word. AreWithin (length gates.new) word) }
    ensures longer { OnOk result (length gates.old ≤ length gates.new) }
    ensures part { OnErr result (IsPart gates.old gates.new (combined_lits gates.old op a.now b.now).gates) }
{
    match op {
        RngOp::Add => {
            let sum = adder(alloc, gates, a, b, Lit::from_number(1))?;
            Ok(sum.word)
        }
        RngOp::Sub => {
            let sum = difference(alloc, gates, a, b, Lit::from_number(1))?;
            Ok(sum.word)
        }
        RngOp::And => bitwise_and(alloc, gates, a, b),
        RngOp::Xor => bitwise_xor(alloc, gates, a, b),
        RngOp::Mul => product(alloc, gates, a, b),
        RngOp::Or => bitwise_or(alloc, gates, a, b),
    }
}

/// The word of a range term: its parts from left to right, inner first.
#[tactic(auto, using(tcl_gates::proofs::Shown::part_none, tcl_gates::proofs::Shown::within_negated, tcl_circuits::proofs::Within::within_extended, crate::proofs::Parts::all_within_grown))]
pub(crate) fn range_term(
    alloc: Global,
    gates: &mut Gates,
    words: &Words,
    variables: &Variables,
    term: &RngTerm,
) -> Result<TypedWord, AllocError>
    requires { AllWithin (length gates.old) words.now }
    ensures made { OnOk result (gates.new ≡ (term_lits words.now (types_of variables.now) term.now gates.old).gates) }
    ensures word { IfOk result (λ t. t.word ≡ (term_lits words.now (types_of variables.now) term.now gates.old).word) }
    ensures ty { IfOk result (λ t. t.ty ≡ (term_lits words.now (types_of variables.now) term.now gates.old).ty) }
    ensures within { IfOk result (λ t. AreWithin (length gates.new) t.word) }
    ensures longer { OnOk result (length gates.old ≤ length gates.new) }
    ensures part { OnErr result (IsPart gates.old gates.new (term_lits words.now (types_of variables.now) term.now gates.old).gates) }
{
    match term {
        RngTerm::Leaf(atom) => operand(alloc, gates, words, variables, *atom),
        RngTerm::Neg(inner) => {
            let TypedWord { word, ty } = range_term(alloc, gates, words, variables, inner.get())?;
            Ok(TypedWord {
                word: negation(alloc, gates, &word)?,
                ty,
            })
        }
        RngTerm::Flip(inner) => {
            let TypedWord { word, ty } = range_term(alloc, gates, words, variables, inner.get())?;
            Ok(TypedWord {
                word: negated_word(alloc, &word)?,
                ty,
            })
        }
        RngTerm::Bin(op, left, right) => {
            let count = gates.len();
            let first = range_term(alloc, gates, words, variables, left.get())?;
            still_within(words, count, gates);
            let second = range_term(alloc, gates, words, variables, right.get())?;
            Ok(TypedWord {
                word: combine(alloc, gates, *op, &first.word, &second.word)?,
                ty: first.ty,
            })
        }
        RngTerm::Cast(to, inner) => {
            let TypedWord { word, ty } = range_term(alloc, gates, words, variables, inner.get())?;
            Ok(TypedWord {
                word: extend(alloc, &word, ty.signed, to.width)?,
                ty: *to,
            })
        }
    }
}
