// The circuits of range predicates: their parts from left to right, inner first.

ghost use Rattle.std.specs.Prelude.{◌≡◌, ◌+◌, ◌/◌, ◌≤◌, ◌<◌, IfOk, OnOk, OnErr, length};
ghost use Rattle.tcl_cnf.specs.Literal.{neg};
ghost use Rattle.tcl_gates.specs.Gates.{IsBelow};
ghost use Rattle.tcl_gates.specs.Meaning.{AreWithin, IsPart};
ghost use Rattle.tcl_circuits.specs.Circuits.{wire};
ghost use Rattle.tcl_lang.specs.Values.{types_of};
ghost use Rattle.tcl_words.specs.Ranges.{AllWithin, compared_lits, both_sides, term_lits, and_lit, or_lit, pred_lit};

use crate::operands::{TypedWord, still_within};
use crate::terms::range_term;
use crate::words::Words;
use std::alloc::{AllocError, Global};
use tcl_circuits::{Lits, equal, less};
use tcl_cnf::Lit;
use tcl_gates::{Gate, Gates};
use tcl_lang::{CmpOp, RngPred, RngTerm, Variables};

/// The literal of the same variable with the other sign.
#[tactic(auto, using(tcl_gates::proofs::Shown::neg_variable))]
fn not(l: Lit) -> Lit
    ensures value { result ≡ neg l }
    ensures variable { result / 2 ≡ l / 2 }
{
    l.negation()
}

/// A comparison of two words of one type.
#[tactic(auto, using(tcl_gates::proofs::Shown::part_none))]
fn compare(
    alloc: Global,
    gates: &mut Gates,
    op: CmpOp,
    signed: bool,
    a: &Lits,
    b: &Lits,
) -> Result<Lit, AllocError>
    requires first { AreWithin (length gates.old) a.now }
    requires second { AreWithin (length gates.old) b.now }
    ensures made { OnOk result (gates.new ≡ (compared_lits gates.old op signed a.now b.now).gates) }
    ensures lit { IfOk result (λ lit. lit ≡ (compared_lits gates.old op signed a.now b.now).lit) }
    ensures within { IfOk result (λ lit. lit / 2 ≤ length gates.new) }
    ensures longer { OnOk result (length gates.old ≤ length gates.new) }
    ensures part { OnErr result (IsPart gates.old gates.new (compared_lits gates.old op signed a.now b.now).gates) }
{
    match op {
        CmpOp::Eq => equal(gates, a, b),
        CmpOp::Ne => {
            let lit = equal(gates, a, b)?;
            Ok(not(lit))
        }
        CmpOp::Lt => less(alloc, gates, signed, a, b),
        CmpOp::Le => {
            let lit = less(alloc, gates, signed, b, a)?;
            Ok(not(lit))
        }
        CmpOp::Gt => less(alloc, gates, signed, b, a),
        CmpOp::Ge => {
            let lit = less(alloc, gates, signed, a, b)?;
            Ok(not(lit))
        }
    }
}

/// A comparison of two range terms.
#[tactic(auto, using(tcl_gates::proofs::Shown::part_none))]
fn compare_terms(
    alloc: Global,
    gates: &mut Gates,
    words: &Words,
    variables: &Variables,
    op: CmpOp,
    left: &RngTerm,
    right: &RngTerm,
) -> Result<Lit, AllocError>
    requires { AllWithin (length gates.old) words.now }
    ensures made { OnOk result (gates.new ≡ (both_sides op (term_lits words.now (types_of variables.now) right.now) (term_lits words.now (types_of variables.now) left.now gates.old)).gates) }
    ensures lit { IfOk result (λ lit. lit ≡ (both_sides op (term_lits words.now (types_of variables.now) right.now) (term_lits words.now (types_of variables.now) left.now gates.old)).lit) }
    ensures within { IfOk result (λ lit. lit / 2 ≤ length gates.new) }
    ensures longer { OnOk result (length gates.old ≤ length gates.new) }
    ensures part { OnErr result (IsPart gates.old gates.new (both_sides op (term_lits words.now (types_of variables.now) right.now) (term_lits words.now (types_of variables.now) left.now gates.old)).gates) }
{
    let count = gates.len();
    let first = range_term(alloc, gates, words, variables, left)?;
    still_within(words, count, gates);
    let second = range_term(alloc, gates, words, variables, right)?;
    compare(alloc, gates, op, first.ty.signed, &first.word, &second.word)
}

/// The gate that both literals are true.
fn add_and(gates: &mut Gates, a: Lit, b: Lit) -> Result<Lit, AllocError>
    requires first { a / 2 ≤ length gates.old }
    requires second { b / 2 ≤ length gates.old }
    ensures made { OnOk result (gates.new ≡ (and_lit gates.old a b).gates) }
    ensures lit { IfOk result (λ lit. lit ≡ (and_lit gates.old a b).lit) }
    ensures within { IfOk result (λ lit. lit / 2 ≤ length gates.new) }
    ensures longer { OnOk result (length gates.old ≤ length gates.new) }
    ensures unchanged { OnErr result (gates.new ≡ gates.old) }
{
    let lit = gates.push(Gate::And(a, b))?;
    Ok(lit)
}

/// The gate that neither literal is true, and its negation.
fn add_or(gates: &mut Gates, a: Lit, b: Lit) -> Result<Lit, AllocError>
    requires first { a / 2 ≤ length gates.old }
    requires second { b / 2 ≤ length gates.old }
    ensures made { OnOk result (gates.new ≡ (or_lit gates.old a b).gates) }
    ensures lit { IfOk result (λ lit. lit ≡ (or_lit gates.old a b).lit) }
    ensures within { IfOk result (λ lit. lit / 2 ≤ length gates.new) }
    ensures longer { OnOk result (length gates.old ≤ length gates.new) }
    ensures unchanged { OnErr result (gates.new ≡ gates.old) }
{
    let neither = gates.push(Gate::And(not(a), not(b)))?;
    Ok(not(neither))
}

/// The literal of a range predicate: its parts from left to right, inner first.
#[tactic(auto, using(tcl_gates::proofs::Shown::part_none))]
pub(crate) fn range_pred(
    alloc: Global,
    gates: &mut Gates,
    words: &Words,
    variables: &Variables,
    pred: &RngPred,
) -> Result<Lit, AllocError>
    requires { AllWithin (length gates.old) words.now }
    ensures made { OnOk result (gates.new ≡ (pred_lit words.now (types_of variables.now) pred.now gates.old).gates) }
    ensures lit { IfOk result (λ lit. lit ≡ (pred_lit words.now (types_of variables.now) pred.now gates.old).lit) }
    ensures within { IfOk result (λ lit. lit / 2 ≤ length gates.new) }
    ensures longer { OnOk result (length gates.old ≤ length gates.new) }
    ensures part { OnErr result (IsPart gates.old gates.new (pred_lit words.now (types_of variables.now) pred.now gates.old).gates) }
{
    match pred {
        RngPred::True => Ok(Lit::of(0)),
        RngPred::False => Ok(Lit::from_number(1)),
        RngPred::Cmp(op, left, right) => {
            let lit = compare_terms(alloc, gates, words, variables, *op, left, right)?;
            Ok(lit)
        }
        RngPred::Not(inner) => {
            let lit = range_pred(alloc, gates, words, variables, inner.get())?;
            Ok(not(lit))
        }
        RngPred::Both(left, right) => {
            let count = gates.len();
            let first = range_pred(alloc, gates, words, variables, left.get())?;
            still_within(words, count, gates);
            let second = range_pred(alloc, gates, words, variables, right.get())?;
            let lit = add_and(gates, first, second)?;
            Ok(lit)
        }
        RngPred::Either(left, right) => {
            let count = gates.len();
            let first = range_pred(alloc, gates, words, variables, left.get())?;
            still_within(words, count, gates);
            let second = range_pred(alloc, gates, words, variables, right.get())?;
            let lit = add_or(gates, first, second)?;
            Ok(lit)
        }
    }
}
