//! The names that a line reads, as a list.

ghost use Rattle.std.specs.Prelude.{◌≡◌, ◌++◌, IfOk, OnOk};
ghost use Rattle.std.specs.List.{fold};
ghost use Rattle.tcl_lang.specs.Names as names;
ghost use Rattle.tcl_slice.specs.Naming as naming;

use std::alloc::{AllocError, Global};
use tcl_lang::{Atom, Line, Pred, RngPred, RngTerm, Term};
use tcl_list::Listing;

/// The names that a line reads, from left to right. The only error is that memory has run out.
pub(crate) fn names_of(alloc: Global, line: &Line) -> Result<Listing<u32>, AllocError>
    ensures { IfOk result (λ list. list ≡ names.used_names line.now) }
{
    let mut list = Listing::new(alloc);
    add_line(&mut list, line)?;
    Ok(list)
}

/// Adds the names that a line reads.
#[tactic(auto, using(crate::proofs::Joining::operands_named))]
fn add_line(list: &mut Listing<u32>, line: &Line) -> Result<(), AllocError>
    ensures { OnOk result (list.new ≡ list.old ++ names.used_names line.now) }
{
    match line.predicate() {
        Some(pred) => add_pred(list, pred),
        None => match line.instruction() {
            Some(instr) => add_operands(list, instr.args.as_slice()),
            None => Ok(()),
        },
    }
}

/// Adds the names of a predicate.
#[tactic(auto, using(crate::proofs::Joining::joined, crate::proofs::Joining::operands_named))]
fn add_pred(list: &mut Listing<u32>, pred: &Pred) -> Result<(), AllocError>
    ensures { OnOk result (list.new ≡ list.old ++ names.predicate_names pred.now) }
{
    match pred {
        Pred::Alg(pred) => {
            add_term(list, &pred.left)?;
            add_term(list, &pred.right)
        }
        Pred::Rng(pred) => add_range(list, pred),
    }
}

/// Adds the names of an algebraic term.
#[tactic(auto, using(crate::proofs::Joining::joined))]
fn add_term(list: &mut Listing<u32>, term: &Term) -> Result<(), AllocError>
    ensures { OnOk result (list.new ≡ list.old ++ names.term_names term.now) }
{
    match term {
        Term::Var(name) => list.push(*name),
        Term::Num(_) => Ok(()),
        Term::Neg(inner) => add_term(list, inner.get()),
        Term::Pow(inner, _) => add_term(list, inner.get()),
        Term::Add(left, right) => {
            add_term(list, left.get())?;
            add_term(list, right.get())
        }
        Term::Sub(left, right) => {
            add_term(list, left.get())?;
            add_term(list, right.get())
        }
        Term::Mul(left, right) => {
            add_term(list, left.get())?;
            add_term(list, right.get())
        }
    }
}

/// Adds the names of a range predicate.
#[tactic(auto, using(crate::proofs::Joining::operands_append))]
fn add_range(list: &mut Listing<u32>, pred: &RngPred) -> Result<(), AllocError>
    ensures { OnOk result (list.new ≡ fold naming.with_operand list.old (names.range_atoms pred.now)) }
{
    match pred {
        RngPred::True | RngPred::False => Ok(()),
        RngPred::Cmp(_, left, right) => {
            add_range_term(list, left)?;
            add_range_term(list, right)
        }
        RngPred::Not(inner) => add_range(list, inner.get()),
        RngPred::Both(left, right) => {
            add_range(list, left.get())?;
            add_range(list, right.get())
        }
        RngPred::Either(left, right) => {
            add_range(list, left.get())?;
            add_range(list, right.get())
        }
    }
}

/// Adds the names of a range term.
#[tactic(auto, using(crate::proofs::Joining::operands_append))]
fn add_range_term(list: &mut Listing<u32>, term: &RngTerm) -> Result<(), AllocError>
    ensures { OnOk result (list.new ≡ fold naming.with_operand list.old (names.term_atoms term.now)) }
{
    match term {
        RngTerm::Leaf(atom) => add_operand(list, *atom),
        RngTerm::Neg(inner) => add_range_term(list, inner.get()),
        RngTerm::Flip(inner) => add_range_term(list, inner.get()),
        RngTerm::Cast(_, inner) => add_range_term(list, inner.get()),
        RngTerm::Bin(_, left, right) => {
            add_range_term(list, left.get())?;
            add_range_term(list, right.get())
        }
    }
}

/// Adds the names among operands.
fn add_operands(list: &mut Listing<u32>, atoms: &[Atom]) -> Result<(), AllocError>
    ensures { OnOk result (list.new ≡ fold naming.with_operand list.old atoms.now) }
{
    for k in 0..atoms.len() {
        add_operand(list, atoms[k])?;
    }
    Ok(())
}

/// Adds the name, where the operand is one.
fn add_operand(list: &mut Listing<u32>, atom: Atom) -> Result<(), AllocError>
    ensures { OnOk result (list.new ≡ naming.with_operand list.old atom) }
{
    match atom {
        Atom::Var(name) => list.push(name),
        Atom::Lit(..) => Ok(()),
    }
}
