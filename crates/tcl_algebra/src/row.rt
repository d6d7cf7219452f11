//! The equation that an instruction gives of its last result, as a term.

ghost use Rattle.std.specs.Prelude.{◌≡◌, ◌≤◌, ◌<◌, ◌&&◌, Some, None, IfOk};
ghost use Rattle.tcl_lang.specs.declared.term.Term.TheViews as views;
ghost use Rattle.tcl_lang.specs.Types.{IsTy};
ghost use Rattle.tcl_algebra.specs.Row as rows;

use sqlite_items::Boxed;
use std::alloc::{AllocError, Global};
use tcl_lang::{Atom, Instr, Op, Term, Ty, Variable};
use tcl_num::{least_value, power_of_two, values_end};

/// An operand as a term.
pub(crate) fn term_of(atom: Atom) -> Term
    ensures { result ≡ rows.term_of atom }
{
    match atom {
        Atom::Var(name) => Term::Var(name),
        Atom::Lit(_, n) => Term::Num(n),
    }
}

/// Operand `k` as a term, 0 where there is none.
fn operand(args: &[Atom], k: usize) -> Term
    ensures { result ≡ rows.term_of (rows.atom_at args.now k) }
{
    match args.get(k) {
        Some(atom) => term_of(*atom),
        None => Term::Num(0),
    }
}

/// The sum of two terms.
fn add(alloc: Global, a: Term, b: Term) -> Result<Term, AllocError>
    ensures { IfOk result (λ t. t ≡ views.Add a b) }
{
    Ok(Term::Add(Boxed::new(alloc, a)?, Boxed::new(alloc, b)?))
}

/// Their difference.
fn sub(alloc: Global, a: Term, b: Term) -> Result<Term, AllocError>
    ensures { IfOk result (λ t. t ≡ views.Sub a b) }
{
    Ok(Term::Sub(Boxed::new(alloc, a)?, Boxed::new(alloc, b)?))
}

/// Their product.
fn mul(alloc: Global, a: Term, b: Term) -> Result<Term, AllocError>
    ensures { IfOk result (λ t. t ≡ views.Mul a b) }
{
    Ok(Term::Mul(Boxed::new(alloc, a)?, Boxed::new(alloc, b)?))
}

/// A term times 2^k.
fn shifted(alloc: Global, k: u32, t: Term) -> Result<Term, AllocError>
    requires { k ≤ 64 }
    ensures { IfOk result (λ s. s ≡ rows.shifted k t) }
{
    mul(alloc, Term::Num(power_of_two(k)), t)
}

/// `2^w - 1 - a`, with a sign `-1 - a`.
fn flipped(alloc: Global, ty: Ty, a: Term) -> Result<Term, AllocError>
    requires { ty.width ≤ 64 }
    ensures { IfOk result (λ s. s ≡ rows.flipped_term ty a) }
{
    if ty.signed {
        sub(alloc, Term::Num(-1), a)
    } else {
        sub(alloc, Term::Num(power_of_two(ty.width) - 1), a)
    }
}

/// What the last result equals, where the instruction has an equation.
pub(crate) fn row_term(alloc: Global, i: &Instr) -> Result<Option<Term>, AllocError>
    requires width { i.now.ty.width ≤ 64 }
    requires amount { i.now.amount ≤ 64 }
    ensures { IfOk result (λ t. t ≡ rows.instruction_term i.now) }
{
    let args = i.args.as_slice();
    let a = operand(args, 0);
    let b = operand(args, 1);
    let c = operand(args, 2);
    let w = i.ty.width;
    let first = match i.outs.as_slice().get(0) {
        Some(name) => Term::Var(*name),
        None => Term::Var(0),
    };
    match i.op {
        Op::Mov | Op::Cast | Op::Vpc => Ok(Some(a)),
        Op::Add => Ok(Some(add(alloc, a, b)?)),
        Op::Adds => Ok(Some(sub(alloc, add(alloc, a, b)?, shifted(alloc, w, first)?)?)),
        Op::Adc => Ok(Some(add(alloc, add(alloc, a, b)?, c)?)),
        Op::Adcs => Ok(Some(sub(
            alloc,
            add(alloc, add(alloc, a, b)?, c)?,
            shifted(alloc, w, first)?,
        )?)),
        Op::Sub => Ok(Some(sub(alloc, a, b)?)),
        Op::Subb => Ok(Some(add(alloc, sub(alloc, a, b)?, shifted(alloc, w, first)?)?)),
        Op::Sbb => Ok(Some(sub(alloc, sub(alloc, a, b)?, c)?)),
        Op::Sbbs => Ok(Some(add(
            alloc,
            sub(alloc, sub(alloc, a, b)?, c)?,
            shifted(alloc, w, first)?,
        )?)),
        Op::Mul | Op::Mulj => Ok(Some(mul(alloc, a, b)?)),
        Op::Mull => Ok(Some(sub(alloc, mul(alloc, a, b)?, shifted(alloc, w, first)?)?)),
        Op::Shl => Ok(Some(shifted(alloc, i.amount, a)?)),
        Op::Split => Ok(Some(sub(alloc, a, shifted(alloc, i.amount, first)?)?)),
        Op::Join => Ok(Some(add(alloc, shifted(alloc, w, a)?, b)?)),
        Op::Cmov => {
            let product = mul(alloc, a, b)?;
            let other = mul(alloc, operand(args, 0), operand(args, 2))?;
            Ok(Some(sub(alloc, add(alloc, product, c)?, other)?))
        }
        Op::And if w == 1 => Ok(Some(mul(alloc, a, b)?)),
        Op::Or if w == 1 => {
            let product = mul(alloc, operand(args, 0), operand(args, 1))?;
            Ok(Some(sub(alloc, add(alloc, a, b)?, product)?))
        }
        Op::Xor if w == 1 => {
            let product = mul(alloc, operand(args, 0), operand(args, 1))?;
            Ok(Some(sub(alloc, add(alloc, a, b)?, shifted(alloc, 1, product)?)?))
        }
        Op::Not => Ok(Some(flipped(alloc, i.ty, a)?)),
        _ => Ok(None),
    }
}

/// The last result.
pub(crate) fn last_of(outs: &[u32]) -> u32
    ensures { result ≡ rows.last_of outs.now }
{
    match outs.last() {
        Some(name) => *name,
        None => 0,
    }
}

/// Whether a row counts: one with an exactness condition where that is a hypothesis.
pub(crate) fn counts(op: Op, exact: bool) -> bool
    ensures { result ≡ rows.counts op exact }
{
    !op.has_condition() || exact
}

/// Whether every value of `other` is one of `ty`.
fn holds_all(ty: Ty, other: Ty) -> bool
    requires first { IsTy ty }
    requires second { IsTy other }
    ensures { result ≡ rows.holds_all ty other }
{
    least_value(ty.signed, ty.width) <= least_value(other.signed, other.width)
        && values_end(other.signed, other.width) <= values_end(ty.signed, ty.width)
}

/// The type of an operand; one bit where there is no such variable.
fn type_of(variables: &[Variable], atom: Atom) -> Ty
    ensures { result ≡ rows.type_of variables.now atom }
{
    match atom {
        Atom::Var(name) => match variables.get(name as usize) {
            Some(variable) => variable.ty,
            None => Ty::bit(),
        },
        Atom::Lit(ty, _) => ty,
    }
}

/// Whether the instruction is a cast that may lose bits.
pub(crate) fn has_quotient(variables: &[Variable], i: &Instr) -> bool
    requires word { IsTy i.now.ty }
    requires source { IsTy (rows.type_of variables.now (rows.atom_at i.now.args 0)) }
    ensures { result ≡ rows.has_quotient variables.now i.now }
{
    let source = match i.args.as_slice().get(0) {
        Some(atom) => type_of(variables, *atom),
        None => Ty::bit(),
    };
    match i.op {
        Op::Cast => !holds_all(i.ty, source),
        _ => false,
    }
}
