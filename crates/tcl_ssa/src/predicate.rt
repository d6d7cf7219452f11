//! Predicates over variables.

ghost use Rattle.std.specs.Prelude.{◌≡◌, IfOk};
ghost use Rattle.tcl_lang.specs.Versions as versions;

use crate::lines::version_atom;
use crate::table::number_at;
use sqlite_items::Boxed;
use std::alloc::{AllocError, Global};
use tcl_lang::{AlgPred, Pred, RngPred, RngTerm, Term};

/// The predicate over variables. `Err` is that memory has run out.
pub(crate) fn version_predicate(
    alloc: Global,
    current: &[u32],
    pred: &Pred,
) -> Result<Pred, AllocError>
    ensures { IfOk result (λ over. over ≡ versions.version_predicate current.now pred.now) }
{
    match pred {
        Pred::Alg(pred) => Ok(Pred::Alg(version_equation(alloc, current, pred)?)),
        Pred::Rng(pred) => Ok(Pred::Rng(version_range(alloc, current, pred)?)),
    }
}

/// The equation over variables.
fn version_equation(alloc: Global, current: &[u32], pred: &AlgPred) -> Result<AlgPred, AllocError>
    ensures { IfOk result (λ over. over ≡ record { left = versions.version_term current.now pred.now.left; right = versions.version_term current.now pred.now.right; modulus = pred.now.modulus }) }
{
    let modulus = match &pred.modulus {
        None => None,
        Some(modulus) => Some(modulus.copy()?),
    };
    Ok(AlgPred {
        left: version_term(alloc, current, &pred.left)?,
        right: version_term(alloc, current, &pred.right)?,
        modulus,
    })
}

/// The term over variables.
fn version_term(alloc: Global, current: &[u32], term: &Term) -> Result<Term, AllocError>
    ensures { IfOk result (λ over. over ≡ versions.version_term current.now term.now) }
{
    match term {
        Term::Var(name) => Ok(Term::Var(number_at(current, *name))),
        Term::Num(n) => Ok(Term::Num(*n)),
        Term::Neg(inner) => Ok(Term::Neg(Boxed::new(
            alloc,
            version_term(alloc, current, inner.get())?,
        )?)),
        Term::Add(left, right) => {
            let left = Boxed::new(alloc, version_term(alloc, current, left.get())?)?;
            let right = version_term(alloc, current, right.get())?;
            Ok(Term::Add(left, Boxed::new(alloc, right)?))
        }
        Term::Sub(left, right) => {
            let left = Boxed::new(alloc, version_term(alloc, current, left.get())?)?;
            let right = version_term(alloc, current, right.get())?;
            Ok(Term::Sub(left, Boxed::new(alloc, right)?))
        }
        Term::Mul(left, right) => {
            let left = Boxed::new(alloc, version_term(alloc, current, left.get())?)?;
            let right = version_term(alloc, current, right.get())?;
            Ok(Term::Mul(left, Boxed::new(alloc, right)?))
        }
        Term::Pow(base, power) => Ok(Term::Pow(
            Boxed::new(alloc, version_term(alloc, current, base.get())?)?,
            *power,
        )),
    }
}

/// The range term over variables.
fn version_range_term(alloc: Global, current: &[u32], term: &RngTerm) -> Result<RngTerm, AllocError>
    ensures { IfOk result (λ over. over ≡ versions.version_range_term current.now term.now) }
{
    match term {
        RngTerm::Leaf(atom) => Ok(RngTerm::Leaf(version_atom(current, *atom))),
        RngTerm::Neg(inner) => Ok(RngTerm::Neg(Boxed::new(
            alloc,
            version_range_term(alloc, current, inner.get())?,
        )?)),
        RngTerm::Flip(inner) => Ok(RngTerm::Flip(Boxed::new(
            alloc,
            version_range_term(alloc, current, inner.get())?,
        )?)),
        RngTerm::Bin(op, left, right) => {
            let left = Boxed::new(alloc, version_range_term(alloc, current, left.get())?)?;
            let right = version_range_term(alloc, current, right.get())?;
            Ok(RngTerm::Bin(*op, left, Boxed::new(alloc, right)?))
        }
        RngTerm::Cast(ty, inner) => Ok(RngTerm::Cast(
            *ty,
            Boxed::new(alloc, version_range_term(alloc, current, inner.get())?)?,
        )),
    }
}

/// The range predicate over variables.
fn version_range(alloc: Global, current: &[u32], pred: &RngPred) -> Result<RngPred, AllocError>
    ensures { IfOk result (λ over. over ≡ versions.version_range current.now pred.now) }
{
    match pred {
        RngPred::True => Ok(RngPred::True),
        RngPred::False => Ok(RngPred::False),
        RngPred::Cmp(op, left, right) => {
            let left = version_range_term(alloc, current, left)?;
            Ok(RngPred::Cmp(*op, left, version_range_term(alloc, current, right)?))
        }
        RngPred::Not(inner) => Ok(RngPred::Not(Boxed::new(
            alloc,
            version_range(alloc, current, inner.get())?,
        )?)),
        RngPred::Both(left, right) => {
            let left = Boxed::new(alloc, version_range(alloc, current, left.get())?)?;
            let right = version_range(alloc, current, right.get())?;
            Ok(RngPred::Both(left, Boxed::new(alloc, right)?))
        }
        RngPred::Either(left, right) => {
            let left = Boxed::new(alloc, version_range(alloc, current, left.get())?)?;
            let right = version_range(alloc, current, right.get())?;
            Ok(RngPred::Either(left, Boxed::new(alloc, right)?))
        }
    }
}
