//! Range terms and predicates: words that wrap, and comparisons of their values.

ghost use Rattle.std.specs.Prelude.{◌≡◌, ◌↔◌, IsTrue, IfOk};

use crate::instr::Atom;
use crate::ty::Ty;
use sqlite_items::Boxed;
use std::alloc::{AllocError, Global};
use tcl_list::{Copies, Same};

/// The binary operators of range terms.
#[derive(Clone, Copy, PartialEq, Eq)]
pub enum RngOp {
    Add,
    Sub,
    Mul,
    And,
    Or,
    Xor,
}

/// A word expression. Each operator keeps the type of its operands and wraps; `Flip` flips every bit.
pub enum RngTerm {
    Leaf(Atom),
    Neg(Boxed<RngTerm>),
    Flip(Boxed<RngTerm>),
    Bin(RngOp, Boxed<RngTerm>, Boxed<RngTerm>),
    Cast(Ty, Boxed<RngTerm>),
}

impl Drop for RngTerm {
    fn drop(self) {
        match self {
            RngTerm::Leaf(_) => (),
            RngTerm::Neg(inner) | RngTerm::Flip(inner) | RngTerm::Cast(_, inner) => {
                drop(inner.into_inner());
            }
            RngTerm::Bin(_, left, right) => {
                drop(left.into_inner());
                drop(right.into_inner());
            }
        }
    }
}

/// The comparisons.
#[derive(Clone, Copy, PartialEq, Eq)]
pub enum CmpOp {
    Eq,
    Ne,
    Lt,
    Le,
    Gt,
    Ge,
}

/// A predicate over words.
pub enum RngPred {
    True,
    False,
    Cmp(CmpOp, RngTerm, RngTerm),
    Not(Boxed<RngPred>),
    Both(Boxed<RngPred>, Boxed<RngPred>),
    Either(Boxed<RngPred>, Boxed<RngPred>),
}

impl Drop for RngPred {
    fn drop(self) {
        match self {
            RngPred::True | RngPred::False => (),
            RngPred::Cmp(_, left, right) => {
                drop(left);
                drop(right);
            }
            RngPred::Not(inner) => drop(inner.into_inner()),
            RngPred::Both(left, right) | RngPred::Either(left, right) => {
                drop(left.into_inner());
                drop(right.into_inner());
            }
        }
    }
}

impl Copies for RngTerm {
    fn copy_in(&self, alloc: Global) -> Result<Self, AllocError> {
        match self {
            RngTerm::Leaf(atom) => Ok(RngTerm::Leaf(*atom)),
            RngTerm::Neg(inner) => Ok(RngTerm::Neg(Boxed::new(
                alloc,
                inner.get().copy_in(alloc)?,
            )?)),
            RngTerm::Flip(inner) => Ok(RngTerm::Flip(Boxed::new(
                alloc,
                inner.get().copy_in(alloc)?,
            )?)),
            RngTerm::Bin(op, left, right) => {
                let left = Boxed::new(alloc, left.get().copy_in(alloc)?)?;
                Ok(RngTerm::Bin(*op, left, Boxed::new(alloc, right.get().copy_in(alloc)?)?))
            }
            RngTerm::Cast(ty, inner) => Ok(RngTerm::Cast(
                *ty,
                Boxed::new(alloc, inner.get().copy_in(alloc)?)?,
            )),
        }
    }
}

impl Same for RngTerm {
    fn same(&self, other: &Self) -> bool {
        match (self, other) {
            (RngTerm::Leaf(a), RngTerm::Leaf(b)) => *a == *b,
            (RngTerm::Neg(s), RngTerm::Neg(t)) => s.get().same(t.get()),
            (RngTerm::Flip(s), RngTerm::Flip(t)) => s.get().same(t.get()),
            (RngTerm::Bin(o, a, b), RngTerm::Bin(p, c, d)) => *o == *p
                && a.get().same(c.get())
                && b.get().same(d.get()),
            (RngTerm::Cast(ty, s), RngTerm::Cast(to, t)) => *ty == *to && s.get().same(t.get()),
            _ => false,
        }
    }
}

impl Copies for RngPred {
    fn copy_in(&self, alloc: Global) -> Result<Self, AllocError> {
        match self {
            RngPred::True => Ok(RngPred::True),
            RngPred::False => Ok(RngPred::False),
            RngPred::Cmp(op, left, right) => {
                let left = left.copy_in(alloc)?;
                Ok(RngPred::Cmp(*op, left, right.copy_in(alloc)?))
            }
            RngPred::Not(inner) => Ok(RngPred::Not(Boxed::new(
                alloc,
                inner.get().copy_in(alloc)?,
            )?)),
            RngPred::Both(left, right) => {
                let left = Boxed::new(alloc, left.get().copy_in(alloc)?)?;
                Ok(RngPred::Both(left, Boxed::new(alloc, right.get().copy_in(alloc)?)?))
            }
            RngPred::Either(left, right) => {
                let left = Boxed::new(alloc, left.get().copy_in(alloc)?)?;
                Ok(RngPred::Either(left, Boxed::new(alloc, right.get().copy_in(alloc)?)?))
            }
        }
    }
}

impl Same for RngPred {
    fn same(&self, other: &Self) -> bool {
        match (self, other) {
            (RngPred::True, RngPred::True) => true,
            (RngPred::False, RngPred::False) => true,
            (RngPred::Cmp(o, a, b), RngPred::Cmp(p, c, d)) => *o == *p && a.same(c) && b.same(d),
            (RngPred::Not(s), RngPred::Not(t)) => s.get().same(t.get()),
            (RngPred::Both(a, b), RngPred::Both(c, d)) => a.get().same(c.get())
                && b.get().same(d.get()),
            (RngPred::Either(a, b), RngPred::Either(c, d)) => a.get().same(c.get())
                && b.get().same(d.get()),
            _ => false,
        }
    }
}
