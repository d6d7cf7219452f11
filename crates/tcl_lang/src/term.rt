//! Algebraic terms and predicates: integers without bound.

ghost use Rattle.std.specs.Prelude.{◌≡◌, ◌↔◌, IsTrue, IfOk};

use sqlite_items::Boxed;
use std::alloc::{AllocError, Global};
use tcl_list::{Copies, Listing, Same};

/// An integer expression over the values of variables.
pub enum Term {
    Var(u32),
    Num(i128),
    Neg(Boxed<Term>),
    Add(Boxed<Term>, Boxed<Term>),
    Sub(Boxed<Term>, Boxed<Term>),
    Mul(Boxed<Term>, Boxed<Term>),
    Pow(Boxed<Term>, u32),
}

impl Drop for Term {
    fn drop(self) {
        match self {
            Term::Var(_) | Term::Num(_) => (),
            Term::Neg(inner) | Term::Pow(inner, _) => drop(inner.into_inner()),
            Term::Add(left, right) | Term::Sub(left, right) | Term::Mul(left, right) => {
                drop(left.into_inner());
                drop(right.into_inner());
            }
        }
    }
}

/// One part of a modulus: `base` or `base ** power`, subtracted where `minus` is set.
#[derive(Clone, Copy, PartialEq, Eq)]
pub struct Part {
    pub minus: bool,
    pub base: i128,
    pub power: Option<u32>,
}

/// The parts of a modulus, whose sum it is.
pub type Modulus = Listing<Part>;

/// `left = right`, as integers or, where there is a modulus, as residues.
pub struct AlgPred {
    pub left: Term,
    pub right: Term,
    pub modulus: Option<Modulus>,
}

impl Drop for AlgPred {
    fn drop(self) {
        let AlgPred {
            left,
            right,
            modulus,
        } = self;
        drop(left);
        drop(right);
        drop(modulus);
    }
}

impl Copies for Term {
    fn copy_in(&self, alloc: Global) -> Result<Self, AllocError> {
        match self {
            Term::Var(n) => Ok(Term::Var(*n)),
            Term::Num(n) => Ok(Term::Num(*n)),
            Term::Neg(inner) => Ok(Term::Neg(Boxed::new(alloc, inner.get().copy_in(alloc)?)?)),
            Term::Add(left, right) => {
                let left = Boxed::new(alloc, left.get().copy_in(alloc)?)?;
                Ok(Term::Add(left, Boxed::new(alloc, right.get().copy_in(alloc)?)?))
            }
            Term::Sub(left, right) => {
                let left = Boxed::new(alloc, left.get().copy_in(alloc)?)?;
                Ok(Term::Sub(left, Boxed::new(alloc, right.get().copy_in(alloc)?)?))
            }
            Term::Mul(left, right) => {
                let left = Boxed::new(alloc, left.get().copy_in(alloc)?)?;
                Ok(Term::Mul(left, Boxed::new(alloc, right.get().copy_in(alloc)?)?))
            }
            Term::Pow(base, power) => Ok(Term::Pow(
                Boxed::new(alloc, base.get().copy_in(alloc)?)?,
                *power,
            )),
        }
    }
}

impl Same for Term {
    fn same(&self, other: &Self) -> bool {
        match (self, other) {
            (Term::Var(n), Term::Var(m)) => *n == *m,
            (Term::Num(n), Term::Num(m)) => *n == *m,
            (Term::Neg(s), Term::Neg(t)) => s.get().same(t.get()),
            (Term::Add(a, b), Term::Add(c, d)) => a.get().same(c.get()) && b.get().same(d.get()),
            (Term::Sub(a, b), Term::Sub(c, d)) => a.get().same(c.get()) && b.get().same(d.get()),
            (Term::Mul(a, b), Term::Mul(c, d)) => a.get().same(c.get()) && b.get().same(d.get()),
            (Term::Pow(s, n), Term::Pow(t, m)) => s.get().same(t.get()) && *n == *m,
            _ => false,
        }
    }
}

impl Copies for Part {
    fn copy_in(&self, _alloc: Global) -> Result<Self, AllocError> {
        Ok(*self)
    }
}

impl Same for Part {
    fn same(&self, other: &Self) -> bool {
        *self == *other
    }
}

impl Copies for AlgPred {
    fn copy_in(&self, alloc: Global) -> Result<Self, AllocError> {
        let modulus = match &self.modulus {
            None => None,
            Some(modulus) => Some(modulus.copy()?),
        };
        Ok(AlgPred {
            left: self.left.copy_in(alloc)?,
            right: self.right.copy_in(alloc)?,
            modulus,
        })
    }
}

impl Same for AlgPred {
    fn same(&self, other: &Self) -> bool {
        let moduli = match (&self.modulus, &other.modulus) {
            (None, None) => true,
            (Some(ours), Some(theirs)) => ours.same(theirs),
            _ => false,
        };
        moduli && self.left.same(&other.left) && self.right.same(&other.right)
    }
}
