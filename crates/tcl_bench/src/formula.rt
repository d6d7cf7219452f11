// Formulas that no values make true: laws of words, denied, and pigeons in too few holes.

use crate::circuit;
use std::alloc::{AllocError, Global};
use tcl_cnf::{Clause, Cnf, Lit};
use tcl_gates::{Gates, clauses_of_gates};

/// A formula and its size.
#[derive(Clone, Copy)]
pub(crate) enum Formula {
    /// `x * y` and `y * x` differ, for words of so many bits.
    Multiply(u32),
    /// `x * (y + z)` and `x * y + x * z` differ.
    Distribute(u32),
    /// `(x + y) + z` and `x + (y + z)` differ.
    Associate(u32),
    /// So many pigeons sit in so many holes, no two in one.
    Pigeons(u32, u32),
}

impl Formula {
    pub(crate) fn of_words(words: &[&str]) -> Option<Formula> {
        match *words {
            [name, width] => Formula::of_width(name, width.parse().ok()?),
            ["pigeons", pigeons, holes] => {
                Some(Formula::Pigeons(pigeons.parse().ok()?, holes.parse().ok()?))
            }
            _ => None,
        }
    }

    fn of_width(name: &str, width: u32) -> Option<Formula> {
        match name {
            "multiply" => Some(Formula::Multiply(width)),
            "distribute" => Some(Formula::Distribute(width)),
            "associate" => Some(Formula::Associate(width)),
            _ => None,
        }
    }

    pub(crate) fn clauses(self, alloc: Global) -> Result<Cnf, AllocError> {
        match self {
            Formula::Multiply(width) => multiply(alloc, width),
            Formula::Distribute(width) => sides_differ(alloc, Law::Distributive, width),
            Formula::Associate(width) => sides_differ(alloc, Law::Associative, width),
            Formula::Pigeons(pigeons, holes) => pigeons_sit(alloc, pigeons, holes),
        }
    }
}

fn multiply(alloc: Global, width: u32) -> Result<Cnf, AllocError> {
    let mut gates = Gates::new(alloc);
    let x = circuit::input(alloc, &mut gates, width)?;
    let y = circuit::input(alloc, &mut gates, width)?;
    let left = circuit::product(alloc, &mut gates, &x, &y)?;
    let right = circuit::product(alloc, &mut gates, &y, &x)?;
    unequal(alloc, &mut gates, &left, &right)
}

/// A law of three words.
#[derive(Clone, Copy)]
enum Law {
    /// `x * (y + z) = x * y + x * z`.
    Distributive,
    /// `(x + y) + z = x + (y + z)`.
    Associative,
}

impl Law {
    /// The left side.
    fn left(
        self,
        alloc: Global,
        gates: &mut Gates,
        x: &[Lit],
        y: &[Lit],
        z: &[Lit],
    ) -> Result<Vec<Lit>, AllocError> {
        match self {
            Law::Distributive => {
                let both = circuit::sum(alloc, gates, y, z)?;
                circuit::product(alloc, gates, x, &both)
            }
            Law::Associative => {
                let both = circuit::sum(alloc, gates, x, y)?;
                circuit::sum(alloc, gates, &both, z)
            }
        }
    }

    /// The right side.
    fn right(
        self,
        alloc: Global,
        gates: &mut Gates,
        x: &[Lit],
        y: &[Lit],
        z: &[Lit],
    ) -> Result<Vec<Lit>, AllocError> {
        match self {
            Law::Distributive => {
                let first = circuit::product(alloc, gates, x, y)?;
                let second = circuit::product(alloc, gates, x, z)?;
                circuit::sum(alloc, gates, &first, &second)
            }
            Law::Associative => {
                let both = circuit::sum(alloc, gates, y, z)?;
                circuit::sum(alloc, gates, x, &both)
            }
        }
    }
}

/// The two sides of the law differ, for words of so many bits.
fn sides_differ(alloc: Global, law: Law, width: u32) -> Result<Cnf, AllocError> {
    let mut gates = Gates::new(alloc);
    let x = circuit::input(alloc, &mut gates, width)?;
    let y = circuit::input(alloc, &mut gates, width)?;
    let z = circuit::input(alloc, &mut gates, width)?;
    let left = law.left(alloc, &mut gates, &x, &y, &z)?;
    let right = law.right(alloc, &mut gates, &x, &y, &z)?;
    unequal(alloc, &mut gates, &left, &right)
}

/// The clauses of the gates, and that some bit of the two words differs.
fn unequal(
    alloc: Global,
    gates: &mut Gates,
    left: &[Lit],
    right: &[Lit],
) -> Result<Cnf, AllocError> {
    let differences = circuit::differences(alloc, gates, left, right)?;
    let mut cnf = clauses_of_gates(alloc, gates)?;
    push(alloc, &mut cnf, &differences)?;
    Ok(cnf)
}

fn pigeons_sit(alloc: Global, pigeons: u32, holes: u32) -> Result<Cnf, AllocError> {
    let mut cnf = Cnf::new(alloc);
    for pigeon in 0..pigeons {
        let mut places = Vec::new(alloc);
        for hole in 0..holes {
            places.push(sits(pigeon, hole, holes))?;
        }
        push(alloc, &mut cnf, &places)?;
        for other in 0..pigeon {
            keep_apart(alloc, &mut cnf, pigeon, other, holes)?;
        }
    }
    Ok(cnf)
}

/// Appends that the two pigeons share no hole.
fn keep_apart(
    alloc: Global,
    cnf: &mut Cnf,
    one: u32,
    other: u32,
    holes: u32,
) -> Result<(), AllocError> {
    for hole in 0..holes {
        let both = [
            sits(one, hole, holes).negation(),
            sits(other, hole, holes).negation(),
        ];
        push(alloc, cnf, &both)?;
    }
    Ok(())
}

/// The literal that the pigeon sits in the hole.
fn sits(pigeon: u32, hole: u32, holes: u32) -> Lit {
    let place = pigeon.wrapping_mul(holes).wrapping_add(hole);
    Lit::from_number(place.wrapping_mul(2))
}

/// Appends the clause of the literals, unless it is always true.
fn push(alloc: Global, cnf: &mut Cnf, lits: &[Lit]) -> Result<(), AllocError> {
    if let Some(clause) = Clause::from_lits(alloc, lits)? {
        cnf.push(clause)?;
    }
    Ok(())
}
