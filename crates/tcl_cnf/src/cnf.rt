// Lists of clauses: formulas in conjunctive normal form.

ghost use Rattle.std.specs.Prelude.{◌≡◌, ◌<◌, IfOk, OnOk, OnErr, Some, length, slice_get, take, List, [], ◌∷◌, ◌++◌};
ghost use Rattle.tcl_cnf.specs.Clause.{AreClauses};

use crate::clause::Clause;
use std::alloc::{AllocError, Global};
use std::marker::Model;
use tcl_list::Copies;

/// A formula in conjunctive normal form: a list of clauses, all of which are to be true.
#[derive(Drop)]
pub struct Cnf {
    clauses: Vec<Clause>,
}

impl Model for Cnf {
    ghost use Rattle.std.specs.Prelude.{List, ℕ};

    ghost Value = { List (List ℕ) };

    ghost use Rattle.tcl_cnf.specs.Clause.{AreClauses};

    ghost view = { λ c. c.clauses.items };

    ghost invariant = { λ c. AreClauses c.clauses.items };
}

impl Cnf {
    /// The formula with no clause, which all values meet; takes no memory.
    pub fn new(alloc: Global) -> Cnf
        ensures { result ≡ [] }
    {
        Cnf {
            clauses: Vec::new(alloc),
        }
    }

    /// The number of clauses.
    pub fn len(&self) -> usize
        ensures { result ≡ length self.now }
    {
        self.clauses.len()
    }

    /// The clause of this number, counted from 0.
    pub fn at(&self, k: usize) -> &Clause
        requires { k < length self.now }
        ensures { slice_get self.now k ≡ Some result.now }
    {
        &self.clauses[k]
    }

    /// Appends a clause. The clauses stay where memory has run out.
    #[tactic(auto, using(crate::proofs::Clauses::are_clauses_push))]
    pub fn push(&mut self, clause: Clause) -> Result<(), AllocError>
        ensures ok { OnOk result (self.new ≡ self.old ++ clause ∷ []) }
        ensures err { OnErr result (self.new ≡ self.old) }
    {
        clause.known();
        self.clauses.push(clause)?;
        Ok(())
    }

    /// Appends the clauses of another formula. The clauses stay where memory has run out.
    #[tactic(auto, using(crate::proofs::Clauses::are_clauses_append))]
    pub fn append(&mut self, more: Cnf) -> Result<(), AllocError>
        ensures ok { OnOk result (self.new ≡ self.old ++ more) }
        ensures err { OnErr result (self.new ≡ self.old) }
    {
        more.known();
        let mut clauses = more.into_clauses();
        self.clauses.append(&mut clauses)?;
        Ok(())
    }

    /// Gives the clauses as a vector; takes no memory.
    pub(crate) fn into_clauses(self) -> Vec<Clause>
        ensures { result.items ≡ self }
    {
        let Cnf { clauses } = self;
        clauses
    }

    /// An equal formula with the same allocator.
    pub fn copy(&self) -> Result<Cnf, AllocError>
        ensures { IfOk result (λ cnf. cnf ≡ self.now) }
    {
        Ok(Cnf {
            clauses: copies_of(&self.clauses)?,
        })
    }

    /// Tells the caller what every list of clauses keeps.
    pub fn known(&self)
        ensures { AreClauses self.now }
    {
        let _ = &self.clauses;
    }
}

impl Copies for Cnf {
    fn copy_in(&self, _alloc: Global) -> Result<Self, AllocError> {
        self.copy()
    }
}

/// Equal clauses in a vector with the same allocator.
pub(crate) fn copies_of(clauses: &Vec<Clause>) -> Result<Vec<Clause>, AllocError>
    ensures { IfOk result (λ copies. copies.items ≡ clauses.now.items) }
{
    let mut copies = Vec::with_capacity(*clauses.allocator(), clauses.len())?;
    for clause in clauses {
        copies.push(clause.copy()?)?;
    }
    Ok(copies)
}
