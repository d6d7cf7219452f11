// Proof logs under construction: clauses, and the chains that derive them.

ghost use Rattle.std.specs.Prelude.{◌≡◌, ℕ, ◌+◌, ◌<◌, ◌≤◌, IfOk, IfSome, OnOk, OnErr, IsErrOf, Some, None, true, length, slice_get, take, drop, List, [], ◌∷◌, ◌++◌};
ghost use Rattle.tcl_cnf.specs.Clause.{IsClause, AreClauses, Follows};
ghost use Rattle.tcl_cnf.specs.Resolution.{chain_of};
ghost use Rattle.tcl_cnf.specs.Log.{LogState, IsLog, AddsLine, has_empty, log_answer};
ghost use Rattle.tcl_cnf.specs.FreshLogs.{IsFreshLog, DeriveFresh};

use crate::answer::LogAnswer;
use crate::clause::Clause;
use crate::cnf::{self, Cnf};
use crate::lit::Lit;
use crate::marks::Marks;
use crate::resolution::{self, Numbered};
use crate::rows::Rows;
use std::alloc::{AllocError, Global};
use std::marker::Model;
use tcl_list::Copies;

/// The chains of a proof log, each a list of clause numbers.
pub type LogLines = Rows<u32>;

/// Why a chain was not added to a log.
#[derive(Debug, Clone, Copy, PartialEq, Eq)]
pub enum LogFault {
    /// The list of numbers is no chain.
    Bad,
    /// Memory has run out, or there are no more clause numbers.
    Memory,
}

/// Clauses, and behind them clauses that chains of resolutions derive from those before. So each one follows from the
/// given ones, whoever chose the chains.
#[derive(Drop)]
pub struct Log {
    clauses: Vec<Clause>,
    given: usize,
    lines: LogLines,
    marks: Marks,
}

impl Model for Log {
    ghost use Rattle.std.specs.Prelude.{◌≡◌, List, []};
    ghost use Rattle.tcl_cnf.specs.Log.{LogState, IsLog};

    ghost Value = { LogState };

    ghost view = { λ l. record { clauses = l.clauses.items; given = l.given; lines = l.lines } };

    ghost invariant = { λ l. IsLog (record { clauses = l.clauses.items; given = l.given; lines = l.lines }) × (l.marks ≡ []) };
}

impl Log {
    /// The log of a formula, with no line yet. It keeps the allocator of the formula, and takes no memory.
    pub fn begin(cnf: Cnf) -> Log
        ensures { result ≡ record { clauses = cnf; given = length cnf; lines = [] } }
    {
        cnf.known();
        let clauses = cnf.into_clauses();
        let alloc = *clauses.allocator();
        let given = clauses.as_slice().len();
        Log {
            clauses,
            given,
            lines: Rows::new(alloc),
            marks: Marks::new(alloc),
        }
    }

    /// How many clauses there are, given and derived.
    pub fn len(&self) -> usize
        ensures { result ≡ length self.now.clauses }
    {
        self.clauses.as_slice().len()
    }

    /// How many clauses are given; those behind them are derived.
    pub fn given(&self) -> usize
        ensures { result ≡ self.now.given }
    {
        self.given
    }

    /// The clause of this number: the given clauses from 0, and behind them the derived ones.
    pub fn clause(&self, number: u32) -> &Clause
        requires { number < length self.now.clauses }
        ensures { slice_get self.now.clauses number ≡ Some result.now }
    {
        &self.clauses[number as usize]
    }

    /// Adds the clause that a chain of resolutions derives, and returns its number.
    ///
    /// The chain is a trivial resolution derivation (Beame, Kautz, Sabharwal, JAIR 2004): it starts with the clause of
    /// its first number, and each further clause cancels exactly one literal. The log is unchanged after both faults.
    pub fn resolve(&mut self, chain: &[u32]) -> Result<u32, LogFault>
        ensures number { IfOk result (λ number. number ≡ length self.old.clauses) }
        ensures added { OnOk result (AddsLine self.old self.new chain.now) }

        ensures bad { IsErrOf result LogFault.Bad → chain_of self.old.clauses chain.now ≡ None }
        ensures unchanged { OnErr result (self.new ≡ self.old) }
    {
        let Ok(number) = u32::try_from(self.clauses.len()) else {
            return Err(LogFault::Memory);
        };
        let Some(clause) = derived_clause(&mut self.marks, &self.clauses, chain)? else {
            return Err(LogFault::Bad);
        };
        self.clauses.reserve(1)?;
        self.lines.push(chain)?;
        self.clauses.push_reserved(clause);
        Ok(number)
    }

    /// Whether some derived clause is empty.
    pub fn is_refutation(&self) -> bool
        ensures { result ≡ has_empty (drop self.now.given self.now.clauses) }
    {
        any_empty(&self.clauses[self.given..])
    }

    /// Gives up the log for its chains; takes no memory.
    pub fn seal(self) -> LogLines
        ensures lines { result ≡ self.lines }

        // There is a line for each derived clause.
        ensures count { length self.clauses ≡ self.given + length result }

        // The chains of a log with an empty derived clause are a refutation of its given clauses.
        ensures refutes { has_empty (drop self.given self.clauses) ≡ true → log_answer (take self.given self.clauses) result ≡ LogAnswer.Refutes }

        // The chains of a log of fresh clauses derive those from its formula.
        ensures fresh { (cnf : List (List ℕ)) (n : ℕ) → IsFreshLog cnf n self → DeriveFresh cnf n result }
    {
        let Log {
            clauses: _,
            given: _,
            lines,
            marks: _,
        } = self;
        lines
    }

    /// An equal log with the same allocator.
    pub fn copy(&self) -> Result<Log, AllocError>
        ensures { IfOk result (λ log. log ≡ self.now) }
    {
        Ok(Log {
            clauses: cnf::copies_of(&self.clauses)?,
            given: self.given,
            lines: self.lines.copy()?,
            marks: Marks::new(*self.clauses.allocator()),
        })
    }

    /// Tells the caller what every log keeps, and that each of its clauses follows from the given ones.
    pub fn known(&self)
        ensures log { IsLog self.now }
        ensures follows { (k : ℕ) (c : List ℕ) → slice_get self.now.clauses k ≡ Some c → Follows (take self.now.given self.now.clauses) c }
    {
        let _ = &self.lines;
    }
}

impl Copies for Log {
    fn copy_in(&self, _alloc: Global) -> Result<Self, AllocError> {
        self.copy()
    }
}

impl From<AllocError> for LogFault {
    ghost use Rattle.std.specs.Prelude.{◌≡◌};
    ghost use Rattle.tcl_cnf.specs.declared.log.LogFault.TheVariants.{Memory};

    ghost from_gives = { λ _ fault. fault ≡ Memory };

    fn from(_error: AllocError) -> LogFault {
        LogFault::Memory
    }
}

impl Numbered for Vec<Clause> {
    ghost clauses = { λ v. v.items };

    fn lits(&self, number: u32) -> Option<&[Lit]> {
        if (number as usize) < self.as_slice().len() {
            let clause = &self[number as usize];
            Some(clause.lits())
        } else {
            None
        }
    }
}

/// The clause that a chain derives, or none where the list is no chain. The marks are empty afterwards.
fn derived_clause(
    marks: &mut Marks,
    clauses: &Vec<Clause>,
    chain: &[u32],
) -> Result<Option<Clause>, AllocError>
    requires empty { marks.old ≡ [] }
    requires are_clauses { AreClauses clauses.now.items }
    ensures clause { IfOk result (λ clause. clause ≡ chain_of clauses.now.items chain.now) }
    ensures emptied { marks.new ≡ [] }
{
    match take_derived(marks, clauses, chain) {
        Ok(Some(clause)) => Ok(Some(clause)),
        other => {
            *marks = Marks::new(*clauses.allocator());
            other
        }
    }
}

/// The same, where the marks are left as they are after a failure.
fn take_derived(
    marks: &mut Marks,
    clauses: &Vec<Clause>,
    chain: &[u32],
) -> Result<Option<Clause>, AllocError>
    requires empty { marks.old ≡ [] }
    requires are_clauses { AreClauses clauses.now.items }
    ensures clause { IfOk result (λ clause. clause ≡ chain_of clauses.now.items chain.now) }
    ensures emptied { IfOk result (λ clause. IfSome clause (λ _. marks.new ≡ [])) }
{
    if !resolution::derive(marks, clauses, chain)? {
        return Ok(None);
    }
    let lits = marks.take()?;
    Ok(Some(Clause::of(lits)))
}

/// Whether some clause is empty.
fn any_empty(clauses: &[Clause]) -> bool
    ensures { result ≡ has_empty clauses.now }
{
    clauses.iter().any(|clause| clause.len() == 0)
}
