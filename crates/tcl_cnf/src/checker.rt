// The checker of proof logs, which trusts no search: it sees the clauses and the chains alone.

ghost use Rattle.std.specs.Prelude.{◌≡◌, if◌then◌else◌, ℕ, ◌<◌, ◌≤◌, ◌↔◌, IfOk, IfSome, MatchOption, Some, None, true, false, length, slice_get, List, [], ◌∷◌, ◌++◌};
ghost use Rattle.tcl_cnf.specs.Clause.{AreClauses, HaveNoSolution};
ghost use Rattle.tcl_cnf.specs.Resolution.{chain_of};
ghost use Rattle.tcl_cnf.specs.Log.{IsFirstBadLine, AreChains, AddsClause, log_answer};

use crate::answer::LogAnswer;
use crate::cnf::Cnf;
use crate::lit::Lit;
use crate::log::LogLines;
use crate::marks::Marks;
use crate::resolution::{self, Numbered};
use crate::rows::Rows;
use std::alloc::{AllocError, Global};

/// Checks a proof log: whether each line is a chain of resolutions over the clauses of the formula and those of the
/// lines before, and whether some line derives the empty clause.
///
/// The time is proportional to the literals of the clauses that the chains name, and to that of sorting what they derive.
#[tactic(auto, using(crate::proofs::LogLemmas::answer_sound))]
pub fn check_log(alloc: Global, cnf: &Cnf, lines: &LogLines) -> Result<LogAnswer, AllocError>
    ensures answer { IfOk result (λ answer. answer ≡ log_answer cnf.now lines.now) }

    ensures bad_line { IfOk result (λ answer. (k : ℕ) → (answer ≡ LogAnswer.BadLine k) ↔ IsFirstBadLine cnf.now lines.now k) }
    ensures no_end { IfOk result (λ answer. (answer ≡ LogAnswer.NoEnd) ↔ AreChains cnf.now lines.now false) }
    ensures refutes { IfOk result (λ answer. (answer ≡ LogAnswer.Refutes) ↔ AreChains cnf.now lines.now true) }

    ensures sound { IfOk result (λ answer. answer ≡ LogAnswer.Refutes → HaveNoSolution cnf.now) }
{
    let answer = answer_lines(alloc, cnf, lines)?;
    Ok(answer)
}

/// Reads the lines one after another, up to the first that is no chain.
fn answer_lines(alloc: Global, cnf: &Cnf, lines: &LogLines) -> Result<LogAnswer, AllocError>
    ensures { IfOk result (λ answer. answer ≡ log_answer cnf.now lines.now) }
{
    cnf.known();
    let mut marks = Marks::new(alloc);
    let mut known = Known {
        given: cnf,
        derived: Rows::new(alloc),
    };
    let mut refuted = false;
    for k in 0..lines.len() {
        let Some(empty) = add_line(&mut marks, &mut known, lines.at(k))? else {
            return Ok(LogAnswer::BadLine(k));
        };
        refuted = refuted | empty;
    }
    Ok(ending(refuted))
}

/// The answer where all lines are chains.
fn ending(refuted: bool) -> LogAnswer
    ensures { result ≡ (if refuted then LogAnswer.Refutes else LogAnswer.NoEnd) }
{
    if refuted {
        LogAnswer::Refutes
    } else {
        LogAnswer::NoEnd
    }
}

/// The clauses of the formula, and behind them those of the lines so far.
#[derive(Drop)]
struct Known<'a> {
    given: &'a Cnf,
    derived: Rows<Lit>,
}

impl Numbered for Known<'_> {
    ghost use Rattle.std.specs.Prelude.{◌++◌};

    ghost clauses = { λ k. k.given.now ++ k.derived };

    fn lits(&self, number: u32) -> Option<&[Lit]> {
        let place = number as usize;
        let given = self.given.len();
        if place < given {
            Some(self.given.at(place).lits())
        } else if place - given < self.derived.len() {
            Some(self.derived.at(place - given))
        } else {
            None
        }
    }
}

/// Adds the clause that a line derives, and says whether it is empty; none where the line is no chain.
fn add_line(marks: &mut Marks, known: &mut Known, line: &[u32]) -> Result<Option<bool>, AllocError>
    requires empty { marks.old ≡ [] }
    requires are_clauses { AreClauses (known.old.given.now ++ known.old.derived) }
    ensures bad { IfOk result (λ empty. empty ≡ None → chain_of (known.old.given.now ++ known.old.derived) line.now ≡ None) }
    ensures added { IfOk result (λ empty. IfSome empty (λ empty. AddsClause (known.old.given.now ++ known.old.derived) (known.new.given.now ++ known.new.derived) line.now empty)) }
    ensures given { known.new.given.now ≡ known.old.given.now }
    ensures emptied { IfOk result (λ empty. IfSome empty (λ _. marks.new ≡ [])) }
{
    if !resolution::derive(marks, known, line)? {
        return Ok(None);
    }
    let lits = marks.take()?;
    known.derived.push(&lits)?;
    Ok(Some(lits.is_empty()))
}
