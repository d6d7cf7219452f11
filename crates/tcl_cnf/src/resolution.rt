// Chains of resolutions, by a table of marks for the clause that is being resolved.

ghost use Rattle.std.specs.Prelude.{◌≡◌, ◌==◌, if◌then◌else◌, ℕ, ◌<◌, IfOk, MatchBool, MatchOption, Some, None, length, slice_get, List, [], ◌∷◌, option_copied, OnOk};
ghost use Rattle.tcl_cnf.specs.Clause.{IsIncreasing, AreClauses, put, union, without};
ghost use Rattle.tcl_cnf.specs.Resolution.{clashes, join, join_step, chain_of};

use crate::lit::Lit;
use crate::marks::Marks;
use std::alloc::AllocError;

/// Clauses by their numbers, however they are kept.
pub trait Numbered {
    ghost use Rattle.std.specs.Prelude.{List, ℕ};

    ghost clauses: { Self → List (List ℕ) };

    /// The literals of the clause of this number, if there is one.
    fn lits(&self, number: u32) -> Option<&[Lit]>
        ensures { option_copied result ≡ slice_get (clauses self.now) number };
}

/// Derives the clause of a chain into the marks. The answer is whether the list is a chain.
pub fn derive<C: Numbered>(
    marks: &mut Marks,
    clauses: &C,
    chain: &[u32],
) -> Result<bool, AllocError>
    requires empty { marks.old ≡ [] }
    requires are_clauses { AreClauses (C.clauses clauses.now) }
    ensures { IfOk result (λ done. MatchBool done (chain_of (C.clauses clauses.now) chain.now ≡ Some marks.new) (chain_of (C.clauses clauses.now) chain.now ≡ None)) }
{
    let Some((first, rest)) = chain.split_first() else {
        return Ok(false);
    };
    let Some(lits) = clauses.lits(*first) else {
        return Ok(false);
    };
    start(marks, lits)?;
    for number in rest {
        if !step(marks, clauses, *number)? {
            return Ok(false);
        }
    }
    Ok(true)
}

/// Puts the literals of the first clause into the marks.
#[tactic(auto, using(crate::proofs::Clauses::union_more))]
fn start(marks: &mut Marks, lits: &[Lit]) -> Result<(), AllocError>
    requires empty { marks.old ≡ [] }
    requires increasing { IsIncreasing lits.now }
    ensures { OnOk result (marks.new ≡ lits.now) }
{
    for lit in lits {
        marks.insert(*lit)?;
    }
    Ok(())
}

/// Resolves the clause in the marks with the one of this number. The answer is whether there is a resolvent.
fn step<C: Numbered>(marks: &mut Marks, clauses: &C, number: u32) -> Result<bool, AllocError>
    requires { AreClauses (C.clauses clauses.now) }
    ensures { IfOk result (λ done. MatchBool done (join_step (Some marks.old) (slice_get (C.clauses clauses.now) number) ≡ Some marks.new) (join_step (Some marks.old) (slice_get (C.clauses clauses.now) number) ≡ None)) }
{
    let Some(lits) = clauses.lits(number) else {
        return Ok(false);
    };
    resolve(marks, lits)
}

/// Resolves the clause in the marks with another one. The answer is whether they clash at exactly one literal; where
/// they do not, the marks stay.
fn resolve(marks: &mut Marks, lits: &[Lit]) -> Result<bool, AllocError>
    requires { IsIncreasing lits.now }
    ensures { IfOk result (λ done. MatchBool done (join marks.old lits.now ≡ Some marks.new) (join marks.old lits.now ≡ None)) }
{
    marks.known();
    let Some(pivot) = single_clash(marks, lits) else {
        return Ok(false);
    };
    marks.remove(pivot.negation());
    add_others(marks, lits, pivot)?;
    Ok(true)
}

/// Puts all literals but this one into the marks.
#[tactic(auto, using(crate::proofs::ResolutionLemmas::others_more))]
fn add_others(marks: &mut Marks, lits: &[Lit], pivot: Lit) -> Result<(), AllocError>
    ensures { OnOk result (marks.new ≡ union marks.old (without pivot lits.now)) }
{
    for lit in lits {
        add_other(marks, *lit, pivot)?;
    }
    Ok(())
}

/// Puts the literal into the marks, if it is not this one.
fn add_other(marks: &mut Marks, lit: Lit, pivot: Lit) -> Result<(), AllocError>
    ensures { OnOk result (marks.new ≡ (if lit == pivot then marks.old else put lit marks.old)) }
{
    if lit.number() != pivot.number() {
        marks.insert(lit)?;
    }
    Ok(())
}

/// The literal whose negation is marked, if there is exactly one.
fn single_clash(marks: &Marks, lits: &[Lit]) -> Option<Lit>
    ensures { MatchOption result ((l : ℕ) → clashes lits.now marks.now ≡ l ∷ [] → ⊥) (λ lit. clashes lits.now marks.now ≡ lit ∷ []) }
{
    let mut found = None;
    for lit in lits {
        if marks.has(lit.negation()) {
            if found.is_some() {
                return None;
            }
            found = Some(*lit);
        }
    }
    found
}
