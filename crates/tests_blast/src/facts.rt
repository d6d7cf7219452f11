// Facts of rows, and the text of their clauses.

ghost use Rattle.std.specs.Prelude.{◌≡◌, false, IsTrue};
ghost use Rattle.tcl_goals.specs.Order.{InOrder};
ghost use Rattle.tcl_blast.specs.Models.{is_algebraic_claim};

use std::alloc::{AllocError, Global};
use std::test::Fail;
use tcl_blast::{BlastEnd, clauses};
use tcl_cnf::{Clause, Cnf};
use tcl_goals::{
    BitClause, BitLit, Claim, Cube, Fact, Hyp, Hyps, Lemma, Lemmas, Uses, are_ordered, are_uses,
    goal_place, has_claim, has_goal, has_hyps, is_cube,
};
use tcl_lang::Ssa;
use tcl_slice::whole;

// A bit of a variable with its value.
pub(crate) type RowBit = (u32, u32, bool);

// What a row claims: a goal, or a lemma of a level.
pub(crate) enum Claimed {
    Goal(u32),
    Lemma(u32, &'static [RowBit]),
}

// A fact, and its clauses: literals by their variables, apart by commas; clauses apart by blanks.
pub(crate) struct Row {
    pub(crate) claim: Claimed,
    pub(crate) hyps: &'static [Hyp],
    pub(crate) cube: &'static [RowBit],
    pub(crate) uses: &'static [u32],
    pub(crate) clauses: &'static str,
}

fn bits_of(alloc: Global, bits: &[RowBit]) -> Result<Cube, AllocError> {
    let mut cube = Cube::new(alloc);
    for (var, bit, value) in bits {
        cube.push(BitLit {
            var: *var,
            bit: *bit,
            value: *value,
        })?;
    }
    Ok(cube)
}

pub(crate) fn lemma_of(alloc: Global, level: u32, bits: &[RowBit]) -> Result<Lemma, AllocError> {
    let clause: BitClause = bits_of(alloc, bits)?;
    Ok(Lemma { level, clause })
}

fn claim_of(alloc: Global, claim: &Claimed) -> Result<Claim, AllocError> {
    match claim {
        Claimed::Goal(goal) => Ok(Claim::Goal(*goal)),
        Claimed::Lemma(level, bits) => Ok(Claim::Lemma(lemma_of(alloc, *level, bits)?)),
    }
}

fn hyps_of(alloc: Global, row: &[Hyp]) -> Result<Hyps, AllocError> {
    let mut hyps = Hyps::new(alloc);
    for hyp in row {
        hyps.push(*hyp)?;
    }
    Ok(hyps)
}

fn uses_of(alloc: Global, places: &[u32]) -> Result<Uses, AllocError> {
    let mut uses = Uses::new(alloc);
    for place in places {
        uses.push(*place)?;
    }
    Ok(uses)
}

pub(crate) fn fact_of(alloc: Global, row: &Row) -> Result<Fact, AllocError> {
    let hyps = hyps_of(alloc, row.hyps)?;
    let cube = bits_of(alloc, row.cube)?;
    let uses = uses_of(alloc, row.uses)?;
    Ok(Fact {
        claim: claim_of(alloc, &row.claim)?,
        hyps,
        cube,
        uses,
    })
}

// The whole fact of a goal.
pub(crate) fn whole_fact(alloc: Global, form: &Ssa, goal: u32) -> Result<Fact, Fail> {
    if !has_goal(form.lines().as_slice(), goal) {
        return Err("no such goal")?;
    }
    Ok(whole(alloc, form, goal)?)
}

// Whether the fact is in order.
#[tactic(auto, using(crate::proofs::Orders::in_order))]
pub(crate) fn is_in_order(form: &Ssa, fact: &Fact, lemmas: &Lemmas) -> bool
    ensures { IsTrue result → InOrder form.now lemmas.now.items fact.now }
{
    if !has_claim(form, &fact.claim) {
        return false;
    }
    if !has_hyps(form, lemmas, &fact.hyps) {
        return false;
    }
    if !are_ordered(form, lemmas, &fact.claim, &fact.hyps) {
        return false;
    }
    if !are_uses(form, &fact.claim, &fact.uses) {
        return false;
    }
    is_cube(form, &fact.claim, &fact.cube)
}

// Whether the claim is an equation.
fn is_algebraic(form: &Ssa, claim: &Claim) -> bool
    ensures { result ≡ is_algebraic_claim form.now claim.now }
{
    match claim {
        Claim::Goal(goal) => {
            let lines = form.lines().as_slice();
            match lines.get(goal_place(lines, *goal)) {
                Some(line) => line.is_algebraic(),
                None => false,
            }
        }
        Claim::Lemma(_) => false,
    }
}

// The clauses of a fact in order.
pub(crate) fn clauses_of(
    alloc: Global,
    form: &Ssa,
    fact: &Fact,
    lemmas: &Lemmas,
) -> Result<Result<Cnf, u32>, Fail> {
    if !is_in_order(form, fact, lemmas) {
        return Err("a fact out of order")?;
    }
    if is_algebraic(form, &fact.claim) {
        return Err("an equation is claimed")?;
    }
    match clauses(alloc, form, fact, lemmas) {
        Ok(cnf) => Ok(Ok(cnf)),
        Err(BlastEnd::TooMany(count)) => Ok(Err(count)),
        Err(BlastEnd::Memory) => Err("out of memory")?,
    }
}

// The text of a clause.
fn add_clause(text: &mut String, clause: &Clause) -> Result<(), AllocError> {
    if clause.is_empty() {
        write!(text, "empty")?;
    }
    for k in 0..clause.len() {
        if k > 0 {
            write!(text, ",")?;
        }
        let lit = clause.at(k);
        if lit.is_negated() {
            write!(text, "-")?;
        }
        write!(text, "{}", lit.variable())?;
    }
    Ok(())
}

// The text of clauses.
pub(crate) fn text_of(alloc: Global, cnf: &Cnf) -> Result<String, AllocError> {
    let mut text = String::new(alloc);
    for k in 0..cnf.len() {
        if k > 0 {
            write!(text, " ")?;
        }
        add_clause(&mut text, cnf.at(k))?;
    }
    Ok(text)
}
