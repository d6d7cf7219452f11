//! Evidence of facts and of breaks, checked by the kernel.

ghost use Rattle.std.specs.Prelude.{◌≡◌, true, IfOk, IfSome};
ghost use Rattle.tcl_goals.specs.Places.{has_goal};
ghost use Rattle.tcl_kernel.specs.Cited.{proof_of};
ghost use Rattle.tcl_kernel.specs.Counterexample.{break_proof};
ghost use Rattle.tests_gate.specs.Gifts.{IsFactOf, IsLemmaFact};

use std::alloc::{AllocError, Global};
use tcl_goals::{
    BitClause, BitLit, Claim, Cube, Fact, Hyp, Hyps, Lemma, Lemmas, Numbered, Piece, Uses,
    goal_place,
};
use tcl_kernel::{Answer, Cert, Facts, check, check_break};
use tcl_lang::{Input, Line, Ssa};
use tcl_slice::whole;
use tests_board::Witness;

/// The evidence of a fact by these lemmas; none where the fact does not hold in each assignment of its free bits.
pub(crate) fn shown_fact(
    alloc: Global,
    ssa: &Ssa,
    lemmas: &Lemmas,
    fact: Fact,
) -> Result<Option<Witness>, AllocError>
    ensures { IfOk result (λ o. IfSome o (λ w. w ≡ proof_of ssa.now lemmas.now.items fact true)) }
{
    let earlier = Facts::of(alloc, ssa, lemmas)?;
    match check(alloc, ssa, &earlier, fact, Cert::Enumerated) {
        Answer::Proof(proof) => Ok(Witness::of(proof)),
        Answer::Bad(_) => Ok(None),
        Answer::Memory => Err(AllocError),
    }
}

/// The evidence that the input refutes the goal; none where it does not.
pub(crate) fn shown_break(
    alloc: Global,
    ssa: &Ssa,
    goal: u32,
    input: Input,
) -> Result<Option<Witness>, AllocError>
    ensures { IfOk result (λ o. IfSome o (λ w. w ≡ break_proof ssa.now goal input)) }
{
    match check_break(alloc, ssa, goal, input) {
        Answer::Proof(proof) => Ok(Witness::of(proof)),
        Answer::Bad(_) => Ok(None),
        Answer::Memory => Err(AllocError),
    }
}

/// Adds the lemmas whose level is the goal of this place, by rising numbers.
fn add_lemmas(
    hyps: &mut Hyps,
    lines: &[Line],
    lemmas: &[Numbered],
    place: usize,
) -> Result<(), AllocError> {
    for lemma in lemmas {
        if goal_place(lines, lemma.lemma.level) == place {
            hyps.push(Hyp::Lemma(lemma.number))?;
        }
    }
    Ok(())
}

/// The lines that a goal of this place rests on, with all these lemmas, each before the goal of its level.
fn with_lemmas(
    alloc: Global,
    lines: &[Line],
    hyps: &Hyps,
    lemmas: &[Numbered],
    place: usize,
) -> Result<Hyps, AllocError> {
    let mut all = Hyps::new(alloc);
    for hyp in hyps.as_slice() {
        if let Hyp::Line(line) = hyp {
            add_lemmas(&mut all, lines, lemmas, *line as usize)?;
            all.push(Hyp::Line(*line))?;
        }
    }
    add_lemmas(&mut all, lines, lemmas, place)?;
    Ok(all)
}

/// The fact of a piece that rests on all that stands before its goal, and on all these lemmas.
pub(crate) fn fact_of(
    alloc: Global,
    ssa: &Ssa,
    piece: &Piece,
    lemmas: &Lemmas,
) -> Result<Fact, AllocError>
    requires { has_goal ssa.now.lines piece.now.goal ≡ true }
    ensures { IfOk result (λ fact. IsFactOf piece.now fact) }
{
    let lines = ssa.lines().as_slice();
    let plain = whole(alloc, ssa, piece.goal)?;
    let place = goal_place(lines, piece.goal);
    let hyps = with_lemmas(alloc, lines, &plain.hyps, lemmas.items().as_slice(), place)?;
    Ok(Fact {
        claim: Claim::Goal(piece.goal),
        hyps,
        cube: piece.cube.copy()?,
        uses: plain.uses,
    })
}

/// The clause that bit 0 of variable 0 is set or not.
fn plain_clause(alloc: Global) -> Result<BitClause, AllocError> {
    let mut clause = BitClause::new(alloc);
    for value in [true, false] {
        clause.push(BitLit {
            var: 0,
            bit: 0,
            value,
        })?;
    }
    Ok(clause)
}

/// The fact of a lemma of this level.
pub(crate) fn lemma_fact(alloc: Global, level: u32) -> Result<Fact, AllocError>
    ensures { IfOk result (λ fact. IsLemmaFact level fact) }
{
    let clause = plain_clause(alloc)?;
    Ok(Fact {
        claim: Claim::Lemma(Lemma { level, clause }),
        hyps: Hyps::new(alloc),
        cube: Cube::new(alloc),
        uses: Uses::new(alloc),
    })
}
