//! Evidence for the steps of the tests, all of it checked by the kernel.

ghost use Rattle.std.specs.Prelude.{◌≡◌, IfOk, IfSome};

use crate::witness::Witness;
use std::alloc::{AllocError, Global};
use tcl_goals::{BitClause, BitLit, Claim, Cube, Fact, Hyp, Hyps, Lemma, Lemmas, Uses, has_goal};
use tcl_kernel::{Answer, Cert, Facts, check, check_break};
use tcl_lang::{Input, Ssa};
use tcl_slice::whole;

/// The evidence of a fact that holds in all assignments of its free bits; none where it does not.
pub(crate) fn shown_fact(
    alloc: Global,
    ssa: &Ssa,
    lemmas: &Lemmas,
    fact: Fact,
) -> Result<Option<Witness>, AllocError>
    ensures { IfOk result (λ o. IfSome o (λ w. w.program ≡ ssa.now)) }
{
    let earlier = Facts::of(alloc, ssa, lemmas)?;
    match check(alloc, ssa, &earlier, fact, Cert::Enumerated) {
        Answer::Proof(proof) => Ok(Witness::of(proof)),
        Answer::Bad(_) => Ok(None),
        Answer::Memory => Err(AllocError),
    }
}

/// The evidence that the input refutes the goal; none where it does not.
pub(crate) fn shown_break(
    alloc: Global,
    ssa: &Ssa,
    goal: u32,
    value: i128,
) -> Result<Option<Witness>, AllocError>
    ensures { IfOk result (λ o. IfSome o (λ w. w.program ≡ ssa.now)) }
{
    let mut input = Input::new(alloc);
    input.push(value)?;
    match check_break(alloc, ssa, goal, input) {
        Answer::Proof(proof) => Ok(Witness::of(proof)),
        Answer::Bad(_) => Ok(None),
        Answer::Memory => Err(AllocError),
    }
}

/// The evidence of a goal by all that stands before it.
pub(crate) fn shown_goal(alloc: Global, ssa: &Ssa, goal: u32) -> Result<Option<Witness>, AllocError>
    ensures { IfOk result (λ o. IfSome o (λ w. w.program ≡ ssa.now)) }
{
    if !has_goal(ssa.lines().as_slice(), goal) {
        return Ok(None);
    }
    let fact = whole(alloc, ssa, goal)?;
    shown_fact(alloc, ssa, &Lemmas::new(alloc), fact)
}

/// The lemma of a level that bit 0 of variable 0 is set or not.
fn plain_lemma(alloc: Global, level: u32) -> Result<Lemma, AllocError> {
    let mut clause = BitClause::new(alloc);
    for value in [true, false] {
        clause.push(BitLit {
            var: 0,
            bit: 0,
            value,
        })?;
    }
    Ok(Lemma { level, clause })
}

/// A fact of that lemma.
fn lemma_fact(alloc: Global, level: u32, hyps: Hyps, cube: Cube) -> Result<Fact, AllocError> {
    Ok(Fact {
        claim: Claim::Lemma(plain_lemma(alloc, level)?),
        hyps,
        cube,
        uses: Uses::new(alloc),
    })
}

/// The evidence of the lemma of a level.
pub(crate) fn shown_lemma(
    alloc: Global,
    ssa: &Ssa,
    level: u32,
) -> Result<Option<Witness>, AllocError>
    ensures { IfOk result (λ o. IfSome o (λ w. w.program ≡ ssa.now)) }
{
    let fact = lemma_fact(alloc, level, Hyps::new(alloc), Cube::new(alloc))?;
    shown_fact(alloc, ssa, &Lemmas::new(alloc), fact)
}

/// The same, with a cube.
pub(crate) fn shown_lemma_with_cube(
    alloc: Global,
    ssa: &Ssa,
    level: u32,
) -> Result<Option<Witness>, AllocError>
    ensures { IfOk result (λ o. IfSome o (λ w. w.program ≡ ssa.now)) }
{
    let mut cube = Cube::new(alloc);
    cube.push(BitLit {
        var: 0,
        bit: 1,
        value: true,
    })?;
    let fact = lemma_fact(alloc, level, Hyps::new(alloc), cube)?;
    shown_fact(alloc, ssa, &Lemmas::new(alloc), fact)
}

/// The lemma of a level alone, under this number.
#[tactic(auto, unfolding(tcl_goals::specs::LemmaList::next_number))]
fn one_lemma(alloc: Global, number: u32, level: u32) -> Result<Lemmas, AllocError> {
    let mut lemmas = Lemmas::new(alloc);
    lemmas.push(number, plain_lemma(alloc, level)?)?;
    Ok(lemmas)
}

/// The same, citing the lemma of this number, of the same level.
pub(crate) fn shown_lemma_citing(
    alloc: Global,
    ssa: &Ssa,
    level: u32,
    number: u32,
) -> Result<Option<Witness>, AllocError>
    ensures { IfOk result (λ o. IfSome o (λ w. w.program ≡ ssa.now)) }
{
    let mut hyps = Hyps::new(alloc);
    hyps.push(Hyp::Lemma(number))?;
    let lemmas = one_lemma(alloc, number, level)?;
    let fact = lemma_fact(alloc, level, hyps, Cube::new(alloc))?;
    shown_fact(alloc, ssa, &lemmas, fact)
}
