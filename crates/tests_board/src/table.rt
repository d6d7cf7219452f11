// Lists of steps with three workers. The answers are worked by hand from the rules.
//
// The program has four goals, 0 to 3, so the pieces 0 to 7; 3 refutes goal 1, and 2 refutes goal 2.

use crate::bench::Bench;
use crate::forms::form_of_text;
use crate::steps::{Said, Step, said_to};
use std::process::Abort;
use std::test::Fail;

pub(crate) const TEXT: &str =
    "in u2 x\nassert rng x <= 3@u2\nassert rng x < 3@u2\nassert rng x < 2@u2\npost rng x < 2@u2\nend";

fn runs(rt: &impl Abort, alloc: std::alloc::Global, table: &[(Step, Said)]) -> Result<(), Fail> {
    let mut bench = Bench::begin(alloc, form_of_text(alloc, TEXT)?)?;
    for k in 0..table.len() {
        let (step, expected) = table[k];
        let said = said_to(alloc, &mut bench, step)?;
        assert!(rt; said == expected, "step {k}");
    }
    Ok(())
}

// Pieces are claimed from the least on; a proof of the cut route is enough; what is settled is neither claimed nor admitted.
const CLAIMS: &[(Step, Said)] = &[
    (Step::Claim(0), Said::Piece(0)),
    (Step::Claim(0), Said::Nothing),
    (Step::Claim(1), Said::Piece(1)),
    (Step::Claim(64), Said::Nothing),
    (Step::Prove(2, 0), Said::NotHeld),
    (Step::AdmitGoal(0), Said::No),
    (Step::Poll(0), Said::Go),
    (Step::Prove(0, 0), Said::Taken),
    (Step::Prove(0, 0), Said::NotHeld),
    (Step::Poll(1), Said::Go),
    (Step::AdmitGoal(0), Said::Yes),
    (Step::AdmitGoal(0), Said::No),
    (Step::AdmitGoal(4), Said::No),
    (Step::Poll(1), Said::Cancelled),
    (Step::Poll(1), Said::Nothing),
    (Step::Claim(1), Said::Piece(2)),
];

// A break ends the piece and settles its goal; a second one ends its piece too; one above the piece is foreign.
const BREAKS: &[(Step, Said)] = &[
    (Step::Claim(0), Said::Piece(0)),
    (Step::Break(0, 1), Said::Foreign),
    (Step::End(0), Said::Taken),
    (Step::Claim(0), Said::Piece(1)),
    (Step::Prove(0, 1), Said::Nothing),
    (Step::Prove(0, 0), Said::Taken),
    (Step::AdmitGoal(0), Said::Yes),
    (Step::Claim(0), Said::Piece(2)),
    (Step::Claim(1), Said::Piece(3)),
    (Step::Claim(2), Said::Piece(4)),
    (Step::Break(0, 1), Said::Taken),
    (Step::Poll(1), Said::Cancelled),
    (Step::Claim(1), Said::Piece(5)),
    (Step::Break(2, 1), Said::Settled),
    (Step::Break(2, 1), Said::NotHeld),
    (Step::AdmitGoal(1), Said::No),
    (Step::Break(1, 2), Said::Taken),
    (Step::Claim(0), Said::Piece(6)),
    (Step::Claim(1), Said::Piece(7)),
    (Step::Prove(0, 3), Said::Taken),
    (Step::AdmitGoal(3), Said::Yes),
    (Step::Break(1, 2), Said::Settled),
    (Step::Claim(2), Said::NoPiece),
];

// Lemmas are numbered from 0, cite admitted lemmas alone, and have no cube; their worker keeps its piece.
const LEMMAS: &[(Step, Said)] = &[
    (Step::Lemma(0, 0), Said::NotHeld),
    (Step::Claim(0), Said::Piece(0)),
    (Step::LemmaCiting(0, 1, 0), Said::Foreign),
    (Step::Lemma(0, 1), Said::Taken),
    (Step::LemmaCiting(0, 1, 0), Said::Foreign),
    (Step::AdmitLemma(1), Said::No),
    (Step::AdmitLemma(0), Said::Yes),
    (Step::AdmitLemma(0), Said::No),
    (Step::LemmaCiting(0, 0, 0), Said::Foreign),
    (Step::LemmaCiting(0, 1, 0), Said::Taken),
    (Step::LemmaWithCube(0, 1), Said::Foreign),
    (Step::GoalAsLemma(0, 0), Said::Foreign),
    (Step::AdmitLemma(1), Said::Yes),
    (Step::LemmaCiting(0, 1, 2), Said::Foreign),
    (Step::Prove(0, 2), Said::Nothing),
    (Step::Prove(0, 3), Said::Foreign),
    (Step::End(0), Said::Taken),
    (Step::Lemma(0, 0), Said::NotHeld),
];

#[test]
fn claims_and_polls(rt: HostRuntime) -> Result<(), Fail> {
    runs(&rt, rt.alloc(), CLAIMS)
}

#[test]
fn breaks_of_own_and_smaller_goals(rt: HostRuntime) -> Result<(), Fail> {
    runs(&rt, rt.alloc(), BREAKS)
}

#[test]
fn lemmas_that_cite(rt: HostRuntime) -> Result<(), Fail> {
    runs(&rt, rt.alloc(), LEMMAS)
}

// 512 lemmas are taken, and no more.
#[test]
fn lemmas_up_to_the_limit(rt: HostRuntime) -> Result<(), Fail> {
    let alloc = rt.alloc();
    let mut bench = Bench::begin(alloc, form_of_text(alloc, TEXT)?)?;
    let claimed = said_to(alloc, &mut bench, Step::Claim(0))?;
    assert!(rt; claimed == Said::Piece(0), "the claim");
    for k in 0..512 {
        let said = said_to(alloc, &mut bench, Step::Lemma(0, 0))?;
        assert!(rt; said == Said::Taken, "lemma {k}");
    }
    let said = said_to(alloc, &mut bench, Step::Lemma(0, 0))?;
    assert!(rt; said == Said::Full, "one more lemma");
    let foreign = said_to(alloc, &mut bench, Step::LemmaWithCube(0, 0))?;
    assert!(rt; foreign == Said::Foreign, "a foreign lemma");
    Ok(())
}
