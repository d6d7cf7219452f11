//! A fact with a lemma among its hypotheses.

use crate::facts::{form_of, text_of};
use std::alloc::{AllocError, Global};
use std::process::Abort;
use std::test::Fail;
use tcl_goals::{BitClause, BitLit, Claim, Cube, Fact, Hyp, Hyps, Lemma, Lemmas, Uses};

// The lemma of that number, that the first variable is odd.
#[tactic(auto, unfolding(tcl_goals::specs::LemmaList::next_number))]
fn odd(alloc: Global, number: u32) -> Result<Lemmas, AllocError> {
    let mut clause = BitClause::new(alloc);
    clause.push(BitLit {
        var: 0,
        bit: 0,
        value: true,
    })?;
    let mut lemmas = Lemmas::new(alloc);
    lemmas.push(number, Lemma { level: 0, clause })?;
    Ok(lemmas)
}

// The fact that the first goal follows from the lemma of that number.
fn from_lemma(alloc: Global, number: u32) -> Result<Fact, AllocError> {
    let mut hyps = Hyps::new(alloc);
    hyps.push(Hyp::Lemma(number))?;
    Ok(Fact {
        claim: Claim::Goal(0),
        hyps,
        cube: Cube::new(alloc),
        uses: Uses::new(alloc),
    })
}

// The claim does not name the variable of the lemma, which is a word of one bit.
#[test]
fn a_lemma_names_variables_of_its_fact(rt: HostRuntime) -> Result<(), Fail> {
    let alloc = rt.alloc();
    let form = form_of(alloc, "in u1 a\nin u8 b\nassert alg b = 1\nend")?;
    let lemmas = odd(alloc, 3)?;
    let fact = from_lemma(alloc, 3)?;
    let answer = text_of(alloc, &form, &lemmas, &fact)?;
    assert_eq!(&rt; answer.as_str(), "0: 1*v0^2-1*v0\nclaim 1*v1-1");
    Ok(())
}
