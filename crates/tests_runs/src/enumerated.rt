// Facts that are decided by going through all assignments of their free bits. The ends were worked out by hand.

ghost use Rattle.std.specs.Prelude.{IsTrue};
ghost use Rattle.tcl_goals.specs.Order.{InOrder};

use crate::forms::form_of;
use std::alloc::{AllocError, Global};
use std::process::Abort;
use std::test::Fail;
use tcl_enum::{Ended, FreeValues, enumerate};
use tcl_goals::{
    BitClause, BitLit, Claim, Cube, Fact, Hyp, Hyps, Lemma, Lemmas, Uses, are_ordered, are_uses,
    free_bits, has_claim, has_hyps, is_cube,
};
use tcl_lang::Ssa;

// A program, a goal, the places of the hypotheses and of the uses, the bits of the cube, and the end of the walk.
const ENDS: &[(&str, u32, &[u32], &[u32], &[(u32, u32, bool)], &str)] = &[
    (
        "in u8 x\nassert rng 1@u8 < 2@u8\nend\n",
        0,
        &[],
        &[],
        &[],
        "all",
    ),
    (
        "in u8 x\nassert rng 2@u8 < 1@u8\nend\n",
        0,
        &[],
        &[],
        &[],
        "fails",
    ),
    (
        "in u1 y\nassert rng y <= 1@u1\nend\n",
        0,
        &[],
        &[],
        &[],
        "all",
    ),
    (
        "in u1 y\nassert rng y < 1@u1\nend\n",
        0,
        &[],
        &[],
        &[],
        "fails 0=1",
    ),
    (
        "in u4 a\nin u4 b\nassert rng a != 15@u4 || b != 15@u4\nend\n",
        0,
        &[],
        &[],
        &[],
        "fails 0=15 1=15",
    ),
    (
        "in u2 a\nin u2 b\nassert rng a + b != 3@u2\nend\n",
        0,
        &[],
        &[],
        &[],
        "fails 0=0 1=3",
    ),
    (
        "in s3 a\nassert rng a != 2@s3 && ~a != 2@s3\nend\n",
        0,
        &[],
        &[],
        &[],
        "fails 0=2",
    ),
    (
        "in s3 a\nassert rng ~a != 2@s3\nend\n",
        0,
        &[],
        &[],
        &[],
        "fails 0=-3",
    ),
    (
        "in u4 a\nassert rng a < 8@u4\nend\n",
        0,
        &[],
        &[],
        &[],
        "fails 0=8",
    ),
    (
        "in u4 a\nassert rng a < 8@u4\nend\n",
        0,
        &[],
        &[],
        &[(0, 3, false)],
        "all",
    ),
    (
        "in u4 a\nassert rng a < 8@u4\nend\n",
        0,
        &[],
        &[],
        &[(0, 3, true), (0, 0, true)],
        "fails 0=9",
    ),
    (
        "in u4 a\nassume rng a < 8@u4\nassert rng a < 9@u4\nend\n",
        0,
        &[],
        &[],
        &[],
        "fails 0=9",
    ),
    (
        "in u4 a\nassume rng a < 8@u4\nassert rng a < 9@u4\nend\n",
        0,
        &[1],
        &[],
        &[],
        "all",
    ),
    (
        "in u4 a\nadd u4 b a 1@u4\nassert rng a < b\nend\n",
        1,
        &[],
        &[1],
        &[],
        "fails 0=15",
    ),
    (
        "in u4 a\nadd u4 b a 1@u4\nassert rng a < b\nend\n",
        1,
        &[1],
        &[1],
        &[],
        "all",
    ),
    (
        "in u4 a\nadd u4 b a 1@u4\nassert rng a < b\nend\n",
        1,
        &[],
        &[],
        &[],
        "fails 0=0 1=0",
    ),
    (
        "in u4 a\nadd u4 b a 1@u4\nassert rng a < b\nend\n",
        0,
        &[],
        &[],
        &[],
        "fails 0=15",
    ),
    (
        "nondet u2 c\nadd u2 d c 1@u2\nassert rng 0@u2 < d\nend\n",
        1,
        &[],
        &[0, 1],
        &[],
        "fails 0=3",
    ),
    (
        "nondet u2 c\nadd u2 d c 1@u2\nassert rng 0@u2 < d\nend\n",
        1,
        &[],
        &[1],
        &[],
        "fails 0=3",
    ),
    (
        "in u4 x\nassert alg x * (x - 1) = 0 mod 2\nend\n",
        0,
        &[],
        &[],
        &[],
        "all",
    ),
    (
        "in u4 x\nassert alg x * x = 0 mod 4\nend\n",
        0,
        &[],
        &[],
        &[],
        "fails 0=1",
    ),
    (
        "in u4 x\nassert alg x**40 = x**40\nend\n",
        0,
        &[],
        &[],
        &[],
        "wide",
    ),
    (
        "in u4 x\nassert alg x = 1 mod 2**127\nend\n",
        0,
        &[],
        &[],
        &[],
        "wide",
    ),
    (
        "in u4 x\nassume alg x**40 = 0\nassert rng x < 1@u4\nend\n",
        0,
        &[1],
        &[],
        &[],
        "wide",
    ),
    (
        "in u4 x\nassume alg x**40 = 0\nassert rng x < 1@u4\nend\n",
        0,
        &[],
        &[],
        &[],
        "fails 0=1",
    ),
    (
        "in u20 x\nassert rng x < 1048575@u20\nend\n",
        0,
        &[],
        &[],
        &[],
        "fails 0=1048575",
    ),
];

fn hyps_of(alloc: Global, places: &[u32]) -> Result<Hyps, AllocError> {
    let mut hyps = Hyps::new(alloc);
    for place in places {
        hyps.push(Hyp::Line(*place))?;
    }
    Ok(hyps)
}

fn uses_of(alloc: Global, places: &[u32]) -> Result<Uses, AllocError> {
    let mut uses = Uses::new(alloc);
    for place in places {
        uses.push(*place)?;
    }
    Ok(uses)
}

fn cube_of(alloc: Global, bits: &[(u32, u32, bool)]) -> Result<Cube, AllocError> {
    let mut cube = Cube::new(alloc);
    for (var, bit, value) in bits {
        cube.push(BitLit {
            var: *var,
            bit: *bit,
            value: *value,
        })?;
    }
    Ok(cube)
}

// Whether the fact is in order.
fn is_in_order(form: &Ssa, fact: &Fact, lemmas: &Lemmas) -> bool
    ensures { IsTrue result → InOrder form.now lemmas.now.items fact.now }
{
    has_claim(form, &fact.claim)
        && has_hyps(form, lemmas, &fact.hyps)
        && are_ordered(form, lemmas, &fact.claim, &fact.hyps)
        && are_uses(form, &fact.claim, &fact.uses)
        && is_cube(form, &fact.claim, &fact.cube)
}

// The end of the walk of a fact in order that has at most 20 free bits.
fn end_of(alloc: Global, form: &Ssa, fact: &Fact, lemmas: &Lemmas) -> Result<Ended, AllocError>
    requires { InOrder form.now lemmas.now.items fact.now }
{
    if free_bits(alloc, form, lemmas, fact)?.len() > 20 {
        return Ok(Ended::Memory);
    }
    Ok(enumerate(alloc, form, fact, lemmas))
}

// The end of the walk as text.
fn told(alloc: Global, form: &Ssa, fact: &Fact, lemmas: &Lemmas) -> Result<String, AllocError> {
    if !is_in_order(form, fact, lemmas) {
        return String::from_str(alloc, "not in order");
    }
    text_of(alloc, &end_of(alloc, form, fact, lemmas)?)
}

fn text_of(alloc: Global, ended: &Ended) -> Result<String, AllocError> {
    match ended {
        Ended::All => String::from_str(alloc, "all"),
        Ended::Wide => String::from_str(alloc, "wide"),
        Ended::Memory => String::from_str(alloc, "memory"),
        Ended::Fails(values) => text_of_values(alloc, values),
    }
}

fn text_of_values(alloc: Global, values: &FreeValues) -> Result<String, AllocError> {
    let mut text = String::from_str(alloc, "fails")?;
    for free in values.as_slice() {
        write!(&mut text, " {}={}", free.var, free.value)?;
    }
    Ok(text)
}

fn fact_of(
    alloc: Global,
    goal: u32,
    hyps: &[u32],
    uses: &[u32],
    bits: &[(u32, u32, bool)],
) -> Result<Fact, AllocError> {
    let hyps = hyps_of(alloc, hyps)?;
    let cube = cube_of(alloc, bits)?;
    let uses = uses_of(alloc, uses)?;
    Ok(Fact {
        claim: Claim::Goal(goal),
        hyps,
        cube,
        uses,
    })
}

// The end of the walk of a fact where there is no lemma.
fn end_alone(alloc: Global, form: &Ssa, fact: &Fact) -> Result<String, AllocError> {
    told(alloc, form, fact, &Lemmas::new(alloc))
}

#[test]
fn ends(rt: HostRuntime) -> Result<(), Fail> {
    let alloc = rt.alloc();
    for (text, goal, hyps, uses, bits, end) in ENDS {
        let fact = fact_of(alloc, *goal, hyps, uses, bits)?;
        let form = form_of(alloc, text)?;
        let found = end_alone(alloc, &form, &fact)?;
        assert!(&rt; found.as_str() == *end, "goal {goal} of {text}: {found}");
    }
    Ok(())
}

// The lemma that bit 3 of variable 0 is 0.
fn small(alloc: Global) -> Result<Lemma, AllocError> {
    let mut clause = BitClause::new(alloc);
    clause.push(BitLit {
        var: 0,
        bit: 3,
        value: false,
    })?;
    Ok(Lemma { level: 0, clause })
}

// The number of the only lemma.
const SMALL: u32 = 4;

#[tactic(auto, unfolding(tcl_goals::specs::LemmaList::next_number))]
fn one_lemma(alloc: Global) -> Result<Lemmas, AllocError> {
    let mut lemmas = Lemmas::new(alloc);
    lemmas.push(SMALL, small(alloc)?)?;
    Ok(lemmas)
}

// The end of the walk of a claim from these hypotheses, where there is one lemma.
fn end_with_lemma(alloc: Global, claim: Claim, hyps: Hyps) -> Result<String, Fail> {
    let form = form_of(alloc, "in u4 a\nassert rng a < 8@u4\nend\n")?;
    let lemmas = one_lemma(alloc)?;
    let fact = Fact {
        claim,
        hyps,
        cube: Cube::new(alloc),
        uses: Uses::new(alloc),
    };
    Ok(told(alloc, &form, &fact, &lemmas)?)
}

// A lemma as no hypothesis, as a hypothesis and as a claim.
#[test]
fn lemmas(rt: HostRuntime) -> Result<(), Fail> {
    let alloc = rt.alloc();
    let alone = end_with_lemma(alloc, Claim::Goal(0), Hyps::new(alloc))?;
    assert_eq!(rt; alone.as_str(), "fails 0=8", "without the lemma");
    let mut hyps = Hyps::new(alloc);
    hyps.push(Hyp::Lemma(SMALL))?;
    let helped = end_with_lemma(alloc, Claim::Goal(0), hyps)?;
    assert_eq!(rt; helped.as_str(), "all", "with the lemma");
    let claimed = end_with_lemma(alloc, Claim::Lemma(small(alloc)?), Hyps::new(alloc))?;
    assert_eq!(rt; claimed.as_str(), "fails 0=8", "the lemma itself");
    Ok(())
}
