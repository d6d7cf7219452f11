// The five tests of a fact's order, and the keys of hypotheses. The reference, a second implementation of the language, gave
// the answers.

use crate::expected::holds;
use crate::forms::{form_of_text, hyps_of, uses_of};
use std::alloc::{AllocError, Global};
use std::process::Abort;
use std::test::Fail;
use tcl_goals::{
    BitLit, Claim, Cube, Hyp, Hyps, Key, Lemma, Lemmas, are_ordered, are_uses, has_claim, has_hyps,
    is_cube, order,
};
use tcl_lang::Ssa;

// Its goals stand at the places 2, 3 and 5; its variables are x, y, and z of four bits.
const TEXT: &str =
    "in u8 x\npre rng x < 200@u8\nadd u8 y x 1@u8\ncut rng y <= 200@u8\nmov u4 z 1@u4\nassert rng y <= 200@u8\nend";

fn cube_of(alloc: Global, bits: &[(u32, u32)]) -> Result<Cube, AllocError> {
    let mut cube = Cube::new(alloc);
    for (var, bit) in bits {
        cube.push(BitLit {
            var: *var,
            bit: *bit,
            value: true,
        })?;
    }
    Ok(cube)
}

fn lemma_of(alloc: Global, level: u32, bits: &[(u32, u32)]) -> Result<Lemma, AllocError> {
    Ok(Lemma {
        level,
        clause: cube_of(alloc, bits)?,
    })
}

// Lemma 3 before goal 1, and lemma 5 before goal 2.
#[tactic(auto, unfolding(tcl_goals::specs::LemmaList::next_number))]
fn two_lemmas(alloc: Global) -> Result<Lemmas, AllocError> {
    let mut lemmas = Lemmas::new(alloc);
    lemmas.push(3, lemma_of(alloc, 1, &[(0, 7)])?)?;
    let second = lemma_of(alloc, 2, &[(1, 0)])?;
    lemmas.push(5, second)?;
    Ok(lemmas)
}

// The key of a hypothesis, if it is one.
fn key_of(alloc: Global, form: &Ssa, lemmas: &Lemmas, hyp: Hyp) -> Result<Option<Key>, AllocError> {
    let mut hyps = Hyps::new(alloc);
    hyps.push(hyp)?;
    if !has_hyps(form, lemmas, &hyps) {
        return Ok(None);
    }
    Ok(Some(order(form, &hyp, lemmas)))
}

// A level, a bit of a variable, and whether a lemma of the level may have the bit.
const LEMMAS: &[(u32, u32, u32, bool)] = &[
    (1, 1, 7, true),
    (1, 2, 0, false),
    (2, 2, 3, true),
    (2, 2, 4, false),
    (0, 0, 0, true),
    (0, 1, 0, false),
    (3, 0, 0, false),
];

fn has_lemma(
    alloc: Global,
    form: &Ssa,
    level: u32,
    bits: &[(u32, u32)],
) -> Result<bool, AllocError> {
    let lemma = lemma_of(alloc, level, bits)?;
    Ok(has_claim(form, &Claim::Lemma(lemma)))
}

fn expect_goals(rt: &impl Abort, form: &Ssa) {
    holds(rt, "the last goal", has_claim(form, &Claim::Goal(2)));
    holds(rt, "no goal", !has_claim(form, &Claim::Goal(3)));
}

fn expect_lemmas(rt: &impl Abort, alloc: Global, form: &Ssa) -> Result<(), AllocError> {
    for (level, var, bit, has) in LEMMAS {
        let found = has_lemma(alloc, form, *level, &[(*var, *bit)])?;
        expect(rt, *var, *bit, found == *has);
    }
    Ok(())
}

#[test]
fn claims(rt: HostRuntime) -> Result<(), Fail> {
    let form = form_of_text(rt.alloc(), TEXT)?;
    expect_goals(&rt, &form);
    Ok(expect_lemmas(&rt, rt.alloc(), &form)?)
}

fn expect(rt: &impl Abort, first: u32, second: u32, is_so: bool) {
    assert!(rt; is_so, "the answer at {first} and {second}");
}

fn expect_places(rt: &impl Abort, what: &str, places: &[u32], is_so: bool) {
    assert!(rt; is_so, "{what} {places:?}");
}

// Whether the lines at these places can be hypotheses.
fn has_lines(alloc: Global, form: &Ssa, places: &[u32]) -> Result<bool, AllocError> {
    let hyps = hyps_of(alloc, places)?;
    Ok(has_hyps(form, &Lemmas::new(alloc), &hyps))
}

// The places of lines, and whether all of them can be hypotheses.
const LINES: &[(&[u32], bool)] = &[
    (&[1, 2], true),
    (&[1, 2, 3], true),
    (&[0], false),
    (&[4], false),
    (&[6], false),
    (&[1, 9], false),
];

fn expect_lines(rt: &impl Abort, alloc: Global, form: &Ssa) -> Result<(), AllocError> {
    for (places, has) in LINES {
        let found = has_lines(alloc, form, places)?;
        expect_places(rt, "the lines", places, found == *has);
    }
    Ok(())
}

#[test]
fn lines_as_hypotheses(rt: HostRuntime) -> Result<(), Fail> {
    let form = form_of_text(rt.alloc(), TEXT)?;
    Ok(expect_lines(&rt, rt.alloc(), &form)?)
}

// The key of a hypothesis where there are the two lemmas.
fn key_with_lemmas(alloc: Global, form: &Ssa, hyp: Hyp) -> Result<Option<Key>, AllocError> {
    let lemmas = two_lemmas(alloc)?;
    key_of(alloc, form, &lemmas, hyp)
}

// Whether a hypothesis has this key, or none.
fn has_key(alloc: Global, form: &Ssa, hyp: Hyp, key: Option<Key>) -> Result<bool, AllocError> {
    Ok(key_with_lemmas(alloc, form, hyp)? == key)
}

// A hypothesis with its key: a line, a lemma, and what is no lemma.
const KEYS: &[(&str, Hyp, Option<Key>)] = &[
    (
        "the key of a line",
        Hyp::Line(3),
        Some(Key {
            place: 3,
            kind: 1,
            number: 0,
        }),
    ),
    (
        "the key of a lemma",
        Hyp::Lemma(5),
        Some(Key {
            place: 5,
            kind: 0,
            number: 5,
        }),
    ),
    ("no lemma", Hyp::Lemma(4), None),
];

fn expect_keys(rt: &impl Abort, alloc: Global, form: &Ssa) -> Result<(), AllocError> {
    for (what, hyp, key) in KEYS {
        let is_so = has_key(alloc, form, *hyp, *key)?;
        holds(rt, what, is_so);
    }
    Ok(())
}

#[test]
fn keys(rt: HostRuntime) -> Result<(), Fail> {
    let form = form_of_text(rt.alloc(), TEXT)?;
    Ok(expect_keys(&rt, rt.alloc(), &form)?)
}

// Whether hypotheses are in order before a goal, where there are the two lemmas.
fn has_order(alloc: Global, form: &Ssa, goal: u32, items: &[Hyp]) -> Result<bool, AllocError> {
    let mut hyps = Hyps::new(alloc);
    for hyp in items {
        hyps.push(*hyp)?;
    }
    let lemmas = two_lemmas(alloc)?;
    Ok(are_ordered(form, &lemmas, &Claim::Goal(goal), &hyps))
}

// A goal, hypotheses, and whether they are in order before it.
const ORDERS: &[(u32, &[Hyp], bool)] = &[
    (2, &[Hyp::Line(1), Hyp::Line(3)], true),
    (2, &[Hyp::Line(3), Hyp::Line(1)], false),
    (2, &[Hyp::Line(1), Hyp::Line(1)], false),
    (1, &[Hyp::Line(3)], false),
    (1, &[Hyp::Lemma(3)], true),
    (1, &[Hyp::Line(2), Hyp::Lemma(3)], true),
    (2, &[Hyp::Lemma(3), Hyp::Line(3), Hyp::Lemma(5)], true),
    (2, &[Hyp::Line(3), Hyp::Lemma(3)], false),
    (0, &[Hyp::Lemma(3)], false),
];

fn expect_orders(rt: &impl Abort, alloc: Global, form: &Ssa) -> Result<(), AllocError> {
    for (goal, items, is_ordered) in ORDERS {
        let found = has_order(alloc, form, *goal, items)?;
        expect(rt, *goal, items.len() as u32, found == *is_ordered);
    }
    Ok(())
}

#[test]
fn order_of_hypotheses(rt: HostRuntime) -> Result<(), Fail> {
    let form = form_of_text(rt.alloc(), TEXT)?;
    Ok(expect_orders(&rt, rt.alloc(), &form)?)
}

// A goal, places, and whether they can be the uses of a fact of the goal.
const USES: &[(u32, &[u32], bool)] = &[
    (2, &[2, 4], true),
    (2, &[4, 2], false),
    (2, &[2, 2], false),
    (2, &[3], false),
    (2, &[0], false),
    (2, &[7], false),
    (0, &[2], false),
    (1, &[2], true),
    (1, &[4], false),
];

fn has_uses(alloc: Global, form: &Ssa, goal: u32, places: &[u32]) -> Result<bool, AllocError> {
    let uses = uses_of(alloc, places)?;
    Ok(are_uses(form, &Claim::Goal(goal), &uses))
}

fn expect_uses(rt: &impl Abort, alloc: Global, form: &Ssa) -> Result<(), AllocError> {
    for (goal, places, is_right) in USES {
        let found = has_uses(alloc, form, *goal, places)?;
        expect_places(rt, "the uses", places, found == *is_right);
    }
    Ok(())
}

#[test]
fn uses(rt: HostRuntime) -> Result<(), Fail> {
    let form = form_of_text(rt.alloc(), TEXT)?;
    Ok(expect_uses(&rt, rt.alloc(), &form)?)
}

// A goal, bits of variables, and whether they can be the cube of a fact of the goal.
const CUBES: &[(u32, &[(u32, u32)], bool)] = &[
    (2, &[(0, 7), (0, 6)], true),
    (2, &[(0, 7), (0, 7)], false),
    (2, &[(0, 8)], false),
    (2, &[(2, 3)], true),
    (2, &[(2, 4)], false),
    (2, &[(3, 0)], false),
    (1, &[(1, 0)], true),
    (1, &[(2, 0)], false),
    (0, &[(1, 0)], false),
    (0, &[(0, 0)], true),
];

fn has_cube(alloc: Global, form: &Ssa, goal: u32, bits: &[(u32, u32)]) -> Result<bool, AllocError> {
    let cube = cube_of(alloc, bits)?;
    Ok(is_cube(form, &Claim::Goal(goal), &cube))
}

fn expect_cubes(rt: &impl Abort, alloc: Global, form: &Ssa) -> Result<(), AllocError> {
    for (goal, bits, is_right) in CUBES {
        let found = has_cube(alloc, form, *goal, bits)?;
        expect(rt, *goal, bits.len() as u32, found == *is_right);
    }
    Ok(())
}

#[test]
fn cubes(rt: HostRuntime) -> Result<(), Fail> {
    let form = form_of_text(rt.alloc(), TEXT)?;
    Ok(expect_cubes(&rt, rt.alloc(), &form)?)
}
