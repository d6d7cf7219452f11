// Facts with their certificates. The reference, a second implementation of the checks, gave the answers.

use crate::forms::{form_of_text, word_of};
use std::alloc::{AllocError, Global};
use std::process::Abort;
use std::test::Fail;
use tcl_goals::{BitLit, Claim, Cube, Fact, Hyp, Hyps, Lemmas, Shown, Uses};
use tcl_kernel::{Answer, Cert, Facts, check};

// Its goals stand at the places 4, 5, 6, 8, 9, 10 and 11; its variables are x, y, z, k of four bits, h, l and w.
const TEXT: &str =
    "in u8 x\nin u8 y\npre rng x < 100@u8\nassume rng y <= 50@u8\nadd u8 z x y\nassert alg z = x + y\ncut rng z < 150@u8\nnondet u4 k\nsplit u8 h l z 4\nassert alg 16*h + l = z mod 2**200\nadd u8 w z 1@u8\npost rng w > 0@u8\nend";

// A goal, the places of the hypotheses, the bits of the cube, the places of the uses, whether the certificate is by
// enumeration, and the answer. Where two parts are faulty, the first in the order of reasons counts.
const FACTS: &[(u32, &[u32], &[(u32, u32, bool)], &[u32], bool, &str)] = &[
    (0, &[2, 3], &[], &[], false, "proof"),
    (0, &[2], &[], &[], false, "bounds"),
    (0, &[2, 3], &[], &[], true, "proof"),
    (0, &[2], &[], &[], true, "enum"),
    (0, &[2], &[(1, 7, false)], &[], true, "proof"),
    (0, &[2], &[(1, 7, false), (1, 6, false)], &[], true, "proof"),
    (0, &[2], &[(1, 7, true)], &[], true, "enum"),
    (1, &[2, 3, 4], &[], &[4], false, "bounds"),
    (1, &[2, 3, 4], &[], &[4], true, "proof"),
    (1, &[4], &[], &[4], true, "proof"),
    (1, &[2, 3], &[], &[], true, "enum"),
    (2, &[2, 3], &[], &[4], false, "proof"),
    (2, &[2, 3], &[], &[4], true, "proof"),
    (2, &[2, 3], &[], &[], false, "bounds"),
    (3, &[], &[], &[8], true, "enum"),
    (4, &[6], &[], &[], false, "proof"),
    (4, &[], &[], &[], false, "bounds"),
    (5, &[6], &[], &[10], false, "proof"),
    (5, &[6], &[], &[10], true, "proof"),
    (5, &[], &[], &[10], true, "enum"),
    (5, &[9], &[], &[10], true, "enum"),
    (6, &[2], &[], &[], false, "claim"),
    (6, &[12], &[], &[], true, "claim"),
    (0, &[0], &[], &[], false, "hyp"),
    (0, &[12], &[], &[], false, "hyp"),
    (0, &[4], &[], &[], false, "order"),
    (0, &[5], &[], &[], false, "order"),
    (0, &[3, 2], &[], &[], false, "order"),
    (0, &[2, 2], &[], &[], false, "order"),
    (0, &[2, 3], &[], &[4], false, "uses"),
    (1, &[2, 3, 4], &[], &[5], false, "uses"),
    (2, &[2, 3], &[], &[4, 4], false, "uses"),
    (5, &[6], &[], &[10, 8], false, "uses"),
    (5, &[6], &[], &[7, 8, 10], false, "proof"),
    (0, &[2, 3], &[(0, 8, false)], &[], false, "cube"),
    (0, &[2, 3], &[(2, 0, false)], &[], false, "cube"),
    (
        0,
        &[2, 3],
        &[(0, 1, false), (0, 1, true)],
        &[],
        false,
        "cube",
    ),
    (
        0,
        &[2, 3],
        &[(0, 1, false), (1, 1, true)],
        &[],
        false,
        "proof",
    ),
    (6, &[0], &[], &[], false, "claim"),
    (0, &[0, 2], &[], &[4], false, "hyp"),
    (0, &[3, 2], &[], &[4], false, "order"),
    (0, &[2, 3], &[(9, 0, false)], &[4], false, "uses"),
    (0, &[2], &[(9, 0, false)], &[], false, "cube"),
    (1, &[4], &[(2, 9, false)], &[4], false, "cube"),
    (1, &[3, 5], &[], &[9], true, "order"),
    (5, &[3, 6], &[], &[10], true, "proof"),
    (5, &[2, 3, 6], &[], &[10], true, "enum"),
    (5, &[2, 3, 6], &[], &[10], false, "proof"),
    (5, &[2, 3, 6], &[], &[4, 10], true, "proof"),
];

pub(crate) fn hyps_of(alloc: Global, places: &[u32]) -> Result<Hyps, AllocError> {
    let mut hyps = Hyps::new(alloc);
    for place in places {
        hyps.push(Hyp::Line(*place))?;
    }
    Ok(hyps)
}

fn cube_of(alloc: Global, bits: &[(u32, u32, bool)]) -> Result<Cube, AllocError> {
    let mut cube = Cube::new(alloc);
    for (var, bit, value) in bits {
        cube.push(BitLit {
            var: *var,
            bit: *bit,
            value: *value,
        })?;
    }
    Ok(cube)
}

pub(crate) fn uses_of(alloc: Global, places: &[u32]) -> Result<Uses, AllocError> {
    let mut uses = Uses::new(alloc);
    for place in places {
        uses.push(*place)?;
    }
    Ok(uses)
}

fn certificate(is_enumerated: bool) -> Cert {
    if is_enumerated {
        Cert::Enumerated
    } else {
        Cert::Bounds
    }
}

#[test]
fn answers_on_facts(rt: HostRuntime) -> Result<(), Fail> {
    let alloc = rt.alloc();
    let form = form_of_text(alloc, TEXT)?;
    let earlier = Facts::of(alloc, &form, &Lemmas::new(alloc))?;
    for (goal, hyps, bits, uses, is_enumerated, expected) in FACTS {
        let fact = Fact {
            claim: Claim::Goal(*goal),
            hyps: hyps_of(alloc, hyps)?,
            cube: cube_of(alloc, bits)?,
            uses: uses_of(alloc, uses)?,
        };
        let answer = check(alloc, &form, &earlier, fact, certificate(*is_enumerated));
        let word = word_of(&answer);
        assert!(&rt;
            word == *expected,
            "goal {goal} from {hyps:?} by {uses:?}: {word}, not {expected}"
        );
    }
    Ok(())
}

#[test]
fn proofs_show_their_facts(rt: HostRuntime) -> Result<(), Fail> {
    let alloc = rt.alloc();
    let form = form_of_text(alloc, TEXT)?;
    let earlier = Facts::of(alloc, &form, &Lemmas::new(alloc))?;
    let fact = Fact {
        claim: Claim::Goal(0),
        hyps: hyps_of(alloc, &[2, 3])?,
        cube: Cube::new(alloc),
        uses: Uses::new(alloc),
    };
    let answer = check(alloc, &form, &earlier, fact, Cert::Bounds);
    let is_shown = match &answer {
        Answer::Proof(proof) => match proof.shown() {
            Shown::Fact(fact) => fact.hyps.len() == 2 && proof.cited().is_empty(),
            Shown::Breaks(_, _) => false,
        },
        _ => false,
    };
    assert!(&rt; is_shown, "the fact of the proof");
    Ok(())
}
