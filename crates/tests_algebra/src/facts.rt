//! The equations of facts as texts.

ghost use Rattle.std.specs.Prelude.{◌≡◌, true, is_some};
ghost use Rattle.tcl_goals.specs.Keys as keys;
ghost use Rattle.tcl_goals.specs.Order as orders;
ghost use Rattle.tcl_algebra.specs.Ends as ends;

use crate::polys::write_equations;
use crate::tables::FACTS;
use std::alloc::{AllocError, Global};
use std::process::Abort;
use std::test::Fail;
use tcl_algebra::{AlgebraEnd, claim_equation, claim_modulus, equations, has_wide_modulus};
use tcl_goals::{Claim, Cube, Fact, Hyp, Hyps, Lemmas, Uses, are_uses, goal_place};
use tcl_lang::{Line, Ssa};
use tcl_parse::parse;
use tcl_port::What;
use tcl_ring::{Residue, Ring, Whole};
use tcl_ssa::ssa;
use tcl_types::check;

// The form of a text.
pub(crate) fn form_of(alloc: Global, text: &str) -> Result<Ssa, Fail> {
    let parsed = parse(alloc, text.as_bytes())?;
    match check(alloc, parsed) {
        Ok(typed) => Ok(ssa(alloc, &typed)?),
        Err(_) => Err("an ill-typed program")?,
    }
}

// The lines before this place that can be hypotheses.
fn hyps_before(alloc: Global, lines: &[Line], place: u32) -> Result<Hyps, AllocError> {
    let mut hyps = Hyps::new(alloc);
    for k in 0..place {
        if let Some(line) = lines.get(k as usize) {
            if line.is_hypothesis() {
                hyps.push(Hyp::Line(k))?;
            }
        }
    }
    Ok(hyps)
}

// The instructions before this place.
fn uses_before(alloc: Global, lines: &[Line], place: u32) -> Result<Uses, AllocError> {
    let mut uses = Uses::new(alloc);
    for k in 0..place {
        if let Some(Line::Step(_)) = lines.get(k as usize) {
            uses.push(k)?;
        }
    }
    Ok(uses)
}

// The fact that a goal follows from all before it, without hypotheses where none are assumed.
fn fact_of(alloc: Global, form: &Ssa, goal: u32, assumed: bool) -> Result<Fact, AllocError> {
    let lines = form.lines().as_slice();
    let place = goal_place(lines, goal) as u32;
    let hyps = hyps_before(alloc, lines, if assumed { place } else { 0 })?;
    let uses = uses_before(alloc, lines, place)?;
    Ok(Fact {
        claim: Claim::Goal(goal),
        hyps,
        cube: Cube::new(alloc),
        uses,
    })
}

// The equations of a fact over a ring, or how they end.
fn text_over<R: Ring + Copy>(
    alloc: Global,
    ring: &R,
    form: &Ssa,
    lemmas: &Lemmas,
    fact: &Fact,
) -> Result<String, AllocError>
    requires claim { is_some (ends.claim_equation form.now fact.now.claim) ≡ true }
    requires ring { ends.IsRingOf (R.modulus_of ring.now) (ends.claim_equation form.now fact.now.claim) }
    requires uses { orders.are_uses form.now.lines (keys.claim_place form.now.lines fact.now.claim) fact.now.uses ≡ true }
{
    let mut text = String::new(alloc);
    match equations(alloc, ring, form, lemmas, fact) {
        Ok(found) => write_equations(&mut text, ring, &found)?,
        Err(AlgebraEnd::Wide) => text.push_str("wide")?,
        Err(AlgebraEnd::Large(What::Degree, n)) => write!(&mut text, "degree {n}")?,
        Err(AlgebraEnd::Large(_, n)) => write!(&mut text, "terms {n}")?,
        Err(AlgebraEnd::Memory) => return Err(AllocError),
    }
    Ok(text)
}

// The same over the ring of the claim.
pub(crate) fn text_of(
    alloc: Global,
    form: &Ssa,
    lemmas: &Lemmas,
    fact: &Fact,
) -> Result<String, Fail> {
    let claim = match claim_equation(form, &fact.claim) {
        Some(claim) => claim,
        None => Err("a claim without an equation")?,
    };
    if !are_uses(form, &fact.claim, &fact.uses) {
        Err("uses out of order")?;
    }
    if has_wide_modulus(&claim.modulus) {
        return Ok(text_over(alloc, &Whole, form, lemmas, fact)?);
    }
    let text = match claim_modulus(claim) {
        None => text_over(alloc, &Whole, form, lemmas, fact)?,
        Some(modulus) => text_over(alloc, &Residue { modulus }, form, lemmas, fact)?,
    };
    Ok(text)
}

// The same of a goal of a text.
pub(crate) fn equations_of(
    alloc: Global,
    text: &str,
    goal: u32,
    assumed: bool,
) -> Result<String, Fail> {
    let form = form_of(alloc, text)?;
    let fact = fact_of(alloc, &form, goal, assumed)?;
    let lemmas = Lemmas::new(alloc);
    text_of(alloc, &form, &lemmas, &fact)
}

#[test]
fn equations_of_facts(rt: HostRuntime) -> Result<(), Fail> {
    let alloc = rt.alloc();
    for (text, goal, assumed, expected) in FACTS {
        let answer = equations_of(alloc, text, *goal, *assumed)?;
        assert_eq!(&rt; answer.as_str(), *expected);
    }
    Ok(())
}
