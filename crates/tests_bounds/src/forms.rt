// Forms of programs, and facts over them.

use std::alloc::{AllocError, Global};
use std::test::Fail;
use tcl_bounds::{bounds, follows};
use tcl_goals::{Claim, Cube, Fact, Hyp, Hyps, Uses};
use tcl_lang::{Line, Ssa};
use tcl_parse::parse;
use tcl_ssa::ssa;
use tcl_types::check;

// The form of a text.
pub(crate) fn form_of(alloc: Global, text: &str) -> Result<Ssa, Fail> {
    let parsed = parse(alloc, text.as_bytes())?;
    match check(alloc, parsed) {
        Ok(typed) => Ok(ssa(alloc, &typed)?),
        Err(_) => Err("an ill-typed program")?,
    }
}

// The lines before this place that can be hypotheses.
fn hyps_before(alloc: Global, lines: &[Line], place: u32) -> Result<Hyps, AllocError> {
    let mut hyps = Hyps::new(alloc);
    for k in 0..place {
        if let Some(line) = lines.get(k as usize) {
            if line.is_hypothesis() {
                hyps.push(Hyp::Line(k))?;
            }
        }
    }
    Ok(hyps)
}

// The instructions before this place.
fn uses_before(alloc: Global, lines: &[Line], place: u32) -> Result<Uses, AllocError> {
    let mut uses = Uses::new(alloc);
    for k in 0..place {
        if let Some(Line::Step(_)) = lines.get(k as usize) {
            uses.push(k)?;
        }
    }
    Ok(uses)
}

// The fact that the claim follows from all before this place.
pub(crate) fn fact_at(
    alloc: Global,
    form: &Ssa,
    claim: Claim,
    place: u32,
) -> Result<Fact, AllocError> {
    let lines = form.lines().as_slice();
    let hyps = hyps_before(alloc, lines, place)?;
    let uses = uses_before(alloc, lines, place)?;
    Ok(Fact {
        claim,
        hyps,
        cube: Cube::new(alloc),
        uses,
    })
}

// Whether the claim follows from all before this place.
pub(crate) fn follows_at(
    alloc: Global,
    form: &Ssa,
    claim: Claim,
    place: u32,
) -> Result<bool, AllocError> {
    let fact = fact_at(alloc, form, claim, place)?;
    let found = bounds(alloc, form, &fact)?;
    Ok(follows(&found, form, &fact.claim))
}
