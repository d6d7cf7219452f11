// Forms of the programs of the table, and facts over them.

use crate::programs::programs;
use std::alloc::{AllocError, Global};
use std::test::Fail;
use tcl_goals::{Claim, Cube, Fact, Hyp, Hyps, Uses};
use tcl_lang::Ssa;
use tcl_parse::parse;
use tcl_ssa::ssa;
use tcl_types::check;

// The form of a text.
pub(crate) fn form_of_text(alloc: Global, text: &str) -> Result<Ssa, Fail> {
    let parsed = parse(alloc, text.as_bytes())?;
    match check(alloc, parsed) {
        Ok(typed) => Ok(ssa(alloc, &typed)?),
        Err(_) => Err("an ill-typed program")?,
    }
}

// The form of a program of the table.
pub(crate) fn form_of(alloc: Global, program: usize) -> Result<Ssa, Fail> {
    match programs().get(program) {
        Some((text, _)) => form_of_text(alloc, text),
        None => Err("no such program")?,
    }
}

pub(crate) fn hyps_of(alloc: Global, places: &[u32]) -> Result<Hyps, AllocError> {
    let mut hyps = Hyps::new(alloc);
    for place in places {
        hyps.push(Hyp::Line(*place))?;
    }
    Ok(hyps)
}

pub(crate) fn uses_of(alloc: Global, places: &[u32]) -> Result<Uses, AllocError> {
    let mut uses = Uses::new(alloc);
    for place in places {
        uses.push(*place)?;
    }
    Ok(uses)
}

// The fact that a goal follows from these lines by these instructions.
pub(crate) fn fact_of(
    alloc: Global,
    goal: u32,
    hyps: &[u32],
    uses: &[u32],
) -> Result<Fact, AllocError> {
    Ok(Fact {
        claim: Claim::Goal(goal),
        hyps: hyps_of(alloc, hyps)?,
        cube: Cube::new(alloc),
        uses: uses_of(alloc, uses)?,
    })
}
