// The clauses of the fact of a goal behind one product.

ghost use Rattle.std.specs.Prelude.{◌≡◌};
ghost use Rattle.tcl_blast.specs.Models.{is_algebraic_claim};

use std::alloc::{AllocError, Global};
use tcl_blast::{BlastEnd, clauses};
use tcl_goals::{Claim, Lemmas, goal_place, has_goal};
use tcl_lang::Ssa;
use tcl_parse::parse;
use tcl_slice::whole;
use tcl_ssa::ssa;
use tcl_types::check;

/// Makes the clauses of the product of two words of so many bits, so many times, and says how many they are.
pub(crate) fn blast_text(alloc: Global, width: u32, times: u32) -> Result<String, AllocError> {
    let program = format!(in alloc;
        "in u{width} a\nin u{width} b\nmull u{width} h l a b\nassert rng true\nend\n"
    )?;
    let mut count = None;
    if let Some(form) = form_of(alloc, &program)? {
        for _ in 0..times {
            count = count_of(alloc, &form)?;
        }
    }
    match count {
        Some(count) => format!(in alloc; "clauses {count}\n"),
        None => format!(in alloc; "no clauses\n"),
    }
}

/// The form of a text, if it is a program.
pub(crate) fn form_of(alloc: Global, text: &str) -> Result<Option<Ssa>, AllocError> {
    let Ok(parsed) = parse(alloc, text.as_bytes()) else {
        return Ok(None);
    };
    let Ok(typed) = check(alloc, parsed) else {
        return Ok(None);
    };
    Ok(Some(ssa(alloc, &typed)?))
}

/// Whether the claim is an equation.
fn is_algebraic(form: &Ssa, claim: &Claim) -> bool
    ensures { result ≡ is_algebraic_claim form.now claim.now }
{
    match claim {
        Claim::Goal(goal) => {
            let lines = form.lines().as_slice();
            match lines.get(goal_place(lines, *goal)) {
                Some(line) => line.is_algebraic(),
                None => false,
            }
        }
        Claim::Lemma(_) => false,
    }
}

/// The number of clauses of the whole fact of goal 0, if there are not too many.
fn count_of(alloc: Global, form: &Ssa) -> Result<Option<usize>, AllocError> {
    if !has_goal(form.lines().as_slice(), 0) {
        return Ok(None);
    }
    let fact = whole(alloc, form, 0)?;
    if is_algebraic(form, &fact.claim) {
        return Ok(None);
    }
    match clauses(alloc, form, &fact, &Lemmas::new(alloc)) {
        Ok(cnf) => Ok(Some(cnf.len())),
        Err(BlastEnd::TooMany(_)) => Ok(None),
        Err(BlastEnd::Memory) => Err(AllocError),
    }
}
