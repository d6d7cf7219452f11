// The goals of butterflies, each by the plain reduction of its whole fact.

ghost use Rattle.std.specs.Prelude.{◌≡◌, true, is_some, IsTrue};
ghost use Rattle.tcl_goals.specs.Keys.{claim_place};
ghost use Rattle.tcl_goals.specs.Order as orders;
ghost use Rattle.tcl_algebra.specs.Ends as ends;

use crate::blasting::form_of;
use std::alloc::{AllocError, Global};
use tcl_algebra::claim_equation;
use tcl_goals::{Fact, Lemmas, are_uses, goals, has_goal, is_algebraic_goal};
use tcl_lang::Ssa;
use tcl_plain::{Outcome, reduce};
use tcl_slice::whole;

/// Reduces each algebraic goal of so many butterflies, and says how many goals these are and of how many nothing is left.
pub(crate) fn butterflies_text(alloc: Global, count: u32) -> Result<String, AllocError> {
    let program = program_text(alloc, count)?;
    match form_of(alloc, &program)? {
        Some(form) => counts_text(alloc, &form),
        None => String::from_str(alloc, "no program\n"),
    }
}

/// All inputs, and then the instructions and goals of each butterfly.
fn program_text(alloc: Global, count: u32) -> Result<String, AllocError> {
    let mut text = String::new(alloc);
    for k in 0..count {
        write!(&mut text, "in s16 a{k}\nin s16 b{k}\nin s16 z{k}\n")?;
    }
    for k in 0..count {
        push_steps(&mut text, k)?;
        push_goals(&mut text, k)?;
    }
    write!(&mut text, "end\n")?;
    Ok(text)
}

/// The product, and its sum and difference with the first input.
fn push_steps(text: &mut String, k: u32) -> Result<(), AllocError> {
    write!(
        text,
        "mulj s16 product{k} b{k} z{k}\ncast s32 wide{k} a{k}\n"
    )?;
    write!(
        text,
        "add s32 sum{k} wide{k} product{k}\nsub s32 rest{k} wide{k} product{k}\n"
    )?;
    Ok(())
}

/// The sum and the difference, over the integers and modulo 3329.
fn push_goals(text: &mut String, k: u32) -> Result<(), AllocError> {
    for modulus in ["", " mod 3329"] {
        write!(text, "assert alg sum{k} = a{k} + b{k} * z{k}{modulus}\n")?;
        write!(text, "assert alg rest{k} = a{k} - b{k} * z{k}{modulus}\n")?;
    }
    Ok(())
}

fn counts_text(alloc: Global, form: &Ssa) -> Result<String, AllocError> {
    let mut count = 0_u32;
    let mut zeros = 0_u32;
    let all = goals(alloc, form)?;
    for goal in all.as_slice() {
        if is_algebraic_goal(form.lines().as_slice(), goal.number) {
            count = count.saturating_add(1);
            zeros = zeros.saturating_add(zero_of(alloc, form, goal.number)?);
        }
    }
    format!(in alloc; "goals {count} zeros {zeros}\n")
}

/// 1 where the reduction of the goal's whole fact leaves nothing, else 0.
fn zero_of(alloc: Global, form: &Ssa, goal: u32) -> Result<u32, AllocError> {
    if !has_goal(form.lines().as_slice(), goal) {
        return Ok(0);
    }
    let fact = whole(alloc, form, goal)?;
    if !is_reducible(form, &fact) {
        return Ok(0);
    }
    match reduce(alloc, form, &Lemmas::new(alloc), &fact)? {
        Outcome::Zero(_) => Ok(1),
        _ => Ok(0),
    }
}

/// Whether the claim is an equation, and the uses are in order.
fn is_reducible(form: &Ssa, fact: &Fact) -> bool
    ensures claim { IsTrue result → is_some (ends.claim_equation form.now fact.now.claim) ≡ true }
    ensures uses { IsTrue result →
        orders.are_uses form.now.lines (claim_place form.now.lines fact.now.claim) fact.now.uses ≡ true }
{
    claim_equation(form, &fact.claim).is_some() && are_uses(form, &fact.claim, &fact.uses)
}
