//! Covering, decided by a split on one bit after the other.

ghost use Rattle.std.specs.Prelude.{◌≡◌, [], length, IfOk, option_copied};
ghost use Rattle.std.specs.List.{list_any};
ghost use Rattle.tcl_goals.specs.declared.fact.BitLit.{BitLit as Literal};
ghost use Rattle.tcl_cubes.specs.Covering as covering;

use crate::bits::same_bit;
use std::alloc::{AllocError, Global};
use tcl_goals::{BitLit, Cube};
use tcl_list::Listing;

/// Whether by at most so many splits each assignment that meets the cube is seen to meet one of the cubes. Where the cubes
/// name no more bits than that, and no bit stands twice in the cube, this is so exactly where they cover it.
///
/// A split takes one bit, the first of the first cube, and keeps on either side the cubes that do not contradict it. Where
/// the cubes are the leaves of a tree of splits in the order of their bits it looks at each of them once a level. The only
/// error is that memory has run out.
#[tactic(auto, unfolding(crate::specs::Covering::restricted_by))]
pub fn are_covering(
    alloc: Global,
    cube: &[BitLit],
    cubes: &[Cube],
    splits: u32,
) -> Result<bool, AllocError>
    ensures { IfOk result (λ b. b ≡ covering.are_covering splits cube.now cubes.now) }
{
    let mut left = copies(alloc, cubes)?;
    for k in 0..cube.len() {
        left = restricted(alloc, &left, cube[k])?;
    }
    covers_all(alloc, &left, splits)
}

/// Equal cubes. The only error is that memory has run out.
fn copies(alloc: Global, cubes: &[Cube]) -> Result<Vec<Cube>, AllocError>
    ensures { IfOk result (λ all. all.items ≡ cubes.now) }
{
    let mut all = Vec::new(alloc);
    for cube in cubes {
        all.push(cube.copy()?)?;
    }
    Ok(all)
}

/// Whether by at most so many splits the cubes are seen to cover all assignments. The only error is that memory has run out.
#[tactic(auto, unfolding(crate::specs::Covering::covers_all))]
fn covers_all(alloc: Global, cubes: &[Cube], splits: u32) -> Result<bool, AllocError>
    ensures { IfOk result (λ b. b ≡ covering.covers_all splits cubes.now) }
{
    if has_empty(cubes) {
        return Ok(true);
    }
    if splits == 0 {
        return Ok(false);
    }
    match first_literal(cubes) {
        Some(literal) => {
            let with = restricted(alloc, cubes, valued(literal, true))?;
            let without = restricted(alloc, cubes, valued(literal, false))?;
            Ok(covers_all(alloc, &with, splits - 1)? && covers_all(alloc, &without, splits - 1)?)
        }
        None => Ok(false),
    }
}

/// The literal of the same bit with this value.
fn valued(literal: BitLit, value: bool) -> BitLit
    ensures { result ≡ record { var = literal.var; bit = literal.bit; value = value } }
{
    BitLit { value, ..literal }
}

/// The cubes that do not contradict the literal, without its bit. The only error is that memory has run out.
#[tactic(auto, unfolding(crate::specs::Covering::restricted))]
fn restricted(alloc: Global, cubes: &[Cube], literal: BitLit) -> Result<Vec<Cube>, AllocError>
    ensures { IfOk result (λ kept. kept.items ≡ covering.restricted literal cubes.now) }
{
    let mut kept = Vec::new(alloc);
    for k in 0..cubes.len() {
        if !is_contradicted(&literal, cubes[k].as_slice()) {
            kept.push(without(alloc, &literal, cubes[k].as_slice())?)?;
        }
    }
    Ok(kept)
}

/// The literals of other bits. The only error is that memory has run out.
#[tactic(auto, unfolding(crate::specs::Covering::without))]
fn without(alloc: Global, literal: &BitLit, bits: &[BitLit]) -> Result<Cube, AllocError>
    ensures { IfOk result (λ kept. kept ≡ covering.without literal.now bits.now) }
{
    let mut kept = Listing::new(alloc);
    for k in 0..bits.len() {
        if !same_bit(literal, &bits[k]) {
            kept.push(bits[k])?;
        }
    }
    Ok(kept)
}

/// Whether one of the literals gives the bit the other value.
fn is_contradicted(literal: &BitLit, bits: &[BitLit]) -> bool
    ensures { result ≡ list_any (covering.contradicts literal.now) bits.now }
{
    bits.iter().any(|other| contradicts(literal, other))
}

/// Whether two literals are of the same bit, with different values.
fn contradicts(a: &BitLit, b: &BitLit) -> bool
    ensures { result ≡ covering.contradicts a.now b.now }
{
    same_bit(a, b) && a.value != b.value
}

/// Whether one of the cubes has no literal.
fn has_empty(cubes: &[Cube]) -> bool
    ensures { result ≡ list_any covering.is_empty cubes.now }
{
    cubes.iter().any(|cube| is_empty(cube))
}

/// Whether the cube has no literal.
fn is_empty(cube: &Cube) -> bool
    ensures { result ≡ covering.is_empty cube.now }
{
    match cube.as_slice() {
        [] => true,
        _ => false,
    }
}

/// The first literal of the first cube.
fn first_literal(cubes: &[Cube]) -> Option<BitLit>
    ensures { result ≡ covering.first_literal cubes.now }
{
    match cubes {
        [first, ..] => match first.as_slice() {
            [literal, ..] => Some(*literal),
            [] => None,
        },
        [] => None,
    }
}
