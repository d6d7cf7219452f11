//! The bits that cubes name.

ghost use Rattle.std.specs.Prelude.{◌≡◌, nat_eq, nat_le, ◌&&◌, Ok, length, OnOk, IfOk};
ghost use Rattle.std.specs.List.{list_any};
ghost use Rattle.tcl_goals.specs.Order as orders;
ghost use Rattle.tcl_cubes.specs.Covering as covering;

use std::alloc::{AllocError, Global};
use tcl_goals::{BitLit, Cube};

/// Whether the cubes name at most so many different bits. The only error is that memory has run out.
#[tactic(auto, unfolding(crate::specs::Covering::named_in))]
pub fn names_at_most(alloc: Global, cubes: &[Cube], limit: usize) -> Result<bool, AllocError>
    ensures { IfOk result (λ b. b ≡ nat_le (covering.count_bits cubes.now) limit) }
{
    let mut named = Vec::new(alloc);
    for k in 0..cubes.len() {
        if named.len() > limit {
            return Ok(false);
        }
        add_bits(&mut named, cubes[k].as_slice())?;
    }
    Ok(named.len() <= limit)
}

/// Adds each bit that is not yet among those named.
#[tactic(auto, unfolding(crate::specs::Covering::named_after))]
fn add_bits(named: &mut Vec<BitLit>, bits: &[BitLit]) -> Result<(), AllocError>
    ensures { OnOk result (named.new.items ≡ covering.named_after named.old.items bits.now) }
{
    for k in 0..bits.len() {
        if !is_named(named, &bits[k]) {
            named.push(bits[k])?;
        }
    }
    Ok(())
}

/// Whether the bit of the literal is among those named.
fn is_named(named: &[BitLit], literal: &BitLit) -> bool
    ensures { result ≡ list_any (orders.same_bit literal.now) named.now }
{
    named.iter().any(|other| same_bit(literal, other))
}

/// Whether two literals are of the same bit of the same variable.
pub(crate) fn same_bit(a: &BitLit, b: &BitLit) -> bool
    ensures { result ≡ orders.same_bit a.now b.now }
{
    a.var == b.var && a.bit == b.bit
}
