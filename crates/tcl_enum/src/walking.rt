//! The walk through all assignments of the free bits of a fact.

ghost use Rattle.std.specs.Prelude.{◌≡◌, ◌≤◌, IfOk, length, pos, replicate, true};
ghost use Rattle.tcl_lang.specs.Form.{IsWellFormed};
ghost use Rattle.tcl_lang.specs.Values.{AreValues};
ghost use Rattle.tcl_goals.specs.Free.{free_bits, free_variables};
ghost use Rattle.tcl_goals.specs.Order.{InOrder};
ghost use Rattle.tcl_enum.specs.NarrowFact.{is_narrow_fact};
ghost use Rattle.tcl_enum.specs.Patterns as patterns;
ghost use Rattle.tcl_enum.specs.Enumeration.{IsEnd, ended_by, ended_of, first_denial};

use crate::assigning::{free_values, give, recompute};
use crate::denial::is_denied;
use crate::ended::{Ended, FreeValues};
use crate::narrow::is_narrow_fact;
use std::alloc::{AllocError, Global};
use tcl_goals::{Fact, Lemmas, free_bits, free_variables};
use tcl_lang::Ssa;

/// Whether the claim holds in every assignment of the free bits in which the hypotheses and the cube hold; else the first
/// assignment that denies it, where the first free variable counts most, each by its bit pattern as an unsigned number.
/// `Wide` is looked for first: the size bound of an equation of the fact is not below `2^126`, or its modulus is wide.
/// `Memory` is that memory has run out.
pub fn enumerate(alloc: Global, ssa: &Ssa, fact: &Fact, lemmas: &Lemmas) -> Ended
    requires order { InOrder ssa.now lemmas.now.items fact.now }
    requires few { length (free_bits ssa.now lemmas.now.items fact.now) ≤ 20 }
    ensures { IsEnd (ended_of ssa.now lemmas.now.items fact.now) result }
{
    if !is_narrow_fact(ssa, fact) {
        return Ended::Wide;
    }
    match walk(alloc, ssa, fact, lemmas) {
        Ok(ended) => ended,
        Err(_) => Ended::Memory,
    }
}

/// The same of a fact whose equations are not wide. The only error is that memory has run out.
fn walk(alloc: Global, ssa: &Ssa, fact: &Fact, lemmas: &Lemmas) -> Result<Ended, AllocError>
    requires order { InOrder ssa.now lemmas.now.items fact.now }
    requires few { length (free_bits ssa.now lemmas.now.items fact.now) ≤ 20 }
    requires narrow { is_narrow_fact ssa.now fact.now ≡ true }
    ensures { IfOk result (λ ended. ended ≡ ended_by ssa.now lemmas.now.items fact.now (first_denial ssa.now lemmas.now.items fact.now)) }
{
    let bits = free_bits(alloc, ssa, lemmas, fact)?.len() as u32;
    let free = free_variables(alloc, ssa, lemmas, fact)?;
    let count = ssa.variables().len();
    let mut values = vec![in alloc; 0i128; count]?;
    match denial_from_zeros(ssa, fact, lemmas, free.as_slice(), bits, &mut values) {
        None => Ok(Ended::All),
        Some(n) => Ok(Ended::Fails(listed(alloc, ssa, free.as_slice(), n)?)),
    }
}

/// The free variables with their values in assignment `n`. The only error is that memory has run out.
fn listed(alloc: Global, ssa: &Ssa, free: &[u32], n: u32) -> Result<FreeValues, AllocError>
    requires { patterns.bit_count ssa.now.variables free.now ≤ 20 }
    ensures { IfOk result (λ values. values ≡ patterns.values_numbered ssa.now.variables free.now n) }
{
    free_values(alloc, ssa.variables().as_slice(), free, n)
}

/// The number of the first assignment that denies the fact, in values that are all 0 before it.
fn denial_from_zeros(
    ssa: &Ssa,
    fact: &Fact,
    lemmas: &Lemmas,
    free: &[u32],
    bits: u32,
    values: &mut [i128],
) -> Option<u32>
    requires order { InOrder ssa.now lemmas.now.items fact.now }
    requires narrow { is_narrow_fact ssa.now fact.now ≡ true }
    requires free { free.now ≡ free_variables ssa.now lemmas.now.items fact.now }
    requires bits { bits ≡ length (free_bits ssa.now lemmas.now.items fact.now) }
    requires few { bits ≤ 20 }
    requires begins { values.old ≡ replicate (length ssa.now.variables) (pos 0) }
    ensures { result ≡ first_denial ssa.now lemmas.now.items fact.now }
{
    let _lines = ssa.lines();
    first_denial(ssa, fact, lemmas, free, bits, values)
}

/// The number of the first assignment that denies the fact, in values that are written anew in each turn.
fn first_denial(
    ssa: &Ssa,
    fact: &Fact,
    lemmas: &Lemmas,
    free: &[u32],
    bits: u32,
    values: &mut [i128],
) -> Option<u32>
    requires formed { IsWellFormed ssa.now }
    requires order { InOrder ssa.now lemmas.now.items fact.now }
    requires narrow { is_narrow_fact ssa.now fact.now ≡ true }
    requires free { free.now ≡ free_variables ssa.now lemmas.now.items fact.now }
    requires bits { bits ≡ length (free_bits ssa.now lemmas.now.items fact.now) }
    requires few { bits ≤ 20 }
    requires values { AreValues ssa.now.variables values.old }
    ensures { result ≡ first_denial ssa.now lemmas.now.items fact.now }
{
    for n in 0..1u32 << bits {
        assign(ssa, fact, free, n, values);
        if is_denied(ssa, fact, lemmas.items().as_slice(), values) {
            return Some(n);
        }
    }
    None
}

/// Makes the values those of assignment `n`, but for variables that the fact does not name.
fn assign(ssa: &Ssa, fact: &Fact, free: &[u32], n: u32, values: &mut [i128])
    requires values { AreValues ssa.now.variables values.old }
    requires few { patterns.bit_count ssa.now.variables free.now ≤ 20 }
    ensures values { values.new ≡ patterns.recomputed_all ssa.now.lines fact.now.uses (patterns.given (patterns.values_numbered ssa.now.variables free.now n) values.old) }
    ensures typed { AreValues ssa.now.variables values.new }
{
    give(ssa.variables().as_slice(), free, n, values);
    recompute(ssa, fact.uses.as_slice(), values);
}
