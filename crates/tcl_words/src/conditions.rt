// The circuits of exactness conditions: each result is made again from extended operands, and its range is tested.

ghost use Rattle.std.specs.Prelude.{◌≡◌, ◌+◌, ◌/◌, ◌≤◌, ◌<◌, IfOk, OnOk, OnErr, length, max};
ghost use Rattle.tcl_gates.specs.Meaning.{AreWithin, IsPart};
ghost use Rattle.tcl_circuits.specs.Circuits.{extended, shifted, in_range, wire};
ghost use Rattle.tcl_words.specs.Chains as chains;
ghost use Rattle.tcl_words.specs.Instructions.{wide_product};
ghost use Rattle.tcl_words.specs.Exactness.{plain, fits, exact_lit};

use crate::chain::{Chain, chained};
use crate::results::{first_of, wide_product};
use std::alloc::{AllocError, Global};
use tcl_circuits::{Lits, extend, in_range, shift};
use tcl_cnf::Lit;
use tcl_gates::Gates;
use tcl_lang::{Op, Ty};

/// Whether a sum with carry or a difference with borrow fits: two bits more.
#[tactic(auto, using(tcl_gates::proofs::Shown::part_none, crate::proofs::Parts::chain_range_begins, tcl_circuits::proofs::Within::within_extended))]
fn chain_fits(
    alloc: Global,
    gates: &mut Gates,
    chain: Chain,
    signed: bool,
    a: &Lits,
    b: &Lits,
    carry: Lit,
) -> Result<Lit, AllocError>
    requires first { AreWithin (length gates.old) a.now }
    requires second { AreWithin (length gates.old) b.now }
    requires third { carry / 2 ≤ length gates.old }
    requires narrow { length a.now ≤ 64 }
    ensures made { OnOk result (gates.new ≡ (fits signed (length a.now) (plain (chains.chained chain gates.old (extended signed (length a.now + 2) a.now) (extended signed (length a.now + 2) b.now) carry))).gates) }
    ensures lit { IfOk result (λ lit. lit ≡ (fits signed (length a.now) (plain (chains.chained chain gates.old (extended signed (length a.now + 2) a.now) (extended signed (length a.now + 2) b.now) carry))).lit) }
    ensures within { IfOk result (λ lit. lit / 2 ≤ length gates.new) }
    ensures part { OnErr result (IsPart gates.old gates.new (fits signed (length a.now) (plain (chains.chained chain gates.old (extended signed (length a.now + 2) a.now) (extended signed (length a.now + 2) b.now) carry))).gates) }
{
    let width = a.len() as u32;
    let x = extend(alloc, a, signed, width + 2)?;
    let y = extend(alloc, b, signed, width + 2)?;
    let sum = chained(alloc, gates, chain, &x, &y, carry)?;
    let lit = in_range(alloc, gates, &sum.word, signed, width)?;
    Ok(lit)
}

/// Whether a product fits: twice the width.
#[tactic(auto, using(tcl_gates::proofs::Shown::part_none, crate::proofs::Parts::product_range_begins))]
fn product_fits(
    alloc: Global,
    gates: &mut Gates,
    signed: bool,
    a: &Lits,
    b: &Lits,
) -> Result<Lit, AllocError>
    requires first { AreWithin (length gates.old) a.now }
    requires second { AreWithin (length gates.old) b.now }
    requires narrow { length a.now ≤ 64 }
    ensures made { OnOk result (gates.new ≡ (fits signed (length a.now) (wide_product gates.old signed a.now b.now)).gates) }
    ensures lit { IfOk result (λ lit. lit ≡ (fits signed (length a.now) (wide_product gates.old signed a.now b.now)).lit) }
    ensures within { IfOk result (λ lit. lit / 2 ≤ length gates.new) }
    ensures part { OnErr result (IsPart gates.old gates.new (fits signed (length a.now) (wide_product gates.old signed a.now b.now)).gates) }
{
    let word = wide_product(alloc, gates, signed, a, b)?;
    let lit = in_range(alloc, gates, &word, signed, a.len() as u32)?;
    Ok(lit)
}

/// Whether a shifted word fits: as many bits more as it is shifted by.
#[tactic(auto, using(tcl_gates::proofs::Shown::part_none, tcl_circuits::proofs::Loops::range_begins, tcl_circuits::proofs::Within::within_extended, tcl_circuits::proofs::Within::within_shifted))]
fn shift_fits(
    alloc: Global,
    gates: &mut Gates,
    signed: bool,
    amount: u32,
    a: &Lits,
) -> Result<Lit, AllocError>
    requires first { AreWithin (length gates.old) a.now }
    requires narrow { length a.now ≤ 64 }
    requires small { amount ≤ 64 }
    ensures made { OnOk result (gates.new ≡ (in_range gates.old signed (length a.now) (shifted amount (extended signed (length a.now + amount) a.now))).gates) }
    ensures lit { IfOk result (λ lit. lit ≡ (in_range gates.old signed (length a.now) (shifted amount (extended signed (length a.now + amount) a.now))).lit) }
    ensures within { IfOk result (λ lit. lit / 2 ≤ length gates.new) }
    ensures part { OnErr result (IsPart gates.old gates.new (in_range gates.old signed (length a.now) (shifted amount (extended signed (length a.now + amount) a.now))).gates) }
{
    let width = a.len() as u32;
    let wide = extend(alloc, a, signed, width + amount)?;
    let word = shift(alloc, &wide, amount)?;
    in_range(alloc, gates, &word, signed, width)
}

/// Whether a word of one kind fits a type of another: one bit more than the greater width.
#[tactic(auto, using(tcl_gates::proofs::Shown::part_none, tcl_circuits::proofs::Loops::range_begins, tcl_circuits::proofs::Within::within_extended))]
fn cast_fits(
    alloc: Global,
    gates: &mut Gates,
    from: bool,
    to: bool,
    width: u32,
    a: &Lits,
) -> Result<Lit, AllocError>
    requires first { AreWithin (length gates.old) a.now }
    requires narrow { length a.now ≤ 64 }
    requires small { width ≤ 64 }
    ensures made { OnOk result (gates.new ≡ (in_range gates.old to width (extended from (max (length a.now) width + 1) a.now)).gates) }
    ensures lit { IfOk result (λ lit. lit ≡ (in_range gates.old to width (extended from (max (length a.now) width + 1) a.now)).lit) }
    ensures within { IfOk result (λ lit. lit / 2 ≤ length gates.new) }
    ensures part { OnErr result (IsPart gates.old gates.new (in_range gates.old to width (extended from (max (length a.now) width + 1) a.now)).gates) }
{
    let wide = (a.len() as u32).max(width) + 1;
    let x = extend(alloc, a, from, wide)?;
    in_range(alloc, gates, &x, to, width)
}

/// The literal of an instruction's exactness condition at the type `ty`, where `from` is the type of its first operand;
/// true where it has none.
#[tactic(auto, using(tcl_gates::proofs::Shown::part_none, tcl_gates::proofs::Shown::begins_same, crate::proofs::Parts::within_first))]
pub(crate) fn condition_lit(
    alloc: Global,
    gates: &mut Gates,
    op: Op,
    ty: Ty,
    from: Ty,
    amount: u32,
    a: &Lits,
    b: &Lits,
    c: &Lits,
) -> Result<Lit, AllocError>
    requires first { AreWithin (length gates.old) a.now }
    requires second { AreWithin (length gates.old) b.now }
    requires third { AreWithin (length gates.old) c.now }
    requires narrow { length a.now ≤ 64 }
    requires small { ty.width ≤ 64 }
    requires shift { amount ≤ 64 }
    ensures made { OnOk result (gates.new ≡ (exact_lit gates.old op ty from amount a.now b.now c.now).gates) }
    ensures lit { IfOk result (λ lit. lit ≡ (exact_lit gates.old op ty from amount a.now b.now c.now).lit) }
    ensures within { IfOk result (λ lit. lit / 2 ≤ length gates.new) }
    ensures part { OnErr result (IsPart gates.old gates.new (exact_lit gates.old op ty from amount a.now b.now c.now).gates) }
{
    match op {
        Op::Add => chain_fits(
            alloc,
            gates,
            Chain::Sum,
            ty.signed,
            a,
            b,
            Lit::from_number(1),
        ),
        Op::Adc => chain_fits(alloc, gates, Chain::Sum, ty.signed, a, b, first_of(c)),
        Op::Sub => chain_fits(
            alloc,
            gates,
            Chain::Difference,
            ty.signed,
            a,
            b,
            Lit::from_number(1),
        ),
        Op::Sbb => chain_fits(
            alloc,
            gates,
            Chain::Difference,
            ty.signed,
            a,
            b,
            first_of(c),
        ),
        Op::Mul => product_fits(alloc, gates, ty.signed, a, b),
        Op::Shl => shift_fits(alloc, gates, ty.signed, amount, a),
        Op::Vpc => cast_fits(alloc, gates, from.signed, ty.signed, ty.width, a),
        _ => Ok(Lit::of(0)),
    }
}
