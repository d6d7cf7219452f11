// The bits that an equation fixes.

ghost use Rattle.std.specs.Prelude.{◌≡◌, ◌≤◌, ◌<◌, true, All, slice_get, IfOk};
ghost use Rattle.tcl_lang.specs.Types.{IsTy};
ghost use Rattle.tcl_lang.specs.Shape.{is_term};
ghost use Rattle.tcl_measure.specs.SoundModulus.{IsSound};
ghost use Rattle.tcl_blast.specs.Lifted.{leaf_of, negated_leaf, integer_of, variable_of, fixed_count, pattern_bit, bits_like, fixed_in, fixed_bits_of};

use crate::exponent::exponent_of;
use std::alloc::{AllocError, Global};
use tcl_goals::{BitLit, Cube};
use tcl_lang::{AlgPred, Modulus, Term, Ty, Variable, in_type};
use tcl_list::Listing;
use tcl_num::power_of_two;

/// The bits that an equation fixes: of `x = c` all bits of x where c is in its type, of `x = c mod 2^k` its lowest k bits,
/// and of every other equation none.
#[tactic(auto, using(crate::proofs::Leaves::fixed_not_variable, crate::proofs::Leaves::fixed_not_integer, crate::proofs::Leaves::fixed_sides))]
pub(crate) fn fixed_bits(
    alloc: Global,
    variables: &[Variable],
    pred: &AlgPred,
) -> Result<Cube, AllocError>
    requires sound { IsSound pred.now.modulus }
    requires number { is_term pred.now.right ≡ true }
    requires types { All (λ x. IsTy x.ty) variables.now }
    ensures { IfOk result (λ bits. bits ≡ fixed_bits_of variables.now pred.now) }
{
    let Some(v) = variable_in(&pred.left) else {
        return Ok(Listing::new(alloc));
    };
    let Some(c) = integer_in(&pred.right) else {
        return Ok(Listing::new(alloc));
    };
    fixed_in(alloc, variables, v, c, &pred.modulus)
}

/// The bits of a variable that equality or congruence to a number fixes.
fn fixed_in(
    alloc: Global,
    variables: &[Variable],
    v: u32,
    c: i128,
    modulus: &Option<Modulus>,
) -> Result<Cube, AllocError>
    requires sound { IsSound modulus.now }
    requires types { All (λ x. IsTy x.ty) variables.now }
    ensures { IfOk result (λ bits. bits ≡ fixed_in (slice_get variables.now v) v c modulus.now) }
{
    match variables.get(v as usize) {
        Some(variable) => {
            let count = fixed_count(variable.ty, c, modulus);
            bits_like(alloc, v, variable.ty, c, count)
        }
        None => Ok(Listing::new(alloc)),
    }
}

/// The variable that a term is, if it is one.
#[tactic(auto, using(crate::proofs::Leaves::no_variable))]
fn variable_in(term: &Term) -> Option<u32>
    ensures { result ≡ variable_of (leaf_of term.now) }
{
    match term {
        Term::Var(v) => Some(*v),
        _ => None,
    }
}

/// The number or negated number that a term is, if it is one.
fn integer_in(term: &Term) -> Option<i128>
    requires { is_term term.now ≡ true }
    ensures { result ≡ integer_of (leaf_of term.now) }
{
    match term {
        Term::Num(n) => Some(*n),
        Term::Neg(inner) => negated_in(inner.get()),
        _ => None,
    }
}

/// The negation of the number that a term is, if it is one.
#[tactic(auto, using(crate::proofs::Leaves::no_integer))]
fn negated_in(term: &Term) -> Option<i128>
    requires { is_term term.now ≡ true }
    ensures { result ≡ integer_of (negated_leaf (leaf_of term.now)) }
{
    match term {
        Term::Num(n) => Some(-*n),
        _ => None,
    }
}

/// How many of the lowest bits of a variable are fixed.
fn fixed_count(ty: Ty, c: i128, modulus: &Option<Modulus>) -> u32
    requires ty { IsTy ty }
    requires sound { IsSound modulus.now }
    ensures count { result ≡ fixed_count ty c modulus.now }
    ensures within { result ≤ ty.width }
{
    match modulus {
        None => { if in_type(ty, c) { ty.width } else { 0 } }
        Some(parts) => ty.width.min(exponent_of(parts.as_slice())),
    }
}

/// The first bits of a variable, lowest first, as those of a number.
#[tactic(auto, using(crate::proofs::Leaves::bits_none, crate::proofs::Leaves::bits_more))]
fn bits_like(alloc: Global, v: u32, ty: Ty, c: i128, count: u32) -> Result<Cube, AllocError>
    requires ty { IsTy ty }
    requires within { count ≤ ty.width }
    ensures { IfOk result (λ bits. bits ≡ bits_like v ty c count) }
{
    let mut bits = Listing::new(alloc);
    for bit in 0..count {
        let value = pattern_bit(ty, c, bit);
        bits.push(BitLit { var: v, bit, value })?;
    }
    Ok(bits)
}

/// A bit of the two's-complement pattern of a number.
fn pattern_bit(ty: Ty, c: i128, bit: u32) -> bool
    requires ty { IsTy ty }
    requires within { bit < ty.width }
    ensures { result ≡ pattern_bit ty c bit }
{
    let pattern = c.rem_euclid(power_of_two(ty.width)).unsigned_abs();
    (pattern >> bit) % 2 == 1
}
