//! The plain program of a step: the results of an instruction from its operands.

ghost use Rattle.std.specs.Prelude.{◌≡◌, ◌<◌, ◌≤◌, ◌-◌, ◌^◌, ℤ, pos, ◌*ℤ◌, unsigned_abs};
ghost use Rattle.tcl_lang.specs.Types.{IsTy, InType, wrap_of};
ghost use Rattle.tcl_lang.specs.Store.{pattern_of};
ghost use Rattle.tcl_lang.specs.Results.{parts_of, borrow_of, row_results};
ghost use Rattle.tcl_lang.specs.ResultList.{listed};
ghost use Rattle.tcl_lang.specs.Operands.{HasOperands};

use crate::arithmetic::{
    difference, difference_with, high_part, joined, pattern, product, shifted, sum, sum_with,
    unsigned_product,
};
use crate::instr::Op;
use crate::result_values::Results;
use crate::ty::Ty;
use crate::wrapping::wrap;
use tcl_num::{low_mask, lowest_bits};

/// The value of the type that is congruent to the product of two values of the type.
pub fn wrapped_product(ty: Ty, a: i128, b: i128) -> i128
    requires of_words { IsTy ty }
    requires first { InType ty a }
    requires second { InType ty b }
    ensures { result ≡ wrap_of ty (a *ℤ b) }
{
    if ty.signed {
        wrap(ty, product(a, b))
    } else {
        (unsigned_product(a, b) & low_mask(ty.width) as u128) as i128
    }
}

/// The high and the low part of the product of two values of the type.
fn product_parts(ty: Ty, a: i128, b: i128) -> Results
    requires of_words { IsTy ty }
    requires first { InType ty a }
    requires second { InType ty b }
    ensures { listed result ≡ parts_of ty.width (a *ℤ b) }
{
    if ty.signed {
        parts(product(a, b), ty.width)
    } else {
        let whole = unsigned_product(a, b);
        let mask = low_mask(ty.width) as u128;
        Results::Two((whole >> ty.width) as i128, (whole & mask) as i128)
    }
}

/// The floor of n / 2 ^ k, and the remainder.
fn parts(n: i128, k: u32) -> Results
    requires { k ≤ 64 }
    ensures { listed result ≡ parts_of k n }
{
    Results::Two(high_part(n, k), lowest_bits(k, n))
}

/// The borrow of a difference, and the difference modulo 2 ^ k.
fn borrowed(n: i128, k: u32) -> Results
    requires amount { k ≤ 64 }
    requires small { unsigned_abs n < 2 ^ 67 }
    ensures { listed result ≡ borrow_of k n }
{
    Results::Two(-high_part(n, k), lowest_bits(k, n))
}

/// The word of a bit pattern.
fn word_of_pattern(ty: Ty, bits: u128) -> i128
    requires of_words { IsTy ty }
    requires narrow { bits < 2 ^ 64 }
    ensures { result ≡ wrap_of ty (pos bits) }
{
    wrap(ty, bits as i128)
}

/// The pattern of n with every bit flipped.
fn flipped(n: i128, width: u32) -> u128
    requires { width ≤ 64 }
    ensures value { result ≡ 2 ^ width - 1 - pattern_of width n }
    ensures below { result < 2 ^ 64 }
{
    low_mask(width) as u128 - pattern(n, width)
}

/// The results of the instruction at the operands `a`, `b` and `c`, of which it reads as many as it has. It is compiled into its
/// callers, so that the results of a step need not go through memory.
#[inline(always)]
pub fn results(op: Op, ty: Ty, amount: u32, a: i128, b: i128, c: i128) -> Results
    requires { HasOperands op ty amount a b c }
    ensures { listed result ≡ row_results op ty amount a b c }
{
    match op {
        Op::Mov => Results::One(a),
        Op::Add => Results::One(wrap(ty, sum(a, b))),
        Op::Adds => parts(sum(a, b), ty.width),
        Op::Adc => Results::One(wrap(ty, sum_with(a, b, c))),
        Op::Adcs => parts(sum_with(a, b, c), ty.width),
        Op::Sub => Results::One(wrap(ty, difference(a, b))),
        Op::Subb => borrowed(difference(a, b), ty.width),
        Op::Sbb => Results::One(wrap(ty, difference_with(a, b, c))),
        Op::Sbbs => borrowed(difference_with(a, b, c), ty.width),
        Op::Mul => Results::One(wrapped_product(ty, a, b)),
        Op::Mull => product_parts(ty, a, b),
        Op::Mulj => Results::One(product(a, b)),
        Op::Shl => Results::One(wrap(ty, shifted(a, amount))),
        Op::Split => parts(a, amount),
        Op::Join => Results::One(joined(a, b, ty.width)),
        Op::Cast => Results::One(wrap(ty, a)),
        Op::Vpc => Results::One(wrap(ty, a)),
        Op::Cmov => Results::One(if a.unsigned_abs() == 1 { b } else { c }),
        Op::And => Results::One(word_of_pattern(ty, pattern(a, ty.width) & pattern(b, ty.width))),
        Op::Or => Results::One(word_of_pattern(ty, pattern(a, ty.width) | pattern(b, ty.width))),
        Op::Xor => Results::One(word_of_pattern(ty, pattern(a, ty.width) ^ pattern(b, ty.width))),
        Op::Not => Results::One(word_of_pattern(ty, flipped(a, ty.width))),
        Op::Nondet => Results::One(a),
    }
}
