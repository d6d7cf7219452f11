// Exact arithmetic on the values of words. A product of two unsigned words of 64 bits does not fit an `i128`, so
// products are made from magnitudes where the type has no sign.

ghost use Rattle.std.specs.Prelude.{◌≡◌, ◌<◌, ◌≤◌, ◌^◌, ℤ, pos, false, ◌+ℤ◌, ◌-ℤ◌, ◌*ℤ◌, unsigned_abs};
ghost use Rattle.std.specs.Int.{int_div_euclid};
ghost use Rattle.tcl_num.specs.Range.{InRange};
ghost use Rattle.tcl_lang.specs.Types.{IsTy, InType, wrap_of};
ghost use Rattle.tcl_lang.specs.Store.{pattern_of};
ghost use Rattle.tcl_lang.specs.Operands.{IsWordValue};

use crate::ty::Ty;
use crate::wrapping::wrap;
use tcl_num::{lowest_bits, power_of_two};

/// The floor of `n / 2 ^ k`.
pub(crate) fn high_part(n: i128, k: u32) -> i128
    requires { k ≤ 64 }
    ensures { result ≡ int_div_euclid n (pos (2 ^ k)) }
{
    n >> k
}

/// The two's-complement pattern of `n` at `width` bits.
pub(crate) fn pattern(n: i128, width: u32) -> u128
    requires { width ≤ 64 }
    ensures value { result ≡ pattern_of width n }
    ensures below { result < 2 ^ width }
{
    lowest_bits(width, n).unsigned_abs()
}

/// The value of a word times `2 ^ k`.
pub(crate) fn shifted(n: i128, k: u32) -> i128
    requires word { IsWordValue n }
    requires amount { k ≤ 63 }
    ensures { result ≡ n *ℤ pos (2 ^ k) }
{
    n * power_of_two(k)
}

/// The product of two values whose magnitude is at most `2 ^ 63`.
pub(crate) fn product(a: i128, b: i128) -> i128
    requires first { unsigned_abs a ≤ 2 ^ 63 }
    requires second { unsigned_abs b ≤ 2 ^ 63 }
    ensures { result ≡ a *ℤ b }
{
    a * b
}

/// The product of two values that are not negative.
pub(crate) fn unsigned_product(a: i128, b: i128) -> u128
    requires first { InRange false 64 a }
    requires second { InRange false 64 b }
    ensures { pos result ≡ a *ℤ b }
{
    (a as u128) * (b as u128)
}

/// The sum of two values of words.
pub(crate) fn sum(a: i128, b: i128) -> i128
    requires first { IsWordValue a }
    requires second { IsWordValue b }
    ensures { result ≡ a +ℤ b }
{
    a + b
}

/// The sum of three values of words.
pub(crate) fn sum_with(a: i128, b: i128, c: i128) -> i128
    requires first { IsWordValue a }
    requires second { IsWordValue b }
    requires third { IsWordValue c }
    ensures { result ≡ a +ℤ b +ℤ c }
{
    a + b + c
}

/// The difference of two values of words.
pub(crate) fn difference(a: i128, b: i128) -> i128
    requires first { IsWordValue a }
    requires second { IsWordValue b }
    ensures value { result ≡ a -ℤ b }
    ensures small { unsigned_abs result < 2 ^ 67 }
{
    a - b
}

/// A value of a word less two others.
pub(crate) fn difference_with(a: i128, b: i128, c: i128) -> i128
    requires first { IsWordValue a }
    requires second { IsWordValue b }
    requires third { IsWordValue c }
    ensures value { result ≡ a -ℤ b -ℤ c }
    ensures small { unsigned_abs result < 2 ^ 67 }
{
    a - b - c
}

/// The word of the high part `h` and the low part `l`, which has `width` bits.
pub(crate) fn joined(h: i128, l: i128, width: u32) -> i128
    requires high { IsWordValue h }
    requires low { IsWordValue l }
    requires narrow { width ≤ 32 }
    ensures { result ≡ pos (2 ^ width) *ℤ h +ℤ l }
{
    shifted(h, width) + l
}
