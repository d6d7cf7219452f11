// Whether an integer is below a power of two or within a type, at every exponent and width.

ghost use Rattle.std.specs.Prelude.{◌≡◌, ◌^◌, pos, neg_ℤ, int_lt, int_le};
ghost use Rattle.tcl_lang.specs.Types as types;

use tcl_lang::Ty;
use tcl_num::power_of_two;

/// Every `i128` is below 2 ^ 127.
pub(crate) fn is_below_power(n: i128, exponent: u32) -> bool
    ensures { result ≡ int_lt n (pos (2 ^ exponent)) }
{
    exponent >= 127 || n < power_of_two(exponent)
}

/// The least `i128` is - 2 ^ 127.
fn is_from_negated_power(n: i128, exponent: u32) -> bool
    ensures { result ≡ int_le (neg_ℤ (pos (2 ^ exponent))) n }
{
    exponent >= 127 || -power_of_two(exponent) <= n
}

/// Whether `n` is a value of the type.
pub(crate) fn is_in_type(ty: Ty, n: i128) -> bool
    ensures { result ≡ types.is_in_type ty n }
{
    if ty.signed {
        let exponent = ty.width.saturating_sub(1);
        is_from_negated_power(n, exponent) && is_below_power(n, exponent)
    } else {
        0 <= n && is_below_power(n, ty.width)
    }
}
