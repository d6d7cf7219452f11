//! The value of a modulus, which is positive, and whether it is too great to be computed with.

ghost use Rattle.std.specs.Prelude.{◌≡◌, ◌<◌, ◌≤◌, ◌^◌, drop, false, pos, true, neg_ℤ, unsigned_abs, if◌then◌else◌};
ghost use Rattle.std.specs.List.{list_all};
ghost use Rattle.tcl_lang.specs.Modulus as moduli;
ghost use Rattle.tcl_lang.specs.Shape.{is_part};
ghost use Rattle.tcl_measure.specs.SoundModulus.{IsSoundModulus, begins_wide};

use tcl_lang::Part;
use tcl_num::power_of_two;

/// Whether the exponent of the first part is above 126 or the value is above `2^126`.
pub fn is_wide_modulus(parts: &[Part]) -> bool
    requires { IsSoundModulus parts.now }
    ensures { result ≡ moduli.is_wide_modulus parts.now }
{
    if begins_wide(parts) {
        return true;
    }
    power_of_two(126) < value_of(parts)
}

/// The value of a modulus that is not wide: from 1 to `2^126`.
pub fn modulus_value(parts: &[Part]) -> u128
    requires sound { IsSoundModulus parts.now }
    requires narrow { moduli.is_wide_modulus parts.now ≡ false }
    ensures value { pos result ≡ moduli.modulus_value parts.now }
    ensures positive { 0 < result }
    ensures bound { result ≤ 2 ^ 126 }
{
    value_of(parts).unsigned_abs()
}

/// Whether the exponent of the first part is above 126.
fn begins_wide(parts: &[Part]) -> bool
    ensures { result ≡ begins_wide parts.now }
{
    match parts.first() {
        Some(part) => match part.power {
            Some(power) => 126 < power,
            None => false,
        },
        None => false,
    }
}

/// The value of a modulus that does not begin wide.
fn value_of(parts: &[Part]) -> i128
    requires sound { IsSoundModulus parts.now }
    requires begins { begins_wide parts.now ≡ false }
    ensures value { result ≡ moduli.modulus_value parts.now }
    ensures positive { 0 < unsigned_abs result }
    ensures sign { pos (unsigned_abs result) ≡ result }
{
    let first = parts[0];
    match first.power {
        None => first.base,
        Some(power) => power_of_two(power) + value_from(parts, 1, power),
    }
}

/// The value of the parts from part `from` on, which follow the power `2 ** above`.
fn value_from(parts: &[Part], from: usize, above: u32) -> i128
    requires falls { moduli.falls_from above (drop from parts.now) ≡ true }
    requires numbers { list_all is_part (drop from parts.now) ≡ true }
    requires narrow { above ≤ 126 }
    ensures value { result ≡ moduli.modulus_value (drop from parts.now) }
    ensures small { unsigned_abs result < 2 ^ above }
{
    if from >= parts.len() {
        return 0;
    }
    let part = parts[from];
    match part.power {
        None => signed(part.minus, part.base),
        Some(power) => {
            signed(part.minus, power_of_two(power)) + value_from(parts, from + 1, power)
        }
    }
}

/// A number with its sign.
fn signed(minus: bool, n: i128) -> i128
    requires { unsigned_abs n < 2 ^ 127 }
    ensures { result ≡ (if minus then neg_ℤ n else n) }
{
    if minus { -n } else { n }
}
