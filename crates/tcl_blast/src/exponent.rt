// The exponent of a modulus that is a power of two.

ghost use Rattle.std.specs.Prelude.{◌≡◌, ◌<◌, ◌^◌, ◌+ℤ◌, neg_ℤ, drop, pos, true, if◌then◌else◌, unsigned_abs};
ghost use Rattle.std.specs.List.{list_all};
ghost use Rattle.tcl_lang.specs.Modulus.{falls_from, modulus_value};
ghost use Rattle.tcl_lang.specs.Shape.{is_part};
ghost use Rattle.tcl_measure.specs.SoundModulus.{IsSoundModulus};
ghost use Rattle.tcl_blast.specs.Lifted.{exponent_of};

use tcl_lang::Part;

/// The exponent k, from 1, of a modulus that is `2^k`; 0 where it is no such power.
///
/// The parts after the first power are powers of falling exponents, and then a number below the last one. So the value is a
/// power of two only where each of them halves what stands before it, or where the number does so at the end.
pub(crate) fn exponent_of(parts: &[Part]) -> u32
    requires { IsSoundModulus parts.now }
    ensures { result ≡ exponent_of (modulus_value parts.now) }
{
    let first = parts[0];
    match first.power {
        None => exponent_of_number(first.base.unsigned_abs()),
        Some(power) => exponent_from(parts, 1, power),
    }
}

/// The same of `2^above` with the value of the parts from part `from` on, which follow it.
fn exponent_from(parts: &[Part], from: usize, above: u32) -> u32
    requires falls { falls_from above (drop from parts.now) ≡ true }
    requires numbers { list_all is_part (drop from parts.now) ≡ true }
    requires bound { above < 1026 }
    ensures { result ≡ exponent_of (pos (2 ^ above) +ℤ modulus_value (drop from parts.now)) }
{
    if from >= parts.len() {
        return above;
    }
    let part = parts[from];
    match part.power {
        None => exponent_with(above, part.minus, part.base.unsigned_abs()),
        Some(power) => {
            if !part.minus {
                return 0;
            }
            if power + 1 != above {
                return 0;
            }
            exponent_from(parts, from + 1, power)
        }
    }
}

/// The same of `2^above` with a number that is less, added or subtracted.
#[tactic(auto, using(crate::proofs::Exponents::with_zero, crate::proofs::Exponents::with_minus, crate::proofs::Exponents::with_plus, crate::proofs::Exponents::with_wide))]
fn exponent_with(above: u32, minus: bool, n: u128) -> u32
    requires less { n < 2 ^ above }
    requires small { n < 2 ^ 127 }
    requires bound { above < 1026 }
    ensures { result ≡ exponent_of (pos (2 ^ above) +ℤ (if minus then neg_ℤ (pos n) else pos n)) }
{
    if n == 0 {
        return above;
    }
    if !minus {
        return 0;
    }
    if 127 < above {
        return 0;
    }
    exponent_of_number(power_of(above) - n)
}

/// The same of a number.
#[tactic(auto, using(crate::proofs::Exponents::number_found, crate::proofs::Exponents::number_none))]
fn exponent_of_number(n: u128) -> u32
    ensures { result ≡ exponent_of (pos n) }
{
    for k in 1..128 {
        if power_of(k) == n {
            return k;
        }
    }
    0
}

/// A power of two.
fn power_of(k: u32) -> u128
    requires { k < 128 }
    ensures { result ≡ 2 ^ k }
{
    1u128 << k
}
