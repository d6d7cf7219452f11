// Counts that stay at an end, raised to a power.

ghost use Rattle.std.specs.Prelude.{◌≡◌, ◌^◌, min};

use tcl_num::saturating_product;

/// The power of a count, or `end` where it is greater.
#[tactic(auto, using(crate::proofs::Saturation::power_begins, crate::proofs::Saturation::power_grows))]
pub(crate) fn saturating_power(base: u128, exponent: u32, end: u128) -> u128
    ensures { result ≡ min (base ^ exponent) end }
{
    let mut power = end.min(1);
    for _turn in 0..exponent {
        power = saturating_product(power, base, end);
    }
    power
}
