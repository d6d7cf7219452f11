// The values of a word of some width, and the one that is congruent to an integer.

ghost use Rattle.std.specs.Prelude.{◌-◌, ◌≡◌, ℕ, ℤ, ◌<◌, ◌≤◌, ◌^◌, ◌↔◌, pos, IsTrue};
ghost use Rattle.std.specs.Int.{int_rem_euclid};
ghost use Rattle.tcl_num.specs.Congruence.{Congruent};
ghost use Rattle.tcl_num.specs.Range as r;

/// 2 to the power `exponent`.
pub fn power_of_two(exponent: u32) -> i128
    requires { exponent < 127 }
    ensures { result ≡ pos (2 ^ exponent) }
{
    1i128 << exponent
}

/// The least value of a word of `width` bits.
pub fn least_value(signed: bool, width: u32) -> i128
    requires positive { 0 < width }
    requires narrow { width ≤ 64 }
    ensures { result ≡ r.least_value signed width }
{
    if signed { -power_of_two(width - 1) } else { 0 }
}

/// The first integer above the values of a word of `width` bits.
pub fn values_end(signed: bool, width: u32) -> i128
    requires positive { 0 < width }
    requires narrow { width ≤ 64 }
    ensures { result ≡ r.values_end signed width }
{
    if signed {
        power_of_two(width - 1)
    } else {
        power_of_two(width)
    }
}

/// Whether a word of `width` bits, signed or not, has the value `n`.
pub fn in_range(signed: bool, width: u32, n: i128) -> bool
    requires positive { 0 < width }
    requires narrow { width ≤ 64 }
    ensures { IsTrue result ↔ r.InRange signed width n }
{
    least_value(signed, width) <= n && n < values_end(signed, width)
}

/// The value of a word of `width` bits that is congruent to `n` modulo 2 ^ width: the one whose bits are the lowest
/// `width` bits of `n` in two's complement.
pub fn wrap_to(signed: bool, width: u32, n: i128) -> i128
    requires positive { 0 < width }
    requires narrow { width ≤ 64 }
    ensures value { result ≡ r.wrapped signed width n }
    ensures in_range { r.InRange signed width result }
    ensures congruent { Congruent (pos (2 ^ width)) n result }
    ensures only { (v : ℤ) → r.InRange signed width v → Congruent (pos (2 ^ width)) n v → v ≡ result }
{
    residue_value(signed, width, n)
}

/// The same, from the lowest bits of `n`. To add half of the range first would overflow near the greatest `i128`.
#[tactic(auto, unfolding(crate::specs::Range::wrapped))]
fn residue_value(signed: bool, width: u32, n: i128) -> i128
    requires positive { 0 < width }
    requires narrow { width ≤ 64 }
    ensures { result ≡ r.wrapped signed width n }
{
    let left = lowest_bits(width, n);
    if signed {
        let half = word_power(width - 1);
        if left < half {
            left
        } else {
            left - word_power(width)
        }
    } else {
        left
    }
}

/// The number whose bits are the lowest `width` bits of `n` in two's complement, where `width` is at most 64: the remainder
/// of `n` modulo 2 to the power of `width`, from 0 up, without a division.
pub fn lowest_bits(width: u32, n: i128) -> i128
    requires narrow { width ≤ 64 }
    ensures { result ≡ int_rem_euclid n (pos (2 ^ width)) }
{
    n & low_mask(width) as i128
}

/// The number whose lowest `width` bits are set, and no others; by one shift of 64 bits.
#[tactic(auto, using(crate::proofs::LowestBits::shifted_mask))]
pub fn low_mask(width: u32) -> u64
    requires narrow { width ≤ 64 }
    ensures { result ≡ 2 ^ width - 1 }
{
    if width == 0 {
        0
    } else {
        u64::MAX >> (64 - width)
    }
}

/// 2 to the power `exponent`, which is at most 64; by one shift of 64 bits.
fn word_power(exponent: u32) -> i128
    requires { exponent ≤ 64 }
    ensures { result ≡ pos (2 ^ exponent) }
{
    low_mask(exponent) as i128 + 1
}
