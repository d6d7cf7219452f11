// Counts that stop at an end, so that a size can be computed exactly up to it.

ghost use Rattle.std.specs.Prelude.{◌≡◌, ◌+◌, ◌*◌, min};

/// The sum of two counts, or `end` where it is greater.
pub fn saturating_sum(a: u128, b: u128, end: u128) -> u128
    ensures { result ≡ min (a + b) end }
{
    match a.checked_add(b) {
        Some(sum) => sum.min(end),
        None => end,
    }
}

/// The product of two counts, or `end` where it is greater.
pub fn saturating_product(a: u128, b: u128, end: u128) -> u128
    ensures { result ≡ min (a * b) end }
{
    match a.checked_mul(b) {
        Some(product) => product.min(end),
        None => end,
    }
}
