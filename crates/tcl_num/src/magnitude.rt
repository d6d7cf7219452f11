// Exact arithmetic on integers of magnitude below 2 ^ 127. The least `i128` has a magnitude of 2 ^ 127 and is outside.

ghost use Rattle.std.specs.Prelude.{◌≡◌, ◌<◌, ◌*◌, ◌^◌, ◌↔◌, IsTrue, SomeIff, unsigned_abs, ◌+ℤ◌, ◌*ℤ◌, neg_ℤ};
ghost use Rattle.tcl_num.specs.Signed.{signed};

/// Whether the magnitude of `n` is below 2 ^ 127.
pub fn is_small(n: &i128) -> bool
    ensures { IsTrue result ↔ (unsigned_abs n.now < 2 ^ 127) }
{
    *n != i128::MIN
}

/// The sum, where its magnitude is below 2 ^ 127.
pub fn small_sum(a: &i128, b: &i128) -> Option<i128>
    ensures { SomeIff result (unsigned_abs (a.now +ℤ b.now) < 2 ^ 127) (a.now +ℤ b.now) }
{
    a.checked_add(*b).filter(is_small)
}

/// The product, where its magnitude is below 2 ^ 127.
pub fn small_product(a: &i128, b: &i128) -> Option<i128>
    ensures { SomeIff result (unsigned_abs (a.now *ℤ b.now) < 2 ^ 127) (a.now *ℤ b.now) }
{
    a.checked_mul(*b).filter(is_small)
}

/// The negation, where its magnitude is below 2 ^ 127.
pub fn small_negation(a: &i128) -> Option<i128>
    ensures { SomeIff result (unsigned_abs (neg_ℤ a.now) < 2 ^ 127) (neg_ℤ a.now) }
{
    a.checked_neg()
}

/// The sum of `a` and the product of `b` and `c`, where its magnitude is below 2 ^ 127. The product alone may be greater.
pub fn small_sum_with_product(a: &i128, b: &i128, c: &i128) -> Option<i128>
    ensures { SomeIff result (unsigned_abs (a.now +ℤ b.now *ℤ c.now) < 2 ^ 127) (a.now +ℤ b.now *ℤ c.now) }
{
    let _size = a.unsigned_abs();
    let below = is_below(b, c);
    match b.unsigned_abs().checked_mul(c.unsigned_abs()) {
        Some(magnitude) => signed_sum(a, below, magnitude),
        None => None,
    }
}

/// Whether a product of that magnitude is negative, or 0.
fn is_below(b: &i128, c: &i128) -> bool
    ensures { b.now *ℤ c.now ≡ signed result (unsigned_abs b.now * unsigned_abs c.now) }
{
    if *b < 0 { *c >= 0 } else { *c < 0 }
}

fn signed_sum(a: &i128, below: bool, magnitude: u128) -> Option<i128>
    ensures { SomeIff result (unsigned_abs (a.now +ℤ signed below magnitude) < 2 ^ 127) (a.now +ℤ signed below magnitude) }
{
    let sum = if below {
        a.checked_sub_unsigned(magnitude)
    } else {
        a.checked_add_unsigned(magnitude)
    };
    match sum {
        Some(sum) => if is_small(&sum) { Some(sum) } else { None },
        None => None,
    }
}
