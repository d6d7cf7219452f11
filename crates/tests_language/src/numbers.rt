//! Integers of one word and residues. The expected values come from python3.

ghost use Rattle.std.specs.Prelude.{◌<◌, ◌≤◌, ◌^◌};

use std::process::Abort;
use tcl_num::{in_range, mul_mod, small_sum_with_product, wrap_to};

const MERSENNE_61: u128 = 2_305_843_009_213_693_951;

// 2^126.
const GREATEST: u128 = 85_070_591_730_234_615_865_843_651_857_942_052_864;

// Signedness, width, an integer and the value that it wraps to.
const WRAPPED: &[(bool, u32, i128, i128)] = &[
    (true, 8, 200, -56),
    (true, 8, -129, 127),
    (false, 8, -1, 255),
    (true, 64, i128::MAX, -1),
    (true, 64, i128::MIN, 0),
    (false, 64, i128::MIN + 5, 5),
    (true, 2, 2, -2),
    (false, 1, 3, 1),
    (true, 13, 4096, -4096),
    (false, 64, 18446744073709551616, 0),
];

// Two factors, the modulus, and the residue of the product.
const PRODUCTS: &[(u128, u128, u128, u128)] = &[
    (0, 0, 1, 0),
    (1, 1, 1, 0),
    (
        134351473349708985578604307872871789624,
        279465158934149700935886463558486303824,
        1,
        0,
    ),
    (0, 0, 2, 0),
    (1, 1, 2, 1),
    (
        198312484241472401536209650552541253675,
        73058006044257005900892087411535316085,
        2,
        1,
    ),
    (2305843009213693950, 2305843009213693950, MERSENNE_61, 1),
    (1152921504606846975, 3, MERSENNE_61, 1152921504606846974),
    (
        142296611445275798544334485869926371544,
        187511663845513135275015529792981306255,
        MERSENNE_61,
        645177037779979668,
    ),
    (
        85070591730234615865843651857942052863,
        85070591730234615865843651857942052863,
        GREATEST,
        1,
    ),
    (
        42535295865117307932921825928971026432,
        3,
        GREATEST,
        42535295865117307932921825928971026432,
    ),
    (
        192413922384266855479841980320213453350,
        214590879575310323753507931465589029923,
        GREATEST,
        42441961570808916164194756773286087474,
    ),
    (
        85070591730234615865843651857942052726,
        85070591730234615865843651857942052726,
        GREATEST - 137,
        1,
    ),
    (
        42535295865117307932921825928971026433,
        42535295865117307932921825928971026435,
        GREATEST - 137,
        21267647932558653966460912964485518151,
    ),
];

// Three integers and the first plus the product of the others, where its magnitude is below 2^127.
const SUMS: &[(i128, i128, i128, Option<i128>)] = &[
    (
        -85070591730234615865843651857942052864,
        18446744073709551616,
        4611686018427387904,
        Some(0),
    ),
    (
        85070591730234615865843651857942052864,
        18446744073709551616,
        4611686018427387904,
        None,
    ),
    (
        i128::MIN,
        18446744073709551616,
        9223372036854775808,
        Some(0),
    ),
    (i128::MIN, -18446744073709551616, 9223372036854775808, None),
    (
        i128::MIN,
        -1,
        -1,
        Some(-170141183460469231731687303715884105727),
    ),
    (i128::MAX, -1, i128::MAX, Some(0)),
    (i128::MAX, 1, 1, None),
    (
        i128::MIN,
        1,
        1,
        Some(-170141183460469231731687303715884105727),
    ),
    (i128::MIN, 0, 5, None),
    (0, i128::MIN, 1, None),
    (0, i128::MIN, -1, None),
    (0, i128::MIN, i128::MIN, None),
    (i128::MAX, i128::MIN, 1, Some(-1)),
    (i128::MIN, i128::MIN, -1, Some(0)),
    (
        i128::MIN,
        i128::MAX,
        2,
        Some(170141183460469231731687303715884105726),
    ),
    (7, -3, 5, Some(-8)),
    (
        -170141183460469231731687303715884105727,
        i128::MAX,
        2,
        Some(i128::MAX),
    ),
    (
        i128::MAX,
        2,
        -170141183460469231731687303715884105727,
        Some(-170141183460469231731687303715884105727),
    ),
    (5, 0, 0, Some(5)),
];

// Whether an integer wraps to the value, and is in range exactly where it is the value.
fn is_wrapped(signed: bool, width: u32, n: i128, value: i128) -> bool
    requires positive { 0 < width }
    requires narrow { width ≤ 64 }
{
    wrap_to(signed, width, n) == value && in_range(signed, width, n) == (n == value)
}

fn expect_wrapped(rt: &impl Abort, width: u32, n: i128, is_so: bool) {
    assert!(rt; is_so, "{n} at {width} bits");
}

#[test]
fn wrapped_values(rt: HostRuntime) {
    for (signed, width, n, value) in WRAPPED {
        let width = *width;
        let is_so = 0 < width && width <= 64 && is_wrapped(*signed, width, *n, *value);
        expect_wrapped(&rt, width, *n, is_so);
    }
}

fn expect_product(rt: &impl Abort, a: u128, b: u128, m: u128, is_so: bool) {
    assert!(rt; is_so, "{a} * {b} modulo {m}");
}

#[test]
fn products_of_residues(rt: HostRuntime) {
    for (a, b, m, product) in PRODUCTS {
        let m = *m;
        let is_so = 0 < m && m <= GREATEST && mul_mod(*a, *b, m) == *product;
        expect_product(&rt, *a, *b, m, is_so);
    }
}

fn expect_sum(rt: &impl Abort, a: i128, b: i128, c: i128, is_so: bool) {
    assert!(rt; is_so, "{a} + {b} * {c}");
}

// The product alone may be too great.
#[test]
fn sums_with_products(rt: HostRuntime) {
    for (a, b, c, sum) in SUMS {
        let is_so = small_sum_with_product(a, b, c) == *sum;
        expect_sum(&rt, *a, *b, *c, is_so);
    }
}
