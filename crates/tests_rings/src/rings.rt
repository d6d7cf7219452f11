//! Both rings at their edges. The expected values come from python3.

ghost use Rattle.std.specs.Prelude.{◌<◌, ◌≤◌, ◌^◌};

use crate::expected::holds;
use std::process::Abort;
use tcl_ring::{Residue, Ring, Whole, Wide};

const MERSENNE_61: u128 = 2_305_843_009_213_693_951;

// 2^126.
const GREATEST: u128 = 85_070_591_730_234_615_865_843_651_857_942_052_864;

struct Row {
    modulus: u128,
    a: i128,
    b: i128,
    sum: i128,
    product: i128,
    negation: i128,
    inverse: Option<i128>,
    // a + b * a
    sum_with_product: i128,
}

const ROWS: &[Row] = &[
    Row {
        modulus: 1,
        a: -1,
        b: 2,
        sum: 0,
        product: 0,
        negation: 0,
        inverse: Some(0),
        sum_with_product: 0,
    },
    Row {
        modulus: 1,
        a: 85070591730234615865843651857942052869,
        b: 1267650600228229401496703205377,
        sum: 0,
        product: 0,
        negation: 0,
        inverse: Some(0),
        sum_with_product: 0,
    },
    Row {
        modulus: 1,
        a: 17,
        b: 3328,
        sum: 0,
        product: 0,
        negation: 0,
        inverse: Some(0),
        sum_with_product: 0,
    },
    Row {
        modulus: 2,
        a: -1,
        b: 2,
        sum: 1,
        product: 0,
        negation: 1,
        inverse: Some(1),
        sum_with_product: 1,
    },
    Row {
        modulus: 2,
        a: 85070591730234615865843651857942052869,
        b: 1267650600228229401496703205377,
        sum: 0,
        product: 1,
        negation: 1,
        inverse: Some(1),
        sum_with_product: 0,
    },
    Row {
        modulus: 2,
        a: 17,
        b: 3328,
        sum: 1,
        product: 0,
        negation: 1,
        inverse: Some(1),
        sum_with_product: 1,
    },
    Row {
        modulus: 3329,
        a: -1,
        b: 2,
        sum: 1,
        product: 3327,
        negation: 1,
        inverse: Some(3328),
        sum_with_product: 3326,
    },
    Row {
        modulus: 3329,
        a: 85070591730234615865843651857942052869,
        b: 1267650600228229401496703205377,
        sum: 37,
        product: 984,
        negation: 1718,
        inverse: Some(560),
        sum_with_product: 2595,
    },
    Row {
        modulus: 3329,
        a: 17,
        b: 3328,
        sum: 16,
        product: 3312,
        negation: 3312,
        inverse: Some(1175),
        sum_with_product: 0,
    },
    Row {
        modulus: MERSENNE_61,
        a: -1,
        b: 2,
        sum: 1,
        product: 2305843009213693949,
        negation: 1,
        inverse: Some(2305843009213693950),
        sum_with_product: 2305843009213693948,
    },
    Row {
        modulus: MERSENNE_61,
        a: 85070591730234615865843651857942052869,
        b: 1267650600228229401496703205377,
        sum: 549755813910,
        product: 11544872091669,
        negation: 2305843009213693930,
        inverse: Some(2196040961155899001),
        sum_with_product: 11544872091690,
    },
    Row {
        modulus: MERSENNE_61,
        a: 17,
        b: 3328,
        sum: 3345,
        product: 56576,
        negation: 2305843009213693934,
        inverse: Some(813826944428362571),
        sum_with_product: 56593,
    },
    Row {
        modulus: GREATEST,
        a: -1,
        b: 2,
        sum: 1,
        product: 85070591730234615865843651857942052862,
        negation: 1,
        inverse: Some(85070591730234615865843651857942052863),
        sum_with_product: 85070591730234615865843651857942052861,
    },
    Row {
        modulus: GREATEST,
        a: 85070591730234615865843651857942052869,
        b: 1267650600228229401496703205377,
        sum: 1267650600228229401496703205382,
        product: 6338253001141147007483516026885,
        negation: 85070591730234615865843651857942052859,
        inverse: Some(17014118346046923173168730371588410573),
        sum_with_product: 6338253001141147007483516026890,
    },
    Row {
        modulus: GREATEST,
        a: 17,
        b: 3328,
        sum: 3345,
        product: 56576,
        negation: 85070591730234615865843651857942052847,
        inverse: Some(65053981911355882720939263185485099249),
        sum_with_product: 56593,
    },
];

fn expect(rt: &impl Abort, row: &Row, call: &str) {
    assert!(rt;
        call.is_empty(),
        "{call} at {} and {} modulo {}",
        row.a,
        row.b,
        row.modulus
    );
}

// The first call that does not answer as the row says, or nothing.
fn wrong_call(row: &Row) -> &'static str
    requires positive { 0 < row.now.modulus }
    requires narrow { row.now.modulus ≤ 2 ^ 126 }
{
    let ring = Residue {
        modulus: row.modulus,
    };
    if ring.add(&row.a, &row.b) != Ok(row.sum) {
        "add"
    } else if ring.mul(&row.a, &row.b) != Ok(row.product) {
        "mul"
    } else if ring.neg(&row.a) != Ok(row.negation) {
        "neg"
    } else if ring.inverse(&row.a) != row.inverse {
        "inverse"
    } else if ring.add_product(&row.a, &row.b, &row.a) != Ok(row.sum_with_product) {
        "add_product"
    } else {
        ""
    }
}

#[test]
fn residues(rt: HostRuntime) {
    for row in ROWS {
        let modulus = row.modulus;
        if 0 < modulus && modulus <= GREATEST {
            expect(&rt, row, wrong_call(row));
        } else {
            expect(&rt, row, "no modulus");
        }
    }
}

// Two integers and their sum.
const SUMS: &[(i128, i128, Result<i128, Wide>)] = &[
    (1 << 126, 1 << 126, Err(Wide)),
    (-(1 << 126), -(1 << 126), Err(Wide)),
    (1 << 126, (1 << 126) - 1, Ok(i128::MAX)),
];

// Two integers and their product.
const PRODUCTS: &[(i128, i128, Result<i128, Wide>)] = &[
    (1 << 126, -2, Err(Wide)),
    (1 << 64, 1 << 62, Ok(1 << 126)),
];

// Three integers, and the first plus the product of the others.
const SUMS_WITH_PRODUCTS: &[(i128, i128, i128, Result<i128, Wide>)] = &[
    (-(1 << 126), 1 << 64, 1 << 62, Ok(0)),
    (1 << 126, 1 << 64, 1 << 62, Err(Wide)),
    (-1, 1 << 126, 2, Ok(i128::MAX)),
    (0, 1 << 126, 2, Err(Wide)),
];

#[test]
fn sums_of_integers(rt: HostRuntime) {
    for (a, b, wanted) in SUMS {
        holds(&rt, "a sum", Whole.add(a, b) == *wanted);
    }
}

#[test]
fn products_of_integers(rt: HostRuntime) {
    for (a, b, wanted) in PRODUCTS {
        holds(&rt, "a product", Whole.mul(a, b) == *wanted);
    }
}

#[test]
fn sums_with_products_of_integers(rt: HostRuntime) {
    for (a, b, c, wanted) in SUMS_WITH_PRODUCTS {
        let is_so = Whole.add_product(a, b, c) == *wanted;
        holds(&rt, "a sum with a product", is_so);
    }
}

// The greatest magnitude is 2^127 - 1, so the least `i128` is outside.
#[test]
fn edges_of_the_integers(rt: HostRuntime) {
    holds(&rt, "-2^127", Whole.number(i128::MIN) == Err(Wide));
    holds(&rt, "2^127 - 1", Whole.number(i128::MAX) == Ok(i128::MAX));
    holds(&rt, "the inverse of -1", Whole.inverse(&-1) == Some(-1));
    holds(&rt, "no inverse of 2", Whole.inverse(&2) == None);
}
