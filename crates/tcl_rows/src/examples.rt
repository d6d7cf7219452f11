//! The programs of `examples/`, each with its full report. Where a second implementation of the language and of the rules
//! of its verification settles a goal it settles it alike; it searches for combinations of equations too, and proves some
//! goals that are unproved here.

use crate::example_limbs::{
    FIELD_25519_4_LIMBS, FIELD_25519_5_LIMBS, LIMB_PRODUCT, NTT_LAYER_8_LANES, POLY1305_CARRY,
};
use crate::example_reductions::{
    BARRETT_3329, BARRETT_BEHIND_CUT, BROKEN_REDUCTION, DILITHIUM_BUTTERFLY, KYBER_BUTTERFLY,
    MONTGOMERY_3329, MONTGOMERY_8380417,
};
use crate::solo::{expect, plain};
use std::alloc::AllocError;

#[test]
fn barrett_3329(rt: HostRuntime) -> Result<(), AllocError> {
    expect(
        &rt,
        rt.alloc(),
        &plain(BARRETT_3329),
        0,
        "\
            goal 0 line 15 exact proved\n\
            goal 1 line 17 exact proved\n\
            goal 2 line 23 exact proved\n\
            goal 3 line 26 assert proved\n\
            goal 4 line 27 post proved\n\
            goal 5 line 28 post proved\n\
            verified\n\
        ",
    )
}

#[test]
fn montgomery_3329(rt: HostRuntime) -> Result<(), AllocError> {
    expect(
        &rt,
        rt.alloc(),
        &plain(MONTGOMERY_3329),
        2,
        "\
            goal 0 line 18 exact proved\n\
            goal 1 line 19 cut proved\n\
            goal 2 line 22 assert proved\n\
            goal 3 line 23 assert proved\n\
            goal 4 line 24 exact proved\n\
            goal 5 line 26 post proved\n\
            goal 6 line 27 post proved\n\
            goal 7 line 28 post unproved later\n\
            unproved\n\
        ",
    )
}

#[test]
fn montgomery_8380417(rt: HostRuntime) -> Result<(), AllocError> {
    expect(
        &rt,
        rt.alloc(),
        &plain(MONTGOMERY_8380417),
        2,
        "\
            goal 0 line 16 exact proved\n\
            goal 1 line 17 cut proved\n\
            goal 2 line 20 assert proved\n\
            goal 3 line 21 assert proved\n\
            goal 4 line 22 exact proved\n\
            goal 5 line 24 post proved\n\
            goal 6 line 25 post proved\n\
            goal 7 line 26 post unproved later\n\
            unproved\n\
        ",
    )
}

#[test]
fn kyber_butterfly(rt: HostRuntime) -> Result<(), AllocError> {
    expect(
        &rt,
        rt.alloc(),
        &plain(KYBER_BUTTERFLY),
        2,
        "\
            goal 0 line 26 exact proved\n\
            goal 1 line 27 cut proved\n\
            goal 2 line 29 assert proved\n\
            goal 3 line 30 assert proved\n\
            goal 4 line 31 exact proved\n\
            goal 5 line 32 assert proved\n\
            goal 6 line 33 assert proved\n\
            goal 7 line 36 exact proved\n\
            goal 8 line 37 exact proved\n\
            goal 9 line 39 post proved\n\
            goal 10 line 40 post proved\n\
            goal 11 line 41 post proved\n\
            goal 12 line 42 post proved\n\
            goal 13 line 43 post proved\n\
            goal 14 line 44 post proved\n\
            goal 15 line 45 post unproved later\n\
            goal 16 line 46 post unproved later\n\
            unproved\n\
        ",
    )
}

#[test]
fn dilithium_butterfly(rt: HostRuntime) -> Result<(), AllocError> {
    expect(
        &rt,
        rt.alloc(),
        &plain(DILITHIUM_BUTTERFLY),
        2,
        "\
            goal 0 line 26 exact proved\n\
            goal 1 line 27 cut proved\n\
            goal 2 line 29 assert proved\n\
            goal 3 line 30 assert proved\n\
            goal 4 line 31 exact proved\n\
            goal 5 line 32 assert proved\n\
            goal 6 line 33 assert proved\n\
            goal 7 line 36 exact proved\n\
            goal 8 line 37 exact proved\n\
            goal 9 line 39 post proved\n\
            goal 10 line 40 post proved\n\
            goal 11 line 41 post proved\n\
            goal 12 line 42 post proved\n\
            goal 13 line 43 post proved\n\
            goal 14 line 44 post proved\n\
            goal 15 line 45 post unproved later\n\
            goal 16 line 46 post unproved later\n\
            unproved\n\
        ",
    )
}

#[test]
fn broken_reduction(rt: HostRuntime) -> Result<(), AllocError> {
    expect(
        &rt,
        rt.alloc(),
        &plain(BROKEN_REDUCTION),
        1,
        "\
            goal 0 line 15 exact proved\n\
            goal 1 line 16 exact proved\n\
            goal 2 line 17 exact proved\n\
            goal 3 line 19 assert proved\n\
            goal 4 line 20 assert refuted\n\
            in a 3329\n\
            goal 5 line 25 post proved\n\
            goal 6 line 26 post proved\n\
            refuted\n\
        ",
    )
}

#[test]
fn barrett_behind_cut(rt: HostRuntime) -> Result<(), AllocError> {
    expect(
        &rt,
        rt.alloc(),
        &plain(BARRETT_BEHIND_CUT),
        0,
        "\
            goal 0 line 15 exact proved\n\
            goal 1 line 16 exact proved\n\
            goal 2 line 17 exact proved\n\
            goal 3 line 18 assert proved\n\
            goal 4 line 19 cut proved\n\
            goal 5 line 22 exact proved\n\
            goal 6 line 24 exact proved\n\
            goal 7 line 29 exact proved\n\
            goal 8 line 32 post proved\n\
            goal 9 line 33 post proved\n\
            verified\n\
        ",
    )
}

#[test]
fn ntt_layer_8_lanes(rt: HostRuntime) -> Result<(), AllocError> {
    expect(
        &rt,
        rt.alloc(),
        &plain(NTT_LAYER_8_LANES),
        0,
        "\
            goal 0 line 50 exact proved\n\
            goal 1 line 51 assert proved\n\
            goal 2 line 52 exact proved\n\
            goal 3 line 53 exact proved\n\
            goal 4 line 60 exact proved\n\
            goal 5 line 61 assert proved\n\
            goal 6 line 62 exact proved\n\
            goal 7 line 63 exact proved\n\
            goal 8 line 70 exact proved\n\
            goal 9 line 71 assert proved\n\
            goal 10 line 72 exact proved\n\
            goal 11 line 73 exact proved\n\
            goal 12 line 80 exact proved\n\
            goal 13 line 81 assert proved\n\
            goal 14 line 82 exact proved\n\
            goal 15 line 83 exact proved\n\
            goal 16 line 90 exact proved\n\
            goal 17 line 91 assert proved\n\
            goal 18 line 92 exact proved\n\
            goal 19 line 93 exact proved\n\
            goal 20 line 100 exact proved\n\
            goal 21 line 101 assert proved\n\
            goal 22 line 102 exact proved\n\
            goal 23 line 103 exact proved\n\
            goal 24 line 110 exact proved\n\
            goal 25 line 111 assert proved\n\
            goal 26 line 112 exact proved\n\
            goal 27 line 113 exact proved\n\
            goal 28 line 120 exact proved\n\
            goal 29 line 121 assert proved\n\
            goal 30 line 122 exact proved\n\
            goal 31 line 123 exact proved\n\
            goal 32 line 125 post proved\n\
            goal 33 line 126 post proved\n\
            goal 34 line 127 post proved\n\
            goal 35 line 128 post proved\n\
            goal 36 line 129 post proved\n\
            goal 37 line 130 post proved\n\
            goal 38 line 131 post proved\n\
            goal 39 line 132 post proved\n\
            goal 40 line 133 post proved\n\
            goal 41 line 134 post proved\n\
            goal 42 line 135 post proved\n\
            goal 43 line 136 post proved\n\
            goal 44 line 137 post proved\n\
            goal 45 line 138 post proved\n\
            goal 46 line 139 post proved\n\
            goal 47 line 140 post proved\n\
            goal 48 line 141 post proved\n\
            goal 49 line 142 post proved\n\
            goal 50 line 143 post proved\n\
            goal 51 line 144 post proved\n\
            goal 52 line 145 post proved\n\
            goal 53 line 146 post proved\n\
            goal 54 line 147 post proved\n\
            goal 55 line 148 post proved\n\
            verified\n\
        ",
    )
}

#[test]
fn field_25519_4_limbs(rt: HostRuntime) -> Result<(), AllocError> {
    expect(
        &rt,
        rt.alloc(),
        &plain(FIELD_25519_4_LIMBS),
        2,
        "\
            goal 0 line 28 assert proved\n\
            goal 1 line 29 assert proved\n\
            goal 2 line 30 assert proved\n\
            goal 3 line 31 assert proved\n\
            goal 4 line 32 assert proved\n\
            goal 5 line 33 assert proved\n\
            goal 6 line 34 assert proved\n\
            goal 7 line 35 assert proved\n\
            goal 8 line 36 cut proved\n\
            goal 9 line 44 exact proved\n\
            goal 10 line 45 assert proved\n\
            goal 11 line 46 assert proved\n\
            goal 12 line 47 assert proved\n\
            goal 13 line 48 assert proved\n\
            goal 14 line 56 post proved\n\
            goal 15 line 57 post proved\n\
            goal 16 line 58 post proved\n\
            goal 17 line 59 post proved\n\
            goal 18 line 60 post proved\n\
            goal 19 line 61 post unproved width claim\n\
            unproved\n\
        ",
    )
}

#[test]
fn field_25519_5_limbs(rt: HostRuntime) -> Result<(), AllocError> {
    expect(
        &rt,
        rt.alloc(),
        &plain(FIELD_25519_5_LIMBS),
        2,
        "\
            goal 0 line 26 exact proved\n\
            goal 1 line 27 exact proved\n\
            goal 2 line 28 exact proved\n\
            goal 3 line 29 exact proved\n\
            goal 4 line 30 exact proved\n\
            goal 5 line 34 exact proved\n\
            goal 6 line 35 assert proved\n\
            goal 7 line 37 exact proved\n\
            goal 8 line 38 assert proved\n\
            goal 9 line 40 exact proved\n\
            goal 10 line 41 assert proved\n\
            goal 11 line 43 exact proved\n\
            goal 12 line 44 assert proved\n\
            goal 13 line 46 assert proved\n\
            goal 14 line 47 exact proved\n\
            goal 15 line 48 exact proved\n\
            goal 16 line 50 post proved\n\
            goal 17 line 51 post proved\n\
            goal 18 line 52 post proved\n\
            goal 19 line 53 post proved\n\
            goal 20 line 54 post proved\n\
            goal 21 line 55 post unproved width claim\n\
            unproved\n\
        ",
    )
}

#[test]
fn limb_product(rt: HostRuntime) -> Result<(), AllocError> {
    expect(
        &rt,
        rt.alloc(),
        &plain(LIMB_PRODUCT),
        0,
        "\
            goal 0 line 15 exact proved\n\
            goal 1 line 17 exact proved\n\
            goal 2 line 19 assert proved\n\
            goal 3 line 23 exact proved\n\
            goal 4 line 25 exact proved\n\
            goal 5 line 27 exact proved\n\
            goal 6 line 28 exact proved\n\
            goal 7 line 30 exact proved\n\
            goal 8 line 31 exact proved\n\
            goal 9 line 33 post proved\n\
            goal 10 line 34 post proved\n\
            verified\n\
        ",
    )
}

#[test]
fn poly1305_carry(rt: HostRuntime) -> Result<(), AllocError> {
    expect(
        &rt,
        rt.alloc(),
        &plain(POLY1305_CARRY),
        2,
        "\
            goal 0 line 29 exact proved\n\
            goal 1 line 30 exact proved\n\
            goal 2 line 33 exact proved\n\
            goal 3 line 35 exact proved\n\
            goal 4 line 36 exact proved\n\
            goal 5 line 39 exact proved\n\
            goal 6 line 41 exact proved\n\
            goal 7 line 42 exact proved\n\
            goal 8 line 45 exact proved\n\
            goal 9 line 47 exact proved\n\
            goal 10 line 48 exact proved\n\
            goal 11 line 51 exact proved\n\
            goal 12 line 53 exact proved\n\
            goal 13 line 54 exact proved\n\
            goal 14 line 56 exact proved\n\
            goal 15 line 57 exact proved\n\
            goal 16 line 59 exact proved\n\
            goal 17 line 61 post proved\n\
            goal 18 line 62 post proved\n\
            goal 19 line 63 post proved\n\
            goal 20 line 64 post proved\n\
            goal 21 line 65 post unproved width claim\n\
            unproved\n\
        ",
    )
}
