//! Goals that rest on more than 17 free bits: their clauses are searched, or their claims are reduced. Where a second
//! implementation answers it agrees; which input refutes a searched goal is this program's own choice, which it checks.

use crate::solo::{expect, plain};
use std::alloc::AllocError;

#[test]
fn goals_whose_clauses_are_searched(rt: HostRuntime) -> Result<(), AllocError> {
    let alloc = rt.alloc();
    let cases: &[(&str, u8, &str)] = &[
        (
            "in u32 x\nassert rng x = x\nend\n",
            0,
            "goal 0 line 2 assert proved\nverified\n",
        ),
        (
            "in u32 x\nin u32 y\nassert rng x & y = y & x\nend\n",
            0,
            "goal 0 line 3 assert proved\nverified\n",
        ),
        (
            "in u32 x\npre rng x <= 3@u32\ncut rng x <= 10@u32\nassert rng x <= 5@u32\nend\n",
            0,
            "goal 0 line 3 cut proved\ngoal 1 line 4 assert proved\nverified\n",
        ),
        (
            "in u32 x\npre rng x & 4294967295@u32 <= 3@u32\nassert rng x <= 3@u32\nend\n",
            0,
            "goal 0 line 3 assert proved\nverified\n",
        ),
        (
            "in u18 x\nassert rng x != 5@u18\nend\n",
            1,
            "goal 0 line 2 assert refuted\nin x 5\nrefuted\n",
        ),
        (
            "in u8 x\nin u32 y\nassert rng x < 255@u8\nassert rng y <= y\nend\n",
            1,
            "goal 0 line 3 assert refuted\nin x 255\nin y 0\ngoal 1 line 4 assert proved\nrefuted\n",
        ),
        (
            "in u32 x\npre alg x*x = 4\nassert rng x = 2@u32\nend\n",
            2,
            "goal 0 line 3 assert unproved stray 2\nin x 3\nunproved\n",
        ),
        (
            "in u32 x\nin u32 y\npre alg x = 3\npre alg y = 5 mod 2**32\nassert rng x + y = 8@u32\nend\n",
            0,
            "goal 0 line 5 assert proved\nverified\n",
        ),
        (
            "in s32 x\npre rng x != -2147483648@s32\nsub s32 y 0@s32 x\nassert rng x ^ y ^ x = y\nend\n",
            0,
            "goal 0 line 3 exact proved\ngoal 1 line 4 assert proved\nverified\n",
        ),
        (
            "in u32 x\nnot u32 y x\nassert rng x & y = 0@u32\nassert rng x | y = 4294967295@u32\nend\n",
            0,
            "goal 0 line 3 assert proved\ngoal 1 line 4 assert proved\nverified\n",
        ),
        (
            "in u20 x\nin u20 y\nadds u20 c s x y\nassert rng s + 1@u20 != x + y\npost rng s >= x || c = 1@u1\nend\n",
            0,
            "goal 0 line 4 assert proved\ngoal 1 line 5 post proved\nverified\n",
        ),
    ];
    for (text, status, written) in cases {
        expect(&rt, alloc, &plain(text), *status, *written)?;
    }
    Ok(())
}

#[test]
fn goals_whose_claims_are_reduced(rt: HostRuntime) -> Result<(), AllocError> {
    let alloc = rt.alloc();
    let cases: &[(&str, u8, &str)] = &[
        (
            "in u18 x\npost alg x = x\nend\n",
            0,
            "goal 0 line 2 post proved\nverified\n",
        ),
        (
            "in u64 x\nassert alg x = 1\nend\n",
            1,
            "goal 0 line 2 assert refuted\nin x 0\nrefuted\n",
        ),
        (
            "in u8 x\nassert alg x**17 = 0\nend\n",
            1,
            "goal 0 line 2 assert refuted\nin x 255\nrefuted\n",
        ),
        (
            "in u64 a0\nin u64 a1\nin u64 b0\nin u64 b1\nadds u64 c0 r0 a0 b0\nadcs u64 c1 r1 a1 b1 c0\npost alg r0 + 2**64*r1 + 2**128*c1 = a0 + 2**64*a1 + b0 + 2**64*b1 mod 2**61 - 1\nend\n",
            0,
            "goal 0 line 7 post proved\nverified\n",
        ),
        (
            "in u32 x\ncast s32 y x\npost alg x = y mod 2**32\nend\n",
            0,
            "goal 0 line 3 post proved\nverified\n",
        ),
        (
            "in u32 a0\nin u32 a1\nin u32 b0\nin u32 b1\nadds u32 c s0 a0 b0\nadcs u32 d s1 a1 b1 c\nassert alg s0 + 2**32 * s1 + 2**64 * d = a0 + 2**32 * a1 + b0 + 2**32 * b1\nend\n",
            0,
            "goal 0 line 7 assert proved\nverified\n",
        ),
        (
            "in s32 a\npre rng -109084671@s32 <= a && a <= 109084671@s32\ncast s16 a0 a\nmull s16 h m a0 -3327@s16\ncast s16 t m\nmulj s16 p t 3329@s16\nsub s32 d a p\nsplit s32 r lo d 16\nassert alg lo = 0 mod 65536\nassert rng lo = 0@u32\nvpc s16 y r\npost alg 65536*y = a mod 3329\npost rng -3329@s16 <= y && y <= 3329@s16\nend\n",
            2,
            "goal 0 line 7 exact proved\ngoal 1 line 9 assert proved\ngoal 2 line 10 assert proved\ngoal 3 line 11 exact proved\ngoal 4 line 12 post unproved later\ngoal 5 line 13 post proved\nunproved\n",
        ),
        (
            "in s16 a\nin s16 b\nin s16 z\npre rng -3329@s16 <= a && a <= 3329@s16\npre rng -3329@s16 <= b && b <= 3329@s16\npre rng -1664@s16 <= z && z <= 1664@s16\nmulj s16 x b z\ncast s16 x0 x\nmull s16 h m x0 -3327@s16\ncast s16 t m\nmulj s16 p t 3329@s16\nsub s32 d x p\nsplit s32 r lo d 16\nassert alg lo = 0 mod 65536\nassert rng lo = 0@u32\nvpc s16 y r\nadd s16 f a y\nsub s16 g a y\npost alg 65536*f = 65536*a + b*z mod 3329\npost alg 65536*g = 65536*a - b*z mod 3329\npost rng -5078@s16 <= f && f <= 5078@s16\npost rng -5078@s16 <= g && g <= 5078@s16\nend\n",
            2,
            "goal 0 line 12 exact proved\ngoal 1 line 14 assert proved\ngoal 2 line 15 assert proved\ngoal 3 line 16 exact proved\ngoal 4 line 17 exact proved\ngoal 5 line 18 exact proved\ngoal 6 line 19 post unproved later\ngoal 7 line 20 post unproved later\ngoal 8 line 21 post proved\ngoal 9 line 22 post proved\nunproved\n",
        ),
        (
            "in u64 a0\nin u64 a1\nin u64 b0\nin u64 b1\nadds u64 c0 r0 a0 b0\nadcs u64 c1 r1 a1 b1 c0\npost alg r0 + 2**64*r1 + 2**128*c1 = a0 + 2**64*a1 + b0 + 2**64*b1\nend\n",
            2,
            "goal 0 line 7 post unproved width claim\nunproved\n",
        ),
        (
            "in u64 x\nand u64 y x x\npost alg y = x\nend\n",
            2,
            "goal 0 line 3 post unproved later\nunproved\n",
        ),
        (
            "in u32 x\nassert alg x**1024*x = x*x**1024\nend\n",
            2,
            "goal 0 line 2 assert unproved size degree 1025\nunproved\n",
        ),
        (
            "in u32 x\nin u32 y\nmull u32 h l x y\nassert alg 2**32*h + l = x*y\nassert alg h = x*y mod 3\nend\n",
            1,
            "goal 0 line 4 assert proved\ngoal 1 line 5 assert refuted\nin x 4294967295\nin y 4294967295\nrefuted\n",
        ),
        (
            "in u32 x\nadd u32 y x 1@u32\nassert alg y = x + 1\nassert alg y = x + 2 mod 5\nend\n",
            1,
            "goal 0 line 2 exact refuted\nin x 4294967295\ngoal 1 line 3 assert proved\ngoal 2 line 4 assert refuted\nin x 0\nrefuted\n",
        ),
    ];
    for (text, status, written) in cases {
        expect(&rt, alloc, &plain(text), *status, *written)?;
    }
    Ok(())
}
