//! Narrow programs with cuts, assumptions and hypotheses of both kinds, made at random: each goal has few free bits, so that its
//! answer and its input are settled by the rules alone. The reports are those of a second implementation.

use crate::solo::{expect, plain};
use std::alloc::AllocError;

#[test]
fn first_ten_narrow_programs(rt: HostRuntime) -> Result<(), AllocError> {
    let alloc = rt.alloc();
    let cases: &[(&str, u8, &str)] = &[
        (
            "in s2 x0\nsplit u2 x0 v2 1@u2 1\nmulj u2 v3 3@u2 x0\njoin s2 v4 0@s2 v2\nassume rng cast(u4, 15@u4) = 0@u4\ncut rng ![~(v4) != (v4 - 0@s4)]\nassert rng [cast(u2, x0) <= ~(2@u2)] || [![v3 < v3]]\nassume rng v3 >= cast(u4, v3)\nassert alg ((7 * v2) + (v4 + 3)) = 16 mod 8\nmulj u3 v5 0@u3 6@u3\nend\n",
            0,
            "goal 0 line 6 cut proved\ngoal 1 line 7 assert proved\ngoal 2 line 9 assert proved\nverified\n",
        ),
        (
            "in u2 x0\npre rng 2@u2 < (x0 ^ x0)\nassert rng ![(3@u2 * x0) != x0]\nadds u2 v1 v2 x0 x0\nadcs u4 v3 v4 10@u4 0@u4 v1\ncut alg ((19 * v4) * 2) = (v4 * (17 - x0))\nor s4 v5 3@s4 7@s4\nnot s2 v6 -1@s2\nassume rng (v1 | v3) > (v3 - v1)\nassert alg v2 = ((v5 + v1) - v1)\nend\n",
            0,
            "goal 0 line 3 assert proved\ngoal 1 line 6 cut proved\ngoal 2 line 10 assert proved\nverified\n",
        ),
        (
            "in s3 x0\ncut alg ((x0 - x0) * (-(x0))) = (x0 + (x0 + 8))\nadd u1 v1 1@u1 0@u1\nassume alg v1 = (v1)**2\nadd s3 v2 x0 x0\ncut rng x0 != (v2 & -2@s3)\nassume rng [-4@s3 != (x0 & v2)] && [[(v1 + v1) < 1@u1] && [~(x0) = x0]]\nadc u3 x0 4@u3 2@u3 v1\nassume alg x0 = (4 + v2)\nmul u4 v4 6@u4 10@u4\nend\n",
            1,
            "goal 0 line 2 cut refuted\nin x0 0\ngoal 1 line 3 exact proved\ngoal 2 line 5 exact refuted\nin x0 -4\ngoal 3 line 6 cut proved\ngoal 4 line 8 exact proved\ngoal 5 line 10 exact proved\nrefuted\n",
        ),
        (
            "in s3 x0\nin u1 x1\nin s4 x2\npre rng (x1 ^ x1) = x1\ncut rng [[x0 <= 1@s3] && [0@u1 < x1]] || [(x1 * x1) <= ~(x1)]\nadd s2 v1 -2@s2 -1@s2\nmulj s2 v2 v1 v1\nassert alg x0 = ((x0 - 15) * x0)\nassume alg ((x0 - 0) + (x2)**1) = ((v1 + v1) * (-(v2)))\nend\n",
            1,
            "goal 0 line 5 cut proved\ngoal 1 line 6 exact refuted\nin x0 0\nin x1 0\nin x2 0\ngoal 2 line 8 assert proved\nrefuted\n",
        ),
        (
            "in u1 x0\ncut alg (x0 - (x0 - x0)) = x0\nsbbs u4 x0 v2 5@u4 14@u4 x0\nnot s4 v3 -1@s4\nassert rng ![1@u1 >= (x0 + x0)]\nmulj u4 v4 v2 v2\njoin u4 v5 v2 9@u4\nassume alg (-((x0 + v5))) = ((0 * v5) - (-(x0))) mod 2**4 - 3\npost rng (v4 ^ v4) != 12@u8\npost rng ~(v3) = v3\nend\n",
            1,
            "goal 0 line 2 cut proved\ngoal 1 line 5 assert refuted\nin x0 0\ngoal 2 line 9 post proved\ngoal 3 line 10 post proved\nrefuted\n",
        ),
        (
            "in s4 x0\nin u1 x1\nsbbs u1 v1 v2 x1 x1 x1\nassume rng x1 = -(v1)\ncut alg ((x1 * 5) + x0) = ((x1 * 20) + (x0 - v1))\nxor s3 v3 1@s3 -2@s3\npost rng v2 = (v1 * 0@u1)\npost rng (x1 ^ x1) < (x1 ^ v2)\nend\n",
            1,
            "goal 0 line 5 cut refuted\nin x0 0\nin x1 1\ngoal 1 line 7 post proved\ngoal 2 line 8 post refuted\nin x0 0\nin x1 0\nrefuted\n",
        ),
        (
            "in u3 x0\nassert rng (x0 & x0) = x0\nsubb u3 v1 v2 x0 x0\nadd u3 v3 v2 v2\ncut rng [v3 = 2@u3] && [![cast(u1, v1) <= (v1 ^ v1)]]\ncut alg (9 * (-(2))) = ((x0 - v3) + (12 * v3)) mod 2**3\nassert alg ((v3)**1 - (x0)**2) = v1 mod 1\ncut rng (v3 & v2) > v2\nassume alg ((v2 + v3) - x0) = v2\nxor u2 v4 3@u2 0@u2\nend\n",
            1,
            "goal 0 line 2 assert proved\ngoal 1 line 4 exact proved\ngoal 2 line 5 cut refuted\nin x0 0\ngoal 3 line 6 cut proved\ngoal 4 line 7 assert proved\ngoal 5 line 8 cut proved\nrefuted\n",
        ),
        (
            "in u1 x0\nin u3 x1\ncut alg (17 - (x1 - 10)) = ((x0 - x1) * (0 + x1)) mod 8\nmul u2 v1 0@u2 1@u2\nassert alg (-(v1)) = x1\nassert rng [(x1 - x1) != (x1 ^ x1)] || [(x1 | 5@u3) = (5@u3 * x1)]\nassume alg v1 = (-((4)**0)) mod 5\npost alg ((15 - v1) - (v1 * 10)) = x1\nend\n",
            1,
            "goal 0 line 3 cut refuted\nin x0 0\nin x1 0\ngoal 1 line 4 exact proved\ngoal 2 line 5 assert proved\ngoal 3 line 6 assert proved\ngoal 4 line 8 post proved\nrefuted\n",
        ),
        (
            "in u1 x0\npre alg (x0 * (x0 + x0)) = ((x0 + x0) * (x0 + 17))\nassert alg (-((2)**3)) = ((6 + x0) + (x0 - x0))\ncast s2 x0 x0\nassume rng x0 >= ~(x0)\nsub u2 v2 2@u2 1@u2\ncut rng [(0@s2 | x0) >= (x0 ^ x0)] && [(x0 + x0) > (x0 * x0)]\nvpc s4 v2 x0\nnot s3 v4 -2@s3\npost rng [[x0 = ~(x0)] || [-(v2) > (v2 | v2)]] && [[(v2 & v2) > (v2 + -1@s4)] && [-3@s3 < ~(v4)]]\nend\n",
            1,
            "goal 0 line 3 assert refuted\nin x0 0\ngoal 1 line 6 exact proved\ngoal 2 line 7 cut proved\ngoal 3 line 8 exact proved\ngoal 4 line 10 post proved\nrefuted\n",
        ),
        (
            "in u2 x0\npre rng (x0 + x0) < x0\npre alg ((x0 + x0) * (x0 * x0)) = 9\ncut rng x0 != (x0 * x0)\nassume alg x0 = ((x0)**3 - (x0 + x0)) mod 1\nmul u3 v1 2@u3 6@u3\nand s4 v2 3@s4 3@s4\npost rng ![(x0 * x0) != (x0 & 1@u2)]\npost rng -(x0) > x0\nend\n",
            0,
            "goal 0 line 4 cut proved\ngoal 1 line 6 exact proved\ngoal 2 line 8 post proved\ngoal 3 line 9 post proved\nverified\n",
        ),
    ];
    for (text, status, written) in cases {
        expect(&rt, alloc, &plain(text), *status, *written)?;
    }
    Ok(())
}

#[test]
fn second_ten_narrow_programs(rt: HostRuntime) -> Result<(), AllocError> {
    let alloc = rt.alloc();
    let cases: &[(&str, u8, &str)] = &[
        (
            "in s4 x0\npre alg x0 = ((x0 - 13) - (x0 - x0))\ncut alg ((8 + x0) - 5) = ((x0)**1 - (x0 + x0)) mod 3\nand s4 v1 x0 x0\nassume rng (x0 - x0) <= x0\nnot u2 v2 3@u2\npost rng (v1 - 3@s4) < 2@s4\npost rng (x0 * v1) < (1@s4 + -2@s4)\nend\n",
            0,
            "goal 0 line 3 cut proved\ngoal 1 line 7 post proved\ngoal 2 line 8 post proved\nverified\n",
        ),
        (
            "in u1 x0\nin s4 x1\nin u2 x2\npre rng x0 < x0\nadc u1 v1 x0 x0 x0\njoin u2 x2 x2 x2\nassume rng [[x0 != (x0 | x0)] && [-(x1) = 1@s4]] || [x1 > ~(x1)]\ncut alg (-((x0 - x0))) = (-((x1 - x2)))\npost rng cast(u1, x2) >= x0\npost alg x2 = x2\nend\n",
            0,
            "goal 0 line 5 exact proved\ngoal 1 line 8 cut proved\ngoal 2 line 9 post proved\ngoal 3 line 10 post proved\nverified\n",
        ),
        (
            "in s4 x0\nin u1 x1\nin s2 x2\nassume rng [x1 = cast(u1, x1)] || [(-1@s4 + x0) > (x0 & x0)]\njoin s4 v1 x0 12@u4\ncut rng (0@u1 & x1) <= (1@u1 + 1@u1)\nassert alg ((x0 + x2) + v1) = ((x1 + x2) + (20)**0) mod 1\ncmov u2 v2 x1 0@u2 2@u2\nsubb u4 v3 v4 0@u4 13@u4\npost rng ![[1@u1 > (v3 + 0@u1)] || [15@u4 <= (13@u4 ^ v4)]]\nend\n",
            0,
            "goal 0 line 6 cut proved\ngoal 1 line 7 assert proved\ngoal 2 line 10 post proved\nverified\n",
        ),
        (
            "in u4 x0\nin u2 x1\npre rng x1 <= 3@u2\ncut alg x0 = (x1 - (x1 + x0))\ncut rng [[(x1 ^ x1) < (x1 & x1)] && [(x0 + x0) != (x0 * x0)]] || [(x0 * x0) > (x0 & x0)]\nmull s3 v1 v2 3@s3 -1@s3\nassume rng (x0 * x0) != (10@u4 ^ x0)\nsubb u3 v3 v4 v2 v2\nassert alg ((-(v1)) + (-(v2))) = (v4)**1\nend\n",
            1,
            "goal 0 line 4 cut refuted\nin x0 1\nin x1 0\ngoal 1 line 5 cut refuted\nin x0 0\nin x1 0\ngoal 2 line 9 assert proved\nrefuted\n",
        ),
        (
            "in s3 x0\nin u1 x1\ncut rng [~(0@u1) > ~(x1)] && [[(x1 ^ x1) != x1] && [cast(u1, 2@s3) != cast(u1, x1)]]\ncast u4 v1 -4@s3\nshl u4 v2 v1 3\nsplit s4 v2 v4 7@s4 1\nsubb u1 v1 v6 x1 x1\nxor s4 v7 v2 v2\nassume alg 8 = ((v6 - 9) - (v2)**1) mod 3\ncut alg (-((x1 * 10))) = (5)**2 mod 1\nend\n",
            1,
            "goal 0 line 3 cut refuted\nin x0 0\nin x1 0\ngoal 1 line 5 exact refuted\nin x0 0\nin x1 1\ngoal 2 line 10 cut proved\nrefuted\n",
        ),
        (
            "in s4 x0\nin s2 x1\nin u1 x2\ncast s2 v1 1@s2\ncut rng x1 < v1\nassert alg ((x0)**3 * v1) = (-(x2))\njoin s4 v2 x0 12@u4\nassert rng (-76@s8 & v2) = (v2 * v2)\nassume alg (-((x1 - 4))) = (x2 * (x0 + x1)) mod 8\nadd u2 v3 3@u2 0@u2\nend\n",
            1,
            "goal 0 line 5 cut refuted\nin x0 0\nin x1 1\nin x2 0\ngoal 1 line 6 assert refuted\nin x0 0\nin x1 0\nin x2 1\ngoal 2 line 8 assert refuted\nin x0 0\nin x1 0\nin x2 0\ngoal 3 line 10 exact proved\nrefuted\n",
        ),
        (
            "in u3 x0\nin s2 x1\nin u1 x2\npre rng [x0 <= (x0 * x0)] || [![x1 >= (x1 - 1@s2)]]\npre alg x2 = x2 mod 16\nadcs u1 v1 x0 x2 x2 x2\ncut alg (x2)**2 = x2 mod 2\nassume rng ![[(x1 + x1) < x1] && [(x0 - x0) != ~(x2)]]\nadc s2 v3 x1 x1 x2\nassert rng cast(u1, x1) = ~(0@u1)\nend\n",
            1,
            "goal 0 line 7 cut proved\ngoal 1 line 9 exact refuted\nin x0 0\nin x1 1\nin x2 1\ngoal 2 line 10 assert refuted\nin x0 0\nin x1 0\nin x2 0\nrefuted\n",
        ),
        (
            "in s3 x0\nin u3 x1\nnondet u3 v1\nand s2 v2 -2@s2 -2@s2\ncut rng v2 >= v2\ncmov u4 v2 1@u1 2@u4 0@u4\nassert rng -(v1) >= cast(u3, -1@s3)\nadcs u3 v4 v5 4@u3 x1 1@u1\nassume alg 13 = ((-(x0)) + 3)\nmov u1 v5 v4\nend\n",
            1,
            "goal 0 line 5 cut proved\ngoal 1 line 7 assert refuted\nin x0 0\nin x1 0\nnondet 3 v1 0\nrefuted\n",
        ),
        (
            "in s4 x0\nsbbs u3 v1 v2 2@u3 1@u3 0@u1\ncut rng ~(x0) <= -(x0)\nassume rng cast(s4, 0@u3) < (x0 | x0)\nassume rng [x0 != x0] || [(v2 - v2) < v2]\nmull s3 v3 v4 -1@s3 -4@s3\nadc s4 v5 x0 x0 v1\nassume alg (v5)**1 = x0\npost alg ((v3 * v5) + (x0 * v2)) = 2 mod 2**3\nend\n",
            1,
            "goal 0 line 3 cut refuted\nin x0 -8\ngoal 1 line 7 exact refuted\nin x0 4\ngoal 2 line 9 post proved\nrefuted\n",
        ),
        (
            "in u3 x0\nnot s2 v1 -1@s2\nadd u1 v2 1@u1 1@u1\nadd s2 v3 v1 v1\ncast u1 v4 v1\ncut alg v3 = v4 mod 8\nsubb u3 v5 v6 x0 5@u3\nassume rng cast(s2, v1) > (v1 & v3)\nor u1 v5 v5 v5\nend\n",
            1,
            "goal 0 line 3 exact refuted\nin x0 0\ngoal 1 line 4 exact proved\ngoal 2 line 6 cut proved\nrefuted\n",
        ),
    ];
    for (text, status, written) in cases {
        expect(&rt, alloc, &plain(text), *status, *written)?;
    }
    Ok(())
}

#[test]
fn third_ten_narrow_programs(rt: HostRuntime) -> Result<(), AllocError> {
    let alloc = rt.alloc();
    let cases: &[(&str, u8, &str)] = &[
        (
            "in s4 x0\nin s3 x1\nassume alg (x1)**3 = ((x1 + 16) - (20 - x0))\nsbbs u1 v1 x0 0@u1 1@u1 1@u1\ncast u3 v1 x0\ncut rng (-4@s3 & -4@s3) != ~(x1)\nadds u4 v4 v5 7@u4 4@u4\nadcs u1 x0 v7 v4 v4 x0\nshl s3 v8 x1 1\nend\n",
            0,
            "goal 0 line 6 cut proved\ngoal 1 line 9 exact proved\nverified\n",
        ),
        (
            "in u4 x0\ncmov s4 v1 0@u1 6@s4 -6@s4\nassume rng ~(v1) >= (v1 + v1)\ncut alg 20 = ((v1 - v1))**2\npost alg ((-(19)))**2 = ((-(x0)) + v1)\npost rng v1 >= (v1 + 5@s4)\nend\n",
            1,
            "goal 0 line 4 cut refuted\nin x0 0\ngoal 1 line 5 post proved\ngoal 2 line 6 post proved\nrefuted\n",
        ),
        (
            "in s3 x0\npre rng (x0 + 3@s3) != x0\nmov s4 v1 5@s4\nassume alg (5 - v1) = ((x0)**1)**3\nvpc s4 v2 v1\ncut rng [[(-1@s3 * x0) < 2@s3] && [(x0 * x0) > (x0 - x0)]] && [cast(s3, v1) > x0]\nxor u2 v3 0@u2 3@u2\npost alg ((x0 - v3) + (-(x0))) = v3 mod 2**3\nend\n",
            1,
            "goal 0 line 5 exact proved\ngoal 1 line 6 cut refuted\nin x0 0\ngoal 2 line 8 post proved\nrefuted\n",
        ),
        (
            "in s2 x0\nin u1 x1\npre rng [[x0 != ~(x0)] || [(x0 | x0) != ~(x0)]] && [![x1 != cast(u1, x0)]]\npre rng [cast(u1, x0) != (x1 * x1)] || [(-2@s2 + x0) <= (x0 + x0)]\ncut rng cast(u1, x1) >= x1\nand u1 v1 x1 x1\ncut rng -(x0) < x0\nassume alg ((v1 - x1) + (-(10))) = (x1 - (6)**0)\nmov s2 v2 x0\npost rng ![(v2 ^ x0) = v2]\nend\n",
            1,
            "goal 0 line 5 cut proved\ngoal 1 line 7 cut refuted\nin x0 0\nin x1 0\ngoal 2 line 10 post proved\nrefuted\n",
        ),
        (
            "in u3 x0\nin u1 x1\npre alg 6 = (-((x0 - x1))) mod 16\npre rng 3@u3 > x0\nnondet u1 v1\nassume alg x0 = 13\ncut rng ![(x1 + 1@u1) > (x1 & 1@u1)]\nnondet u4 v2\nmul u4 x1 v2 v2\npost alg v1 = (x0 - (1 * 5)) mod 2\nend\n",
            0,
            "goal 0 line 7 cut proved\ngoal 1 line 9 exact proved\ngoal 2 line 10 post proved\nverified\n",
        ),
        (
            "in s4 x0\npre rng ~(x0) = cast(s4, x0)\nadd s2 x0 -1@s2 1@s2\nadds u3 v2 v3 6@u3 6@u3\nassume rng (v2 | v2) >= v2\nsub u4 x0 9@u4 1@u4\ncut alg v3 = 13 mod 2\npost alg v3 = 19 mod 2\nend\n",
            0,
            "goal 0 line 3 exact proved\ngoal 1 line 6 exact proved\ngoal 2 line 7 cut proved\ngoal 3 line 8 post proved\nverified\n",
        ),
        (
            "in u4 x0\nassert alg ((20 - x0) + (x0 + x0)) = 7\nnot u4 x0 x0\nassume rng cast(u4, x0) >= cast(u4, x0)\ncut alg ((7)**0 - (9 - x0)) = x0\nadd s4 v2 -4@s4 -6@s4\nand u1 v3 1@u1 1@u1\nend\n",
            1,
            "goal 0 line 2 assert refuted\nin x0 0\ngoal 1 line 5 cut proved\ngoal 2 line 6 exact proved\nrefuted\n",
        ),
        (
            "in s4 x0\nassume rng [[(x0 ^ x0) < ~(x0)] || [(x0 & x0) != (x0 & x0)]] || [x0 < -2@s4]\ncut alg ((x0 + x0) + x0) = (x0 + (-(x0)))\nnot s2 v1 -1@s2\nadcs u3 v2 v3 0@u3 5@u3 1@u1\nassume rng (x0 + -3@s4) < x0\nand s3 v4 -2@s3 -4@s3\nnot u4 v2 14@u4\npost rng v4 > 3@s3\npost alg v4 = (9 * (x0 * 4)) mod 2**3\nend\n",
            1,
            "goal 0 line 3 cut refuted\nin x0 -8\ngoal 1 line 9 post proved\ngoal 2 line 10 post proved\nrefuted\n",
        ),
        (
            "in s4 x0\nin u1 x1\npre rng (x0 * x0) = x0\npre rng (x0 * -5@s4) <= x0\nadd u2 v1 3@u2 1@u2\nnot s2 x1 0@s2\ncut alg (-((-(x0)))) = v1\nassume alg ((x0)**3 * (x1 - x0)) = ((x0)**1 * (v1 + x0))\nsplit s2 x0 v4 x1 1\nend\n",
            1,
            "goal 0 line 5 exact refuted\nin x0 0\nin x1 0\ngoal 1 line 7 cut proved\nrefuted\n",
        ),
        (
            "in u1 x0\nin u4 x1\ncut rng [(x0 ^ x0) <= 1@u1] || [[0@u1 <= cast(u1, x1)] && [~(0@u1) > (0@u1 + 0@u1)]]\nassume alg (-((x0 * x1))) = ((x0 + 10) * (-(x1))) mod 5\nadds u2 v1 v2 2@u2 2@u2\ncast s2 v3 x0\nnondet u3 v4\njoin s3 v5 -2@s3 v4\nmull u4 v6 v7 13@u4 x1\npost rng ![(-1@s2 ^ 0@s2) < (0@s2 | 1@s2)]\nend\n",
            1,
            "goal 0 line 3 cut proved\ngoal 1 line 10 post refuted\nin x0 0\nin x1 0\nnondet 7 v4 0\nrefuted\n",
        ),
    ];
    for (text, status, written) in cases {
        expect(&rt, alloc, &plain(text), *status, *written)?;
    }
    Ok(())
}

#[test]
fn fourth_ten_narrow_programs(rt: HostRuntime) -> Result<(), AllocError> {
    let alloc = rt.alloc();
    let cases: &[(&str, u8, &str)] = &[
        (
            "in u2 x0\nin s2 x1\nassume rng x0 <= (x0 * x0)\ncut alg (x0 * x0) = ((x0 - 7))**0\npost alg (x1 - (x0)**2) = ((19 * x0))**1\npost alg x1 = ((x0 + x1))**0 mod 16\nend\n",
            1,
            "goal 0 line 4 cut refuted\nin x0 0\nin x1 0\ngoal 1 line 5 post refuted\nin x0 1\nin x1 0\ngoal 2 line 6 post proved\nrefuted\n",
        ),
        (
            "in u4 x0\nassert alg x0 = ((x0)**1 - x0) mod 2**3\nnondet u1 v1\nshl u3 v2 7@u3 2\nshl u4 v3 x0 1\nsubb u2 v4 v5 1@u2 3@u2\nmulj u2 v6 v5 0@u2\ncut alg 17 = v3\nassume rng (v2 ^ v2) <= v2\npost rng ![[(x0 + v3) > cast(u4, v6)] || [v3 <= 5@u4]]\nend\n",
            1,
            "goal 0 line 2 assert refuted\nin x0 1\nnondet 3 v1 0\ngoal 1 line 4 exact refuted\nin x0 0\nnondet 3 v1 0\ngoal 2 line 5 exact proved\ngoal 3 line 8 cut proved\ngoal 4 line 10 post proved\nrefuted\n",
        ),
        (
            "in u2 x0\npre rng x0 >= (0@u2 ^ x0)\npre alg x0 = x0 mod 1\nassume alg (14 - x0) = ((-(x0)) * (1)**0) mod 1\nmul u1 v1 0@u1 1@u1\nadc s2 v2 -2@s2 0@s2 v1\ncut rng [(x0 - 0@u2) != (x0 - 1@u2)] || [[(v2 & -2@s2) < ~(v2)] && [v2 < (v2 * v2)]]\nassert alg x0 = x0 mod 2**4 - 3\npost alg (v2)**1 = ((v2)**1 * (13)**3)\npost alg (-((-(19)))) = ((v1 * v1) - (x0)**3) mod 2**3\nend\n",
            1,
            "goal 0 line 5 exact proved\ngoal 1 line 6 exact proved\ngoal 2 line 7 cut proved\ngoal 3 line 8 assert proved\ngoal 4 line 9 post refuted\nin x0 0\ngoal 5 line 10 post proved\nrefuted\n",
        ),
        (
            "in u1 x0\nin u1 x1\nassert rng x0 = cast(u1, x0)\ncut alg ((18 - x0) * (-(x0))) = x0 mod 16\nassume alg ((x1 - x0) * (4 - 6)) = ((0)**1)**3\nnot s3 v1 3@s3\nsub u4 v2 8@u4 14@u4\npost alg 12 = (-(v1)) mod 8\npost alg x0 = v2\nend\n",
            1,
            "goal 0 line 3 assert proved\ngoal 1 line 4 cut refuted\nin x0 1\nin x1 0\ngoal 2 line 7 exact refuted\nin x0 0\nin x1 0\ngoal 3 line 8 post proved\ngoal 4 line 9 post proved\nrefuted\n",
        ),
        (
            "in s2 x0\nin s3 x1\nassert alg x1 = (-((x0 * 17)))\nsplit u4 v1 v2 6@u4 1\ncut rng [(x1 - x1) < (x1 * -3@s3)] || [(v2 | v2) = 9@u4]\nvpc u4 v3 v2\nassume alg ((v1 * x1) - (x1 * x1)) = 17\nnot u1 x0 1@u1\nend\n",
            1,
            "goal 0 line 3 assert refuted\nin x0 0\nin x1 1\ngoal 1 line 5 cut refuted\nin x0 0\nin x1 0\ngoal 2 line 6 exact proved\nrefuted\n",
        ),
        (
            "in s3 x0\nin s3 x1\nin s2 x2\nassume rng ![(x1 - 3@s3) != cast(s3, 2@s3)]\nvpc u4 x2 -2@s3\nassert rng [x1 != (x0 ^ x0)] || [(x2 * x2) = (x2 + x2)]\nassert rng cast(u4, -2@s3) = cast(u4, x1)\nnondet s2 v2\nassert alg ((x0 - x2) + (3 - 17)) = ((x0 + x0) - x1)\ncut rng [(x2 * 15@u4) >= cast(u4, -1@s2)] || [[(x2 | x2) < (1@u4 - x2)] || [~(x2) != x2]]\nend\n",
            1,
            "goal 0 line 5 exact refuted\nin x0 0\nin x1 -3\nin x2 0\nnondet 8 v2 0\ngoal 1 line 6 assert proved\ngoal 2 line 7 assert proved\ngoal 3 line 9 assert proved\ngoal 4 line 10 cut proved\nrefuted\n",
        ),
        (
            "in u2 x0\nin s2 x1\nin u1 x2\npre rng [x1 != (-2@s2 + x1)] && [![x2 > (x2 ^ x2)]]\nassert rng x2 != -(x2)\nshl s3 x0 3@s3 1\nassume rng x1 < (x1 + x1)\nsplit s2 v2 v3 1@s2 1\ncut alg ((v2 - 3) + v2) = x0\ncmov s4 v4 1@u1 5@s4 6@s4\nend\n",
            1,
            "goal 0 line 5 assert refuted\nin x0 0\nin x1 0\nin x2 0\ngoal 1 line 6 exact proved\ngoal 2 line 9 cut proved\nrefuted\n",
        ),
        (
            "in u1 x0\npre rng ~(x0) > (x0 - x0)\nnot u4 x0 0@u4\nassume alg ((12 + 10))**2 = 17 mod 2\nmul u1 v2 1@u1 0@u1\nmul u3 v2 7@u3 0@u3\nsbbs u3 v4 x0 7@u3 1@u3 0@u1\ncut rng (x0 ^ x0) <= (2@u3 | v2)\nadd u2 v6 3@u2 3@u2\npost rng (v4 ^ v4) = 0@u1\nend\n",
            0,
            "goal 0 line 5 exact proved\ngoal 1 line 6 exact proved\ngoal 2 line 8 cut proved\ngoal 3 line 9 exact proved\ngoal 4 line 10 post proved\nverified\n",
        ),
        (
            "in u2 x0\nassert rng cast(u2, x0) <= x0\nassume rng 0@u2 != (x0 - x0)\nadc s3 v1 1@s3 -1@s3 1@u1\nassert alg (v1 + x0) = (9 + (x0 - v1))\ncut rng x0 != x0\nassert rng [![v1 >= v1]] || [(v1 | v1) = -(v1)]\nend\n",
            0,
            "goal 0 line 2 assert proved\ngoal 1 line 4 exact proved\ngoal 2 line 5 assert proved\ngoal 3 line 6 cut proved\ngoal 4 line 7 assert proved\nverified\n",
        ),
        (
            "in u1 x0\npre alg x0 = ((-(x0)) + (x0 * 20))\nsubb u3 x0 v2 5@u3 4@u3\nadd s4 v2 6@s4 -2@s4\nmov u4 v4 15@u4\ncut rng [[v2 >= (v2 ^ v2)] && [(x0 * x0) > 1@u1]] && [(v4 ^ v4) = v4]\nassume rng v4 < (v4 + 12@u4)\nend\n",
            1,
            "goal 0 line 4 exact proved\ngoal 1 line 6 cut refuted\nin x0 0\nrefuted\n",
        ),
    ];
    for (text, status, written) in cases {
        expect(&rt, alloc, &plain(text), *status, *written)?;
    }
    Ok(())
}

#[test]
fn fifth_ten_narrow_programs(rt: HostRuntime) -> Result<(), AllocError> {
    let alloc = rt.alloc();
    let cases: &[(&str, u8, &str)] = &[
        (
            "in u2 x0\nin s4 x1\nadds u1 v1 v2 1@u1 0@u1\nassume alg ((v1 + 18))**2 = v2 mod 8\ncut rng v1 > 1@u1\nvpc s2 v1 v2\nend\n",
            0,
            "goal 0 line 5 cut proved\ngoal 1 line 6 exact proved\nverified\n",
        ),
        (
            "in s2 x0\nin u2 x1\nin u3 x2\npre rng cast(u3, x2) <= ~(x2)\nadc u4 v1 5@u4 15@u4 0@u1\ncmov u4 v2 1@u1 v1 v1\ncut rng x0 > x0\nassume alg x2 = x0 mod 2**4 - 3\npost rng 7@u4 <= (14@u4 - v2)\npost rng ![(x0 + x0) < (x0 * x0)]\nend\n",
            1,
            "goal 0 line 5 exact refuted\nin x0 0\nin x1 0\nin x2 0\ngoal 1 line 7 cut proved\ngoal 2 line 9 post proved\ngoal 3 line 10 post proved\nrefuted\n",
        ),
        (
            "in u1 x0\nin u4 x1\nin u2 x2\npre alg (x2 * (x2)**3) = (x0)**1\npre rng [[0@u2 < x2] || [cast(u4, x2) > (x1 * 5@u4)]] || [![(x0 - x0) >= (1@u1 & x0)]]\nand s3 v1 -3@s3 -4@s3\nassume rng [v1 != v1] && [[x2 > cast(u2, v1)] && [x0 != (1@u1 | x0)]]\nvpc u1 x2 x1\ncut alg ((19 - x1) * (v1)**2) = (-((x2 * 9)))\npost alg ((7 + x2) - (v1 * x0)) = ((x0 * x1) * (v1 + v1)) mod 16\nend\n",
            0,
            "goal 0 line 8 exact proved\ngoal 1 line 9 cut proved\ngoal 2 line 10 post proved\nverified\n",
        ),
        (
            "in s4 x0\nin u4 x1\nnondet u4 v1\ncut alg x1 = x1 mod 5\nassume alg v1 = 16\nadc u2 v2 1@u2 2@u2 1@u1\ncut rng [[v2 < v2] && [(v2 + v2) < (v2 & v2)]] && [![6@s4 >= x0]]\ncut rng (v1 | v1) != (x1 + x1)\nassume rng ![[(x1 | x1) < ~(x1)] || [0@u4 = cast(u4, x0)]]\nend\n",
            0,
            "goal 0 line 4 cut proved\ngoal 1 line 6 exact proved\ngoal 2 line 7 cut proved\ngoal 3 line 8 cut proved\nverified\n",
        ),
        (
            "in u1 x0\nin u3 x1\npre rng [x1 = (x1 | x1)] && [[cast(u3, 1@u1) > -(x1)] && [(1@u3 + x1) <= (x1 & x1)]]\npre rng [![(x0 * 1@u1) >= x0]] || [cast(u3, 0@u3) < 1@u3]\ncut alg (-((-(x0)))) = ((1 * x1) * (x0 * 15))\nnot u4 v1 2@u4\ncut alg 0 = ((v1 * v1) * (-(x0)))\nassert rng (5@u4 & v1) <= ~(v1)\nassert alg x1 = ((-(v1)) - v1) mod 2**3\nassume rng x0 >= (x0 ^ x0)\nend\n",
            0,
            "goal 0 line 5 cut proved\ngoal 1 line 7 cut proved\ngoal 2 line 8 assert proved\ngoal 3 line 9 assert proved\nverified\n",
        ),
        (
            "in u4 x0\npre rng cast(u4, x0) > (13@u4 | x0)\npre rng (x0 ^ x0) != x0\nassume alg 13 = ((x0 + x0) * (x0)**3) mod 2**3\ncmov s3 v1 1@u1 -4@s3 1@s3\nmulj u4 v2 x0 5@u4\nassert rng (x0 + x0) = x0\ncut alg 5 = ((x0 + v1) * (v1 * v2))\npost alg v1 = v2\nend\n",
            0,
            "goal 0 line 7 assert proved\ngoal 1 line 8 cut proved\ngoal 2 line 9 post proved\nverified\n",
        ),
        (
            "in u4 x0\npre alg (x0 + (14)**2) = ((12 - 13) + (x0 * x0))\nassume rng [x0 = (x0 + x0)] || [cast(u4, x0) < x0]\nassert rng (x0 - x0) <= -(x0)\ncut rng (x0 * 14@u4) >= x0\npost rng ![[(x0 * 15@u4) <= (12@u4 - x0)] && [cast(u4, x0) <= cast(u4, x0)]]\npost alg ((14 - 8) - x0) = ((x0 * x0) * x0)\nend\n",
            0,
            "goal 0 line 4 assert proved\ngoal 1 line 5 cut proved\ngoal 2 line 6 post proved\ngoal 3 line 7 post proved\nverified\n",
        ),
        (
            "in s2 x0\npre alg ((x0 - x0) + (x0 - x0)) = x0\npre rng [[(x0 - x0) <= (-2@s2 * x0)] || [x0 <= (x0 * 1@s2)]] || [(x0 + -2@s2) > x0]\nassume rng [(x0 & -2@s2) < x0] || [[x0 < -2@s2] && [-(x0) > (x0 - x0)]]\nor u2 v1 0@u2 3@u2\nsplit u2 v2 v3 v1 1\ncut alg (v1 + (-(x0))) = v2\nsub s4 v4 -8@s4 4@s4\npost rng [(x0 & x0) >= -2@s2] && [![0@u2 <= v3]]\nend\n",
            0,
            "goal 0 line 7 cut proved\ngoal 1 line 8 exact proved\ngoal 2 line 9 post proved\nverified\n",
        ),
        (
            "in u1 x0\nin u4 x1\nin s3 x2\npre alg ((x2 - x2) - 16) = x1\nassume rng (x0 * x0) < (x0 + x0)\ncut rng cast(u4, x0) != (x1 | x1)\nassert alg ((-(x2)))**0 = ((x0 * x2) + (x2 - x1)) mod 2**3\npost rng x1 <= x1\nend\n",
            0,
            "goal 0 line 6 cut proved\ngoal 1 line 7 assert proved\ngoal 2 line 8 post proved\nverified\n",
        ),
        (
            "in s3 x0\nassume alg 6 = 8 mod 8\ncut alg ((1 + x0))**2 = (x0 - (x0)**2) mod 16\nassert alg x0 = x0 mod 1\nmull s2 v1 v2 -2@s2 -1@s2\nsbb s2 v3 v1 1@s2 1@u1\nassert rng (2@u2 ^ v2) = (v2 & v2)\ncast s4 v4 x0\nnot u4 v5 3@u4\nassert alg x0 = v2 mod 2**4 - 3\nend\n",
            0,
            "goal 0 line 3 cut proved\ngoal 1 line 4 assert proved\ngoal 2 line 6 exact proved\ngoal 3 line 7 assert proved\ngoal 4 line 10 assert proved\nverified\n",
        ),
    ];
    for (text, status, written) in cases {
        expect(&rt, alloc, &plain(text), *status, *written)?;
    }
    Ok(())
}

#[test]
fn sixth_ten_narrow_programs(rt: HostRuntime) -> Result<(), AllocError> {
    let alloc = rt.alloc();
    let cases: &[(&str, u8, &str)] = &[
        (
            "in s4 x0\nin u2 x1\npre rng x0 = (x0 - x0)\nsub u3 v1 3@u3 2@u3\nsub u2 x0 x1 x1\nor s4 v1 -6@s4 1@s4\nassume rng x0 != (x0 * x1)\ncut alg x1 = ((x0 * x1))**0\nnondet u2 x1\npost alg ((x1)**1 + (-(v1))) = v1\nend\n",
            0,
            "goal 0 line 4 exact proved\ngoal 1 line 5 exact proved\ngoal 2 line 8 cut proved\ngoal 3 line 10 post proved\nverified\n",
        ),
        (
            "in s4 x0\npre rng (x0 * 4@s4) != x0\npre alg x0 = (-((7 + x0)))\nor u4 x0 8@u4 9@u4\nassume alg (-(x0)) = (x0)**3 mod 8\ncut alg ((x0 + x0) * (-(6))) = ((x0 + 2) * (5)**3) mod 1\nassume alg (x0 * (-(20))) = x0 mod 8\npost alg x0 = ((-(15)) + (11 * 9))\nend\n",
            0,
            "goal 0 line 6 cut proved\ngoal 1 line 8 post proved\nverified\n",
        ),
        (
            "in u1 x0\nassume alg ((x0 - x0) * (x0 * x0)) = (-((9 - x0)))\nadds u1 x0 v2 x0 x0\nsub s4 v2 4@s4 6@s4\ncut rng [cast(u1, v2) >= 0@u1] || [v2 < cast(s4, 1@u1)]\nend\n",
            0,
            "goal 0 line 4 exact proved\ngoal 1 line 5 cut proved\nverified\n",
        ),
        (
            "in u3 x0\npre rng (x0 + x0) = (6@u3 | x0)\nmul u4 x0 0@u4 14@u4\ncut alg ((x0)**3)**3 = (10)**0\nassert alg (-(x0)) = ((18 - x0))**0\nadcs u2 v2 v3 2@u2 3@u2 0@u1\nand u4 v4 10@u4 x0\nassume rng (2@u2 - v3) > (v3 | v3)\nassert alg ((x0 * 4) + (-(v2))) = 3 mod 5\npost rng (3@u2 - 0@u2) > (3@u2 * v3)\nend\n",
            0,
            "goal 0 line 3 exact proved\ngoal 1 line 4 cut proved\ngoal 2 line 5 assert proved\ngoal 3 line 9 assert proved\ngoal 4 line 10 post proved\nverified\n",
        ),
        (
            "in s2 x0\npre rng [0@s2 = x0] && [[(x0 | 0@s2) < (1@s2 | x0)] && [x0 < (x0 - x0)]]\nassume alg (-((x0 + 12))) = ((-(x0)) * (x0 * x0))\nor s4 v1 -1@s4 4@s4\nmulj u2 v2 1@u2 2@u2\nassume rng [[(x0 * -2@s2) <= (x0 + 0@s2)] || [v2 != v2]] && [x0 >= ~(1@s2)]\ncut rng ![cast(s4, 10@u4) >= (v1 | 2@s4)]\nand u1 v3 1@u1 0@u1\nand u1 v4 v3 v3\npost alg (v1 * (-(v3))) = 9\nend\n",
            0,
            "goal 0 line 7 cut proved\ngoal 1 line 10 post proved\nverified\n",
        ),
        (
            "in s3 x0\nin s3 x1\npre rng x0 <= (x0 * x0)\npre alg 2 = x0 mod 2\nsbb u1 v1 1@u1 0@u1 1@u1\ncast u3 v2 v1\nsubb u1 v3 v1 v1 v1\nassume alg ((x0 + x0) + v1) = ((-(v1)) * x1) mod 2**3\ncut alg 2 = v1 mod 2\nend\n",
            0,
            "goal 0 line 5 exact proved\ngoal 1 line 9 cut proved\nverified\n",
        ),
        (
            "in s3 x0\npre rng (x0 ^ x0) = cast(s3, -3@s3)\ncast u1 v1 x0\nsubb u3 v2 v3 1@u3 0@u3\nassert alg ((8 - x0) - 1) = v1\ncut alg (x0)**2 = ((-(5)) - x0) mod 8\nmull u1 v4 v5 v1 0@u1\nassume rng [![-(v3) <= (v3 * v3)]] && [[v3 = v3] || [v1 <= -(v1)]]\ncut rng v2 = v4\nend\n",
            0,
            "goal 0 line 5 assert proved\ngoal 1 line 6 cut proved\ngoal 2 line 9 cut proved\nverified\n",
        ),
        (
            "in s4 x0\npre rng x0 != x0\nnot s3 v1 -2@s3\ncut alg v1 = (x0 * (v1 + v1)) mod 8\nassume rng [x0 < (x0 * -6@s4)] && [~(x0) <= (x0 - 4@s4)]\npost alg ((v1 * 17) - (4 - 7)) = 12 mod 16\nend\n",
            0,
            "goal 0 line 4 cut proved\ngoal 1 line 6 post proved\nverified\n",
        ),
        (
            "in u1 x0\nassume rng ![(x0 * 1@u1) <= (x0 | x0)]\nadc u2 v1 2@u2 2@u2 x0\nsbbs u1 v2 v3 x0 x0 x0\ncut rng [[v3 > v2] || [(0@u1 * x0) >= (x0 - v2)]] && [-(v3) <= cast(u1, x0)]\nassume alg v1 = (-((v3)**1)) mod 2**4 - 3\ncut rng 1@u1 >= v3\nnondet s4 v4\ncast u3 v5 v4\nend\n",
            0,
            "goal 0 line 3 exact proved\ngoal 1 line 5 cut proved\ngoal 2 line 7 cut proved\nverified\n",
        ),
        (
            "in u2 x0\npre alg x0 = (x0 * (x0 + x0))\nassume rng (x0 + 1@u2) >= x0\ncut alg (x0 * (x0 + x0)) = x0\nassert alg ((x0 + x0) * (x0 - 16)) = 20 mod 2\npost rng cast(u2, x0) = x0\nend\n",
            0,
            "goal 0 line 4 cut proved\ngoal 1 line 5 assert proved\ngoal 2 line 6 post proved\nverified\n",
        ),
    ];
    for (text, status, written) in cases {
        expect(&rt, alloc, &plain(text), *status, *written)?;
    }
    Ok(())
}
