//! Range programs of 18 free bits, whose clauses are searched. A second implementation, which walks all their assignments, proves
//! and refutes the same goals; which input refutes a goal is this program's own choice, which it checks.

use crate::solo::{expect, plain};
use std::alloc::AllocError;

#[test]
fn random_range_programs(rt: HostRuntime) -> Result<(), AllocError> {
    let alloc = rt.alloc();
    let cases: &[(&str, u8, &str)] = &[
        (
            "in s8 x\nin s10 y\npre rng y < y\nadd s8 v0 -125@s8 119@s8\nor s8 v1 v0 57@s8\nsub s10 v2 -145@s10 -328@s10\nassert rng ~(-5@s8) <= cast(s8, v2)\nend\n",
            0,
            "goal 0 line 4 exact proved\ngoal 1 line 6 exact proved\ngoal 2 line 7 assert proved\nverified\n",
        ),
        (
            "in u11 x\nin u7 y\npre rng (x | x) < x\nmov u7 v0 y\nxor u11 v1 x x\nnot u7 v2 83@u7\nassert rng (-(1021@u11) | (v1 + x)) != 709@u11\nassert rng y <= y\nend\n",
            0,
            "goal 0 line 7 assert proved\ngoal 1 line 8 assert proved\nverified\n",
        ),
        (
            "in u12 x\nin s6 y\npre rng (y | y) > cast(s6, y)\nadd s6 v0 21@s6 -10@s6\nassert rng (cast(s6, y) * cast(s6, v0)) < y || (y * -15@s6) <= cast(s6, x)\nend\n",
            0,
            "goal 0 line 4 exact proved\ngoal 1 line 5 assert proved\nverified\n",
        ),
        (
            "in u16 x\nin s2 y\npre rng cast(u16, (22964@u16 + x)) >= x\nxor s2 v0 0@s2 -2@s2\nxor u16 v1 x x\nassert rng v0 < ~(y) || ((y & v0) * ~(v0)) <= ~(v0)\nend\n",
            0,
            "goal 0 line 6 assert proved\nverified\n",
        ),
        (
            "in s15 x\nin u3 y\npre rng ((y + y) - ~(y)) > (y & y)\nxor s15 v0 2104@s15 -1549@s15\nmov s15 v1 11352@s15\nmov s15 v2 v0\nassert rng v2 >= -(14075@s15)\nend\n",
            0,
            "goal 0 line 7 assert proved\nverified\n",
        ),
        (
            "in u5 x\nin u13 y\npre rng ((y | y) & cast(u13, x)) = (y + 7276@u13)\nmov u5 v0 x\ncast u13 v1 y\nassert rng (x * v0) <= (x - 0@u5) || v0 >= cast(u5, x)\nend\n",
            0,
            "goal 0 line 6 assert proved\nverified\n",
        ),
        (
            "in s12 x\nin u6 y\npre rng ((x ^ x) ^ cast(s12, x)) != x\ncast u6 v0 x\nvpc s12 v1 y\nsub s12 v2 1899@s12 v1\nassert rng (cast(u6, y) + -(61@u6)) >= 35@u6\nend\n",
            0,
            "goal 0 line 5 exact proved\ngoal 1 line 6 exact proved\ngoal 2 line 7 assert proved\nverified\n",
        ),
        (
            "in s3 x\nin u15 y\npre rng (y + y) <= 29202@u15\nmov u15 v0 y\nand u15 v1 y v0\nassert rng (cast(u15, 1331@u15) ^ cast(u15, v1)) >= (v1 & y) || (x | x) <= x\nend\n",
            0,
            "goal 0 line 6 assert proved\nverified\n",
        ),
        (
            "in u8 x\nin u10 y\npre rng x < x\nnot u10 v0 y\nsub u8 v1 233@u8 x\nadd u8 v2 v1 205@u8\nassert rng cast(u8, v1) >= x\nassert rng ~((32@u8 & 59@u8)) = (v2 + x)\nend\n",
            0,
            "goal 0 line 5 exact proved\ngoal 1 line 6 exact proved\ngoal 2 line 7 assert proved\ngoal 3 line 8 assert proved\nverified\n",
        ),
        (
            "in u6 x\nin u12 y\npre rng (y ^ 1404@u12) = y\nand u12 v0 530@u12 y\ncast u12 v1 v0\nassert rng x = (x - x)\nassert rng ((v0 - y) & cast(u12, y)) >= cast(u12, v1)\nend\n",
            0,
            "goal 0 line 6 assert proved\ngoal 1 line 7 assert proved\nverified\n",
        ),
        (
            "in s10 x\nin u8 y\npre rng ~(y) < y\nxor s10 v0 x x\nor s10 v1 -382@s10 v0\nvpc s10 v2 x\nassert rng y != (y - y)\nassert rng ((y - 188@u8) * cast(u8, v0)) = (y - y)\nend\n",
            0,
            "goal 0 line 6 exact proved\ngoal 1 line 7 assert proved\ngoal 2 line 8 assert proved\nverified\n",
        ),
        (
            "in s6 x\nin u12 y\npre rng ((908@u12 | y) ^ (1466@u12 + y)) >= 1751@u12\nand s6 v0 28@s6 -32@s6\nassert rng ((x ^ v0) * ~(v0)) != ~(x) || cast(u12, (y + y)) = -(y)\nend\n",
            0,
            "goal 0 line 5 assert proved\nverified\n",
        ),
        (
            "in u9 x\nin u9 y\npre rng y = (466@u9 + y)\nor u9 v0 390@u9 366@u9\nxor u9 v1 144@u9 v0\nassert rng y >= y\nassert rng (v1 - y) <= v0 || (cast(u9, x) + cast(u9, v0)) < (v0 * v1)\nend\n",
            0,
            "goal 0 line 6 assert proved\ngoal 1 line 7 assert proved\nverified\n",
        ),
        (
            "in u15 x\nin u3 y\npre rng y < (y & 1@u3)\nor u15 v0 19729@u15 9476@u15\nsub u3 v1 7@u3 5@u3\nassert rng v1 != (v1 | v1) || cast(u3, (y * y)) > -(3@u3)\nassert rng (v0 & x) < v0\nend\n",
            0,
            "goal 0 line 5 exact proved\ngoal 1 line 6 assert proved\ngoal 2 line 7 assert proved\nverified\n",
        ),
        (
            "in s12 x\nin s6 y\npre rng (y & y) = (15@s6 - y)\nand s12 v0 1180@s12 x\nsub s12 v1 -271@s12 x\nassert rng (cast(s6, v1) | (-3@s6 | y)) < y || cast(s6, v1) = y\nassert rng v1 > (v1 ^ x)\nend\n",
            0,
            "goal 0 line 5 exact proved\ngoal 1 line 6 assert proved\ngoal 2 line 7 assert proved\nverified\n",
        ),
        (
            "in s6 x\nin s12 y\npre rng (cast(s12, y) ^ cast(s12, -1986@s12)) = y\nvpc s12 v0 x\nxor s6 v1 18@s6 16@s6\nassert rng (v1 ^ -30@s6) >= v1 || ((x ^ x) ^ (x & x)) < x\nassert rng v0 = y || x < x\nend\n",
            0,
            "goal 0 line 4 exact proved\ngoal 1 line 6 assert proved\ngoal 2 line 7 assert proved\nverified\n",
        ),
        (
            "in s14 x\nin u4 y\npre rng x > -7940@s14\nor s14 v0 x x\nor u4 v1 y 14@u4\nor s14 v2 v0 v0\nassert rng (x | v0) >= v0\nassert rng v0 >= cast(s14, x) || ((y & 5@u4) - (y - 14@u4)) > cast(u4, v2)\nend\n",
            0,
            "goal 0 line 7 assert proved\ngoal 1 line 8 assert proved\nverified\n",
        ),
        (
            "in s4 x\nin s14 y\npre rng (y | y) < y\nxor s4 v0 6@s4 -2@s4\nand s14 v1 y y\nadd s4 v2 6@s4 x\nassert rng ((v1 * v1) ^ (y - v1)) > (y | y) || (v2 & v2) > cast(s4, 6@s4)\nassert rng -5530@s14 <= v1\nend\n",
            0,
            "goal 0 line 6 exact proved\ngoal 1 line 7 assert proved\ngoal 2 line 8 assert proved\nverified\n",
        ),
        (
            "in u7 x\nin s11 y\npre rng (y & y) < cast(s11, y)\nvpc u7 v0 x\nnot s11 v1 y\nxor u7 v2 v0 v0\nassert rng ((x ^ v0) ^ cast(u7, y)) <= v2 || v2 <= v0\nassert rng v1 != (171@s11 & y) || y != cast(s11, y)\nend\n",
            0,
            "goal 0 line 4 exact proved\ngoal 1 line 7 assert proved\ngoal 2 line 8 assert proved\nverified\n",
        ),
        (
            "in s7 x\nin s11 y\nor s11 v0 -415@s11 y\ncast s11 v1 y\nor s11 v2 y v0\nassert rng (-(v0) | cast(s11, v0)) >= -933@s11 || cast(s11, (-660@s11 * v1)) <= (v1 + v0)\nassert rng y > 595@s11 || cast(s7, cast(s11, v2)) != (x + x)\nend\n",
            0,
            "goal 0 line 6 assert proved\ngoal 1 line 7 assert proved\nverified\n",
        ),
        (
            "in s13 x\nin s5 y\npre rng cast(s5, (x - x)) < y\nnot s13 v0 x\nassert rng x != x || (y - y) < (5@s5 ^ y)\nend\n",
            1,
            "goal 0 line 5 assert refuted\nin x 0\nin y 5\nrefuted\n",
        ),
        (
            "in s11 x\nin s7 y\npre rng -(x) != x\nor s11 v0 442@s11 x\nassert rng y > y || (~(x) & (x | 886@s11)) >= v0\nend\n",
            1,
            "goal 0 line 5 assert refuted\nin x 1023\nin y -62\nrefuted\n",
        ),
        (
            "in s10 x\nin u8 y\nand u8 v0 y 54@u8\nassert rng (-(x) | (-268@s10 ^ x)) > cast(s10, 20@u8)\nassert rng x < x\nend\n",
            1,
            "goal 0 line 4 assert refuted\nin x 193\nin y 0\ngoal 1 line 5 assert refuted\nin x -446\nin y 0\nrefuted\n",
        ),
        (
            "in u15 x\nin u3 y\npre rng (12688@u15 * x) != (x | x)\nxor u15 v0 15648@u15 x\nvpc u3 v1 y\nassert rng 0@u3 >= v1\nend\n",
            1,
            "goal 0 line 5 exact proved\ngoal 1 line 6 assert refuted\nin x 12945\nin y 1\nrefuted\n",
        ),
        (
            "in u9 x\nin u9 y\npre rng cast(u9, y) = (y | x)\ncast u9 v0 x\nassert rng ((x ^ 14@u9) + cast(u9, y)) = ~(174@u9)\nend\n",
            1,
            "goal 0 line 5 assert refuted\nin x 160\nin y 162\nrefuted\n",
        ),
        (
            "in s10 x\nin u8 y\npre rng y = y\nsub s10 v0 x 358@s10\nassert rng ((v0 - x) & cast(s10, v0)) > ~(x) || v0 <= 62@s10\nend\n",
            1,
            "goal 0 line 4 exact refuted\nin x -512\nin y 0\ngoal 1 line 5 assert proved\nrefuted\n",
        ),
        (
            "in u16 x\nin u2 y\npre rng -(y) = (y & y)\nnot u2 v0 0@u2\nassert rng cast(u16, -(v0)) > -(37355@u16)\nassert rng v0 >= y\nend\n",
            1,
            "goal 0 line 5 assert refuted\nin x 0\nin y 0\ngoal 1 line 6 assert proved\nrefuted\n",
        ),
        (
            "in s7 x\nin u11 y\nand u11 v0 y 1871@u11\nxor s7 v1 x x\nsub u11 v2 1889@u11 y\nassert rng y = (v2 | y) || v1 = (v1 | -25@s7)\nend\n",
            1,
            "goal 0 line 5 exact refuted\nin x 0\nin y 2047\ngoal 1 line 6 assert refuted\nin x -9\nin y 1888\nrefuted\n",
        ),
        (
            "in s2 x\nin u16 y\npre rng (x - x) >= x\nsub u16 v0 864@u16 y\nassert rng (23784@u16 * 63819@u16) >= (v0 + v0) || y >= (y | y)\nend\n",
            1,
            "goal 0 line 4 exact refuted\nin x -1\nin y 65535\ngoal 1 line 5 assert proved\nrefuted\n",
        ),
        (
            "in u6 x\nin s12 y\nor s12 v0 y -469@s12\nmov s12 v1 y\nassert rng v0 > v0\nassert rng x != -(x) || (cast(u6, v0) - (x & x)) != -(x)\nend\n",
            1,
            "goal 0 line 5 assert refuted\nin x 0\nin y 0\ngoal 1 line 6 assert proved\nrefuted\n",
        ),
        (
            "in s11 x\nin s7 y\nmov s7 v0 y\nsub s7 v1 11@s7 y\nsub s11 v2 -637@s11 x\nassert rng v1 < v0\nassert rng cast(s11, v2) < cast(s11, v1)\nend\n",
            1,
            "goal 0 line 4 exact refuted\nin x 0\nin y -64\ngoal 1 line 5 exact refuted\nin x 1023\nin y -3\ngoal 2 line 6 assert refuted\nin x -1\nin y -1\ngoal 3 line 7 assert refuted\nin x -637\nin y 38\nrefuted\n",
        ),
        (
            "in u11 x\nin s7 y\nadd u11 v0 x 1899@u11\nadd u11 v1 x v0\nassert rng -(v1) < cast(u11, v0) || (y + -34@s7) > (y | y)\nassert rng y > y\nend\n",
            1,
            "goal 0 line 3 exact refuted\nin x 149\nin y 0\ngoal 1 line 4 exact refuted\nin x 75\nin y 0\ngoal 2 line 5 assert proved\ngoal 3 line 6 assert refuted\nin x 8\nin y -6\nrefuted\n",
        ),
        (
            "in u5 x\nin u13 y\nmov u5 v0 x\nassert rng cast(u5, (v0 + v0)) > x\nassert rng cast(u13, (871@u13 & y)) < y || cast(u13, x) >= 7900@u13\nend\n",
            1,
            "goal 0 line 4 assert refuted\nin x 0\nin y 0\ngoal 1 line 5 assert refuted\nin x 2\nin y 3\nrefuted\n",
        ),
        (
            "in u5 x\nin s13 y\nmov u5 v0 x\nsub u5 v1 v0 7@u5\nxor s13 v2 3035@s13 -313@s13\nassert rng (x | v1) <= (v0 ^ x) || (v1 | v0) < cast(u5, v0)\nend\n",
            1,
            "goal 0 line 4 exact refuted\nin x 0\nin y 0\ngoal 1 line 6 assert refuted\nin x 7\nin y 0\nrefuted\n",
        ),
        (
            "in s16 x\nin u2 y\nsub u2 v0 0@u2 y\nor u2 v1 v0 v0\nnot u2 v2 v1\nassert rng -(v0) >= v0 || (v2 | v1) > v0\nassert rng cast(u2, 1@u2) >= -(2@u2)\nend\n",
            1,
            "goal 0 line 3 exact refuted\nin x 0\nin y 1\ngoal 1 line 6 assert proved\ngoal 2 line 7 assert refuted\nin x 0\nin y 0\nrefuted\n",
        ),
        (
            "in s3 x\nin s15 y\npre rng (y | 14639@s15) != (y * -7106@s15)\nmov s15 v0 y\nxor s15 v1 -15747@s15 v0\nassert rng ((v1 ^ v1) & (y | v1)) = -207@s15\nend\n",
            1,
            "goal 0 line 6 assert refuted\nin x 0\nin y 0\nrefuted\n",
        ),
        (
            "in u9 x\nin s9 y\npre rng ((y + y) - (y ^ y)) < (y * y)\ncast s9 v0 x\nassert rng -((x * x)) = x || x <= (184@u9 ^ x)\nassert rng y >= ~(y) || y < v0\nend\n",
            1,
            "goal 0 line 5 assert refuted\nin x 447\nin y -73\ngoal 1 line 6 assert refuted\nin x 319\nin y -128\nrefuted\n",
        ),
        (
            "in s5 x\nin s13 y\nsub s13 v0 1327@s13 y\nxor s5 v1 x -6@s5\nnot s13 v2 y\nassert rng 7@s5 <= (v1 - v1) || (13@s5 & v1) = -(v1)\nassert rng cast(s13, (v1 + v1)) <= (v2 ^ v2) || ((v2 ^ v0) * cast(s13, v2)) < v2\nend\n",
            1,
            "goal 0 line 3 exact refuted\nin x 0\nin y -4096\ngoal 1 line 6 assert refuted\nin x 5\nin y -1057\ngoal 2 line 7 assert proved\nrefuted\n",
        ),
        (
            "in u13 x\nin s5 y\nor u13 v0 x 8095@u13\nvpc u13 v1 y\nassert rng cast(u13, cast(u13, v0)) != cast(u13, 7758@u13)\nend\n",
            1,
            "goal 0 line 4 exact refuted\nin x 96\nin y -16\ngoal 1 line 5 assert proved\nrefuted\n",
        ),
        (
            "in s16 x\nin u2 y\nsub u2 v0 0@u2 y\nor u2 v1 v0 v0\nnot u2 v2 v1\nassert rng -(v0) >= v0 || (v2 | v1) > v0\nassert rng cast(u2, 1@u2) >= -(2@u2)\nend\n",
            1,
            "goal 0 line 3 exact refuted\nin x 0\nin y 1\ngoal 1 line 6 assert proved\ngoal 2 line 7 assert refuted\nin x 0\nin y 0\nrefuted\n",
        ),
    ];
    for (text, status, written) in cases {
        expect(&rt, alloc, &plain(text), *status, *written)?;
    }
    Ok(())
}

/// The product of two words of seven bits commutes: some ten thousand conflicts.
#[test]
fn a_search_of_many_conflicts(rt: HostRuntime) -> Result<(), AllocError> {
    let alloc = rt.alloc();
    let text = "in u7 x\nin u7 y\nin u4 z\nassert rng x * y = y * x || z = 15@u4\nend\n";
    expect(
        &rt,
        alloc,
        &plain(text),
        0,
        "goal 0 line 4 assert proved\nverified\n",
    )
}
