// Programs with their goals: for each goal its place, its kind, the start of its default hypotheses, and these. The reference,
// a second implementation of the language, made the lines.

const PROGRAMS: &[(&str, &str)] = &[
    (
        "in u8 x\npre rng x < 200@u8\nadd u8 y x 1@u8\ncut rng y <= 200@u8\nassert rng y <= 200@u8\nend",
        "2 exact 0: 1; 3 cut 0: 1 2; 4 assert 3: 3",
    ),
    ("in u8 x\nadd u8 y x 1@u8\nend", "1 exact 0:"),
    ("in u8 x\nend", ""),
    (
        "in u8 x\nin u8 y\nadds u8 c r x y\npost alg r + 256*c = x + y\nend",
        "3 post 0:",
    ),
    ("nondet u4 k\nassert rng k < 15@u4\nend", "1 assert 0:"),
    (
        "in u8 x\nnondet u4 k\ncut rng x < 10@u8\ncut alg x = 3\nassert alg x = 3 mod 5\nassert rng k < 3@u4\nend",
        "2 cut 0:; 3 cut 0: 2; 4 assert 2: 2 3; 5 assert 2: 2 3 4",
    ),
    (
        "in u8 x\nassume rng x < 10@u8\nassume alg x = 2 mod 4\nmul u8 y x x\ncut rng y < 100@u8\nsub u8 z y 1@u8\npost alg z = y - 1\nend",
        "3 exact 0: 1 2; 4 cut 0: 1 2 3; 5 exact 4: 4; 6 post 4: 4 5",
    ),
    (
        "in u8 x\ncut rng x <= 255@u8\nadd u8 x x 1@u8\ncut alg x = x\ncut rng x > 0@u8\nadd u8 x x 2@u8\nassert rng x > 2@u8\nend",
        "1 cut 0:; 2 exact 1: 1; 3 cut 1: 1 2; 4 cut 1: 1 2 3; 5 exact 3: 3 4; 6 assert 3: 3 4 5",
    ),
    (
        "cut rng true\nassert rng true\nend",
        "0 cut 0:; 1 assert 0: 0",
    ),
    (
        "in u8 a\nin u8 b\nin u8 c\npre alg a = b\nadd u8 d a b\nadd u8 e d c\ncut rng e < 100@u8\nmov u8 f e\nadd u8 g f b\npost rng g < 100@u8\nend",
        "4 exact 0: 3; 5 exact 0: 3 4; 6 cut 0: 3 4 5; 8 exact 6: 6; 9 post 6: 6 8",
    ),
    (
        "in s8 a\nvpc u8 b a\ncast s8 c b\ncut alg c = a\nshl s8 d c 1\npost alg d = 2*a\npost rng d < 100@s8\nend",
        "1 exact 0:; 3 cut 0: 1; 4 exact 3: 3; 5 post 3: 3 4; 6 post 3: 3 4 5",
    ),
    (
        "in u16 a\nsplit u16 h l a 8\ncut alg h*256 + l = a\njoin u16 b h l\npost alg b = a mod 65536\nend",
        "2 cut 0:; 4 post 2: 2",
    ),
    (
        "in u1 c\nin u8 a\nin u8 b\ncmov u8 m c a b\nassert rng m = a || m = b\ncut rng m < 50@u8\nassume rng a < 20@u8\nand u8 n m a\nor u8 o n b\npost rng o < 64@u8\nend",
        "4 assert 0:; 5 cut 0: 4; 9 post 5: 5 6",
    ),
    (
        "in u8 x\nassert rng x < 100@u8\nassert rng x < 200@u8\nend",
        "1 assert 0:; 2 assert 0: 1",
    ),
    (
        "in u32 x\npre rng x <= 3@u32\ncut rng x <= 10@u32\nassert rng x <= 5@u32\nend",
        "2 cut 0: 1; 3 assert 2: 2",
    ),
    (
        "in u8 x\nin u8 y\nmull u8 h l x y\nassume rng h = 0@u8\nadd u8 s l y\ncut alg s = x*y + y\nnondet u8 k\nadd u8 t s k\npost rng t >= k\nend",
        "4 exact 0: 3; 5 cut 0: 3 4; 7 exact 5: 5; 8 post 5: 5 7",
    ),
    (
        "in u8 x\nnot u8 y x\nxor u8 z x y\nassert rng z = 255@u8\ncut rng z = 255@u8\ncut alg z = 255\nsub u8 w z 5@u8\nassert alg w = 250\nend",
        "3 assert 0:; 4 cut 0: 3; 5 cut 0: 3 4; 6 exact 4: 4 5; 7 assert 4: 4 5 6",
    ),
    ("in u8 x\nadc u8 y x x 1@u1\nend", "1 exact 0:"),
    (
        "in u8 x\nnondet u1 c\nadc u8 y x 5@u8 c\nsbb u8 z y 1@u8 c\ncut rng y < 200@u8\nsubb u8 b d z y\npost alg d - 256*b = z - y\nend",
        "2 exact 0:; 3 exact 0: 2; 4 cut 0: 2 3; 6 post 4: 4",
    ),
    (
        "in u8 x\nadd u8 x x 1@u8\nadd u8 x x 1@u8\ncut rng x > 0@u8\nadd u8 x x 1@u8\nend",
        "1 exact 0:; 2 exact 0: 1; 3 cut 0: 1 2; 4 exact 3: 3",
    ),
    (
        "in u8 a\nin u8 b\npre rng a < b\npre alg b = 7\nsub u8 c b a\ncut alg c = b - a\ncut rng c < 8@u8\nmul u8 d c c\npost alg d = c*c\npost rng d < 50@u8\nend",
        "4 exact 0: 2 3; 5 cut 0: 2 3 4; 6 cut 0: 2 3 4 5; 7 exact 5: 5 6; 8 post 5: 5 6 7; 9 post 5: 5 6 7 8",
    ),
    (
        "in u64 a0\nin u64 b0\nadds u64 c r a0 b0\npost alg r + 2**64*c = a0 + b0\nend",
        "3 post 0:",
    ),
    (
        "nondet s4 k\nnondet s4 j\nmulj s4 p k j\nassert rng p <= 64@s8\ncut rng p > -60@s8\nvpc s4 q p\nend",
        "3 assert 0:; 4 cut 0: 3; 5 exact 4: 4",
    ),
    (
        "in u2 a\nin u3 b\nassume alg a + b = 4\ncut alg a + b = 4 mod 5\nassert alg a = 4 - b\nassert rng a < 3@u2\nend",
        "3 cut 0: 2; 4 assert 3: 3; 5 assert 3: 3 4",
    ),
    (
        "in u8 x\ncut alg x = x\nmov u8 y x\ncut rng y = x\nmov u8 z y\ncut alg z = x\nassert rng z = x\nend",
        "1 cut 0:; 3 cut 1: 1; 5 cut 3: 3; 6 assert 5: 5",
    ),
    (
        "in u8 x\nin u8 y\nassume rng x < 16@u8\nadd u8 a x 1@u8\nadd u8 b y 1@u8\ncut rng a <= 16@u8\nadd u8 c a 1@u8\nadd u8 d b 1@u8\nassert rng c <= 17@u8\nend",
        "3 exact 0: 2; 4 exact 0: 2 3; 5 cut 0: 2 3 4; 6 exact 5: 5; 7 exact 5: 5 6; 8 assert 5: 5 6 7",
    ),
    (
        "in u8 x\nshl u8 y x 2\ncut rng y < 64@u8\nassume alg y = 4*x\nshl u8 z y 1\nassert alg z = 8*x mod 256\nend",
        "1 exact 0:; 2 cut 0: 1; 4 exact 2: 2 3; 5 assert 2: 2 3 4",
    ),
    (
        "in u4 a\nin u4 b\npre alg a*b = 6 mod 7\nmul u4 c a b\ncut alg c = a*b\nassume rng a > 2@u4\nassert rng b < 5@u4\npost alg c = 6 mod 7\nend",
        "3 exact 0: 2; 4 cut 0: 2 3; 6 assert 4: 4 5; 7 post 4: 4 5 6",
    ),
    (
        "in u8 x\nassert alg 1 = 2\nassert rng false\ncut rng true\nassert alg 3 = 3\nend",
        "1 assert 0:; 2 assert 0: 1; 3 cut 0: 1 2; 4 assert 3: 3",
    ),
    (
        "in u8 x\nin u8 y\nin u8 z\nadds u8 c r x y\nadcs u8 d s z 1@u8 c\ncut alg s + 256*d = z + 1 + c\ncut rng r < 250@u8\nadd u8 t r 5@u8\npost alg t = r + 5\npost rng d <= 1@u1\nend",
        "5 cut 0:; 6 cut 0: 5; 7 exact 5: 5 6; 8 post 5: 5 6 7; 9 post 5: 5 6 7 8",
    ),
];

/// The programs and their goals. A table is dear to prove wherever it is named, so it is named here alone.
pub(crate) fn programs() -> &'static [(&'static str, &'static str)] {
    PROGRAMS
}
