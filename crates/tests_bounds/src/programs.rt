// Programs, whether each of their goals follows from all lines before it ('y' or 'n'), and the intervals of the variables of
// the last goal's fact, each after a space, as the reference, a second implementation of the language, finds them.

pub(crate) const PROGRAMS: &[(&str, &str, &str)] = &[
    (
        "in u8 a\nin u8 b\nin u8 c\nin u8 d\nin u8 e\nin u8 f\npre rng a = 7@u8 && b < 9@u8 && c <= 9@u8 && d > 200@u8 && e >= 200@u8 && f != 3@u8\nassert rng a = 7@u8 && b < 9@u8 && c < 10@u8 && d >= 201@u8 && e > 199@u8\nassert rng f != 3@u8\nend",
        "yn",
        " 7..7 0..8 0..9 201..255 200..255 0..255",
    ),
    (
        "in s8 a\nin s8 b\nin s8 c\nin s8 d\nin s8 e\npre rng -7@s8 = a && -9@s8 < b && -9@s8 <= c && 20@s8 > d && 20@s8 >= e\nassert rng a < 0@s8 && b >= -8@s8 && c >= -9@s8 && d <= 19@s8 && e <= 20@s8\nassert rng b = -8@s8\nend",
        "yn",
        " -7..-7 -8..127 -9..127 -128..19 -128..20",
    ),
    (
        "in u8 a\nin u8 b\npre rng a < 9@u8 || a < 7@u8\npre rng ![b > 5@u8]\npre rng a <= b\npre rng a + 1@u8 < 9@u8\nassert rng a < 9@u8\nassert rng b <= 5@u8\nassert rng a <= b\nend",
        "nnn",
        " 0..8 0..5",
    ),
    (
        "in u8 a\nin u8 b\nin u8 c\nassume rng a <= 10@u8\nassert rng b <= 20@u8\ncut rng c <= 30@u8\nassert rng a <= 20@u8 && b <= 20@u8 && c <= 30@u8\nassert rng c <= 30@u8\nend",
        "nnyy",
        " 0..10 0..20 0..30",
    ),
    (
        "in u8 a\npre alg a = 3\nassert rng a = 3@u8\nend",
        "n",
        " 0..255",
    ),
    (
        "in u8 a\npre rng a > 5@u8\npre rng a < 9@u8 && a != 6@u8\nassert rng a >= 6@u8 && a <= 8@u8\nassert rng a != 6@u8\nend",
        "yn",
        " 6..8",
    ),
    (
        "in u8 a\nin u8 b\npre rng a > 5@u8 && a < 5@u8\nassert rng b = 7@u8\nassert rng false\nassert alg b = 7\nend",
        "yyy",
        " 6..4 7..7",
    ),
    (
        "in u64 a\nin u64 b\npre rng a > 18446744073709551615@u64\nadd u64 c a b\nmulj u32 d 3@u32 4@u32\nassert rng d = 5@u64\nend",
        "yy",
        " 18446744073709551616..18446744073709551615 0..18446744073709551615 0..18446744073709551615 12..12",
    ),
    (
        "in u8 a\nin u8 b\npre rng a < 50@u8 && b < 50@u8\nadd u8 c a b\nassume rng c >= 90@u8\nsub u8 d c 90@u8\nassert rng d <= 8@u8\nend",
        "yyy",
        " 0..49 0..49 90..98 0..8",
    ),
    (
        "in u8 a\nin u8 b\nin u1 c\npre rng a < 100@u8 && b < 100@u8 && a > 9@u8\nadd u8 x a b\nadc u8 y a b c\nsub u8 z a b\nsbb u8 w a b c\nend",
        "yynn",
        " 10..99 0..99 0..1 10..198 10..199 0..255 0..255",
    ),
    (
        "in s8 a\nin s8 b\nin u1 c\npre rng a < 60@s8 && a > -60@s8 && b < 60@s8 && b >= -60@s8\nadd s8 x a b\nadc s8 y a b c\nsub s8 z a b\nsbb s8 w a b c\nassert rng x < 119@s8\nend",
        "yyyyy",
        " -59..59 -60..59 0..1 -119..118 -119..119 -118..119 -119..119",
    ),
    (
        "in u8 a\nin u8 b\npre rng a >= 200@u8 && b < 200@u8\nadd u8 x a b\nsub u8 y a b\nsub u8 z b a\nassert rng y <= 255@u8 && y >= 1@u8\nend",
        "nyny",
        " 200..255 0..199 0..255 1..255 0..255",
    ),
    (
        "in u8 a\nin u8 b\nin u1 c\npre rng a < 100@u8 && b < 100@u8\nadds u8 k x a b\nadcs u8 l y a b c\nsubb u8 m z a b\nsbbs u8 n w a b c\nassert rng k <= 1@u1 && l <= 1@u1 && m <= 1@u1 && n <= 1@u1\nassert rng x < 199@u8\nassert rng k = 0@u1\nend",
        "ynn",
        " 0..99 0..99 0..1 0..1 0..198 0..1 0..255 0..1 0..255 0..1 0..255",
    ),
    (
        "in u8 a\nin u8 b\npre rng a < 16@u8 && b <= 17@u8 && a > 2@u8\nmul u8 x a b\nmull u8 h l a b\nmulj u8 w a b\nassert rng h = 0@u8\nassert rng w <= 255@u16 && w >= 0@u16\nend",
        "yyy",
        " 3..15 0..17 0..255 0..0 0..255 0..255",
    ),
    (
        "in s8 a\nin s8 b\npre rng a <= 10@s8 && a >= -5@s8 && b >= -11@s8 && b <= 7@s8\nmul s8 x a b\nmull s8 h l a b\nmulj s8 w a b\nassert rng w >= -110@s16 && w <= 70@s16\nassert rng h >= -1@s8 && h <= 0@s8\nend",
        "yyy",
        " -5..10 -11..7 -110..70 -1..0 0..255 -110..70",
    ),
    (
        "in u64 a\nin u64 b\nmul u64 x a b\nmull u64 h l a b\nassert rng h = 0@u64\nend",
        "nn",
        " 0..18446744073709551615 0..18446744073709551615 0..18446744073709551615 0..18446744073709551614 0..18446744073709551615",
    ),
    (
        "in s64 a\nin s64 b\nmul s64 x a b\nmull s64 h l a b\nassert rng h = 0@s64\nend",
        "nn",
        " -9223372036854775808..9223372036854775807 -9223372036854775808..9223372036854775807 -9223372036854775808..9223372036854775807 -4611686018427387904..4611686018427387904 0..18446744073709551615",
    ),
    (
        "in u64 a\nin u64 b\npre rng a >= 18446744073709551614@u64 && b >= 18446744073709551613@u64\nmul u64 x a b\nmull u64 h l a b\nassert rng h > 18446744073709551610@u64\nend",
        "ny",
        " 18446744073709551614..18446744073709551615 18446744073709551613..18446744073709551615 0..18446744073709551615 18446744073709551611..18446744073709551614 0..18446744073709551615",
    ),
    (
        "in u64 a\nin u64 b\npre rng a <= 4294967295@u64 && b <= 4294967297@u64\nmul u64 x a b\nassert rng x <= 18446744073709551615@u64\nend",
        "yy",
        " 0..4294967295 0..4294967297 0..18446744073709551615",
    ),
    (
        "in u64 a\nin u64 b\npre rng a <= 4294967296@u64 && b <= 4294967296@u64\nmul u64 x a b\nassert rng x <= 18446744073709551614@u64\nend",
        "nn",
        " 0..4294967296 0..4294967296 0..18446744073709551615",
    ),
    (
        "in s64 a\nin s64 b\npre rng a >= -9223372036854775808@s64 && a <= 9223372036854775807@s64 && b >= -9223372036854775808@s64 && b <= 9223372036854775807@s64\nmul s64 x a b\nmull s64 h l a b\nassert rng h < 0@s64\nend",
        "nn",
        " -9223372036854775808..9223372036854775807 -9223372036854775808..9223372036854775807 -9223372036854775808..9223372036854775807 -4611686018427387904..4611686018427387904 0..18446744073709551615",
    ),
    (
        "in s64 a\nin s64 b\npre rng a >= -9223372036854775808@s64 && a <= -9223372036854775808@s64 && b >= -9223372036854775808@s64 && b <= -9223372036854775808@s64\nmul s64 x a b\nmull s64 h l a b\nassert rng h < 0@s64\nend",
        "nn",
        " -9223372036854775808..-9223372036854775808 -9223372036854775808..-9223372036854775808 -9223372036854775808..9223372036854775807 4611686018427387904..4611686018427387904 0..18446744073709551615",
    ),
    (
        "in s64 a\nin s64 b\npre rng a >= -9223372036854775808@s64 && a <= -1@s64 && b >= 1@s64 && b <= 9223372036854775807@s64\nmul s64 x a b\nmull s64 h l a b\nassert rng h < 0@s64\nend",
        "ny",
        " -9223372036854775808..-1 1..9223372036854775807 -9223372036854775808..9223372036854775807 -4611686018427387904..-1 0..18446744073709551615",
    ),
    (
        "in s64 a\nin s64 b\npre rng a >= 2@s64 && a <= 3@s64 && b >= -9223372036854775808@s64 && b <= 9223372036854775807@s64\nmul s64 x a b\nmull s64 h l a b\nassert rng h < 0@s64\nend",
        "nn",
        " 2..3 -9223372036854775808..9223372036854775807 -9223372036854775808..9223372036854775807 -2..1 0..18446744073709551615",
    ),
    (
        "in s64 a\nin s64 b\npre rng a >= -5@s64 && a <= 7@s64 && b >= -3@s64 && b <= 11@s64\nmul s64 x a b\nmull s64 h l a b\nassert rng h < 0@s64\nend",
        "yn",
        " -5..7 -3..11 -55..77 -1..0 0..18446744073709551615",
    ),
    (
        "in s64 a\nin s64 b\npre rng a >= -7@s64 && a <= -2@s64 && b >= -9@s64 && b <= -4@s64\nmul s64 x a b\nmull s64 h l a b\nassert rng h < 0@s64\nend",
        "yn",
        " -7..-2 -9..-4 8..63 0..0 0..18446744073709551615",
    ),
    (
        "in s64 a\nin s64 b\npre rng a >= 3@s64 && a <= 5@s64 && b >= -2305843009213693952@s64 && b <= 1152921504606846976@s64\nmul s64 x a b\nmull s64 h l a b\nassert rng h < 0@s64\nend",
        "nn",
        " 3..5 -2305843009213693952..1152921504606846976 -9223372036854775808..9223372036854775807 -1..0 0..18446744073709551615",
    ),
    (
        "in s64 a\nin s64 b\npre rng a >= -2147483648@s64 && a <= 2147483648@s64 && b >= -2147483648@s64 && b <= 2147483647@s64\nmul s64 x a b\nmull s64 h l a b\nassert rng h < 0@s64\nend",
        "yn",
        " -2147483648..2147483648 -2147483648..2147483647 -4611686018427387904..4611686018427387904 -1..0 0..18446744073709551615",
    ),
    (
        "in s64 a\nin s64 b\npre rng a >= -4294967296@s64 && a <= 2147483648@s64 && b >= -2147483648@s64 && b <= 2147483648@s64\nmul s64 x a b\nmull s64 h l a b\nassert rng h < 0@s64\nend",
        "nn",
        " -4294967296..2147483648 -2147483648..2147483648 -9223372036854775808..9223372036854775807 -1..0 0..18446744073709551615",
    ),
    (
        "in u64 a\nin u64 b\npre rng a >= 0@u64 && a <= 18446744073709551615@u64 && b >= 0@u64 && b <= 18446744073709551615@u64\nmul u64 x a b\nmull u64 h l a b\nassert rng h < 3@u64\nend",
        "nn",
        " 0..18446744073709551615 0..18446744073709551615 0..18446744073709551615 0..18446744073709551614 0..18446744073709551615",
    ),
    (
        "in u64 a\nin u64 b\npre rng a >= 18446744073709551615@u64 && a <= 18446744073709551615@u64 && b >= 18446744073709551615@u64 && b <= 18446744073709551615@u64\nmul u64 x a b\nmull u64 h l a b\nassert rng h < 3@u64\nend",
        "nn",
        " 18446744073709551615..18446744073709551615 18446744073709551615..18446744073709551615 0..18446744073709551615 18446744073709551614..18446744073709551614 0..18446744073709551615",
    ),
    (
        "in u64 a\nin u64 b\npre rng a >= 1@u64 && a <= 1@u64 && b >= 0@u64 && b <= 18446744073709551615@u64\nmul u64 x a b\nmull u64 h l a b\nassert rng h < 3@u64\nend",
        "yy",
        " 1..1 0..18446744073709551615 0..18446744073709551615 0..0 0..18446744073709551615",
    ),
    (
        "in u64 a\nin u64 b\npre rng a >= 4294967296@u64 && a <= 8589934592@u64 && b >= 2147483648@u64 && b <= 4294967295@u64\nmul u64 x a b\nmull u64 h l a b\nassert rng h < 3@u64\nend",
        "ny",
        " 4294967296..8589934592 2147483648..4294967295 0..18446744073709551615 0..1 0..18446744073709551615",
    ),
    (
        "in u32 a\nin u32 b\nin s32 c\nin s32 d\nmulj u32 x a b\nmulj s32 y c d\nassert rng y > -9000000000000000000@s64\nend",
        "y",
        " 0..4294967295 0..4294967295 -2147483648..2147483647 -2147483648..2147483647 0..18446744065119617025 -4611686016279904256..4611686018427387904",
    ),
    (
        "in u8 a\nin s8 b\nin u8 c\npre rng a < 32@u8 && b < 16@s8 && b >= -16@s8 && c <= 32@u8\nshl u8 x a 3\nshl s8 y b 3\nshl u8 z c 3\nshl s8 w b 4\nassert rng x <= 248@u8\nend",
        "yynny",
        " 0..31 -16..15 0..32 0..248 -128..120 0..255 -128..127",
    ),
    (
        "in u16 a\nin s16 b\nin u16 c\npre rng a >= 512@u16 && a < 700@u16 && b >= -300@s16 && b < -257@s16 && c >= 512@u16 && c < 600@u16\nsplit u16 h l a 8\nsplit s16 i m b 8\nsplit u16 j n c 8\nassert rng h = 2@u16\nassert rng n < 88@u16 && j = 2@u16\nassert rng i = -2@s16 && m < 255@u16\nend",
        "yyy",
        " 512..699 -300..-258 512..599 2..2 0..187 -2..-2 212..254 2..2 0..87",
    ),
    (
        "in u8 h\nin u8 l\nin s8 i\npre rng h < 3@u8 && h > 0@u8 && l >= 5@u8 && i < -2@s8\njoin u8 x h l\njoin s8 y i l\nassert rng x <= 767@u16 && x >= 261@u16\nassert rng y < -512@s16\nend",
        "yy",
        " 1..2 5..255 -128..-3 261..767 -32763..-513",
    ),
    (
        "in u32 h\nin s32 i\nin u32 l\njoin u32 x h l\njoin s32 y i l\nassert rng y < 0@s64\nend",
        "n",
        " 0..4294967295 -2147483648..2147483647 0..4294967295 0..18446744073709551615 -9223372036854775808..9223372036854775807",
    ),
    (
        "in s16 a\nin u16 b\npre rng a >= -128@s16 && a < 128@s16 && b < 256@u16\ncast s8 x a\ncast u8 y a\nvpc u8 z b\nvpc s8 w b\nvpc s16 v a\nassert rng x <= 127@s8\nassert rng z <= 200@u8\nend",
        "ynyyn",
        " -128..127 0..255 -128..127 0..255 0..255 -128..127 -128..127",
    ),
    (
        "in u8 a\nin u8 b\nin u1 c\npre rng a > 9@u8 && a < 20@u8 && b > 30@u8\ncmov u8 x c a b\nmov u8 y a\nassert rng x >= 10@u8\nassert rng y < 20@u8\nend",
        "yy",
        " 10..19 31..255 0..1 10..255 10..19",
    ),
    (
        "in u8 a\nin u8 b\nin s8 c\nin s8 d\npre rng a < 20@u8 && a > 3@u8 && b < 200@u8 && c < 3@s8 && c >= -100@s8\nand u8 x a b\nand s8 y c d\nor u8 z a b\nxor u8 w a b\nnot u8 n a\nnot s8 m c\nassert rng x <= 19@u8\nassert rng z >= 4@u8\nassert rng n <= 251@u8 && n >= 236@u8\nassert rng m <= 99@s8 && m >= -3@s8\nend",
        "ynyy",
        " 4..19 0..199 -100..2 -128..127 0..19 -128..127 4..255 0..255 236..251 -3..99",
    ),
    (
        "nondet u8 k\nassume rng k < 9@u8\nadd u8 x k 1@u8\nassert rng x <= 9@u8\nassert rng x <= 8@u8\nend",
        "yyn",
        " 0..8 1..9",
    ),
    (
        "in u8 a\nin u8 b\npre rng a < 10@u8 && b >= 10@u8\nassert rng true\nassert rng false\nassert rng a < b\nassert rng a <= b && b > a\nassert rng a = b || a != b\nassert rng ![a = b]\nassert rng ![a < b]\nassert rng a < 5@u8 || b < 5@u8\nassert rng ![a < 5@u8 && b < 5@u8]\nassert rng ![a >= b || b <= a]\nassert rng a >= a\nassert rng 3@u8 < 4@u8\nassert rng ![4@u8 <= 3@u8]\nassert rng a + 1@u8 <= b\nassert rng ![a - b = b]\nassert rng true || a + b = b\nassert alg a = a\nend",
        "ynyyyynnyynyynnyn",
        " 0..9 10..255",
    ),
    (
        "in u8 a\npre rng a = 4@u8\nassert rng a = 4@u8\nassert rng ![a != 4@u8]\nassert rng a != 5@u8\nassert rng 4@u8 = a && 4@u8 >= a && 4@u8 <= a\nassert rng ![4@u8 < a] && ![4@u8 > a]\nend",
        "yyyyy",
        " 4..4",
    ),
    (
        "in u8 a\nin u8 b\nin u1 c\npre rng a <= 127@u8 && b <= 127@u8\nadd u8 x a b\nadc u8 y a b c\nsub u8 z a b\nmul u8 w a 2@u8\nshl u8 v a 1\nmul u8 u a 3@u8\nvpc u8 t a\nshl u8 s a 2\nsub u8 r a 0@u8\nsbb u8 q a b c\nend",
        "yynyynynyn",
        " 0..127 0..127 0..1 0..254 0..255 0..255 0..254 0..254 0..255 0..127 0..255 0..127 0..255",
    ),
    (
        "in u16 a\npre rng a = 261@u16\ncast u8 x a\nassert rng x <= 255@u8\nassert rng x = 5@u8\nend",
        "yn",
        " 261..261 0..255",
    ),
];
