// Lines with predicates, each after the first reason for which it is ill-typed behind the names, or `fine`. The answers
// were made by the reference's `check` command.

// Equations and congruences.
pub(super) const EQUATIONS: &str = "\
fine: pre alg a = 0
undefined: pre alg a = x
modulus: pre alg a = 0 mod 0
undefined: pre alg x = 0 mod 0
fine: assert alg a = 0
undefined: assert alg a = x
modulus: assert alg a = 0 mod 0
undefined: assert alg x = 0 mod 0
fine: assume alg a = 0
undefined: assume alg a = x
modulus: assume alg a = 0 mod 0
undefined: assume alg x = 0 mod 0
fine: cut alg a = 0
undefined: cut alg a = x
modulus: cut alg a = 0 mod 0
undefined: cut alg x = 0 mod 0
fine: post alg a = 0
undefined: post alg a = x
modulus: post alg a = 0 mod 0
undefined: post alg x = 0 mod 0
fine: assert alg a = j
undefined: assert alg x = j
undefined: assert alg j = x
fine: assert alg -a = j
undefined: assert alg -x = j
undefined: assert alg j = -x
fine: assert alg a + h = j
undefined: assert alg x + h = j
undefined: assert alg j = x + h
fine: assert alg h + a = j
undefined: assert alg h + x = j
undefined: assert alg j = h + x
fine: assert alg a - h = j
undefined: assert alg x - h = j
undefined: assert alg j = x - h
fine: assert alg h - a = j
undefined: assert alg h - x = j
undefined: assert alg j = h - x
fine: assert alg a * h = j
undefined: assert alg x * h = j
undefined: assert alg j = x * h
fine: assert alg h * a = j
undefined: assert alg h * x = j
undefined: assert alg j = h * x
fine: assert alg a**2 = j
undefined: assert alg x**2 = j
undefined: assert alg j = x**2
fine: assert alg a**0 = j
undefined: assert alg x**0 = j
undefined: assert alg j = x**0
fine: assert alg -(a**3 * 5 - d) = j
undefined: assert alg -(x**3 * 5 - d) = j
undefined: assert alg j = -(x**3 * 5 - d)
fine: assert alg 170141183460469231731687303715884105727 = 0
fine: assert alg a = b mod 1
modulus: assert alg a = b mod 0
fine: assert alg a = b mod 7
fine: assert alg a = b mod 170141183460469231731687303715884105727
fine: assert alg a = b mod 2**0
fine: assert alg a = b mod 2**8
fine: assert alg a = b mod 2**1024
fine: assert alg a = b mod 2**8 - 1
fine: assert alg a = b mod 2**8 + 255
fine: assert alg a = b mod 2**8 - 255
modulus: assert alg a = b mod 2**8 - 256
fine: assert alg a = b mod 2**8 + 0
fine: assert alg a = b mod 2**0 - 0
modulus: assert alg a = b mod 2**0 - 1
modulus: assert alg a = b mod 2**0 + 1
fine: assert alg a = b mod 2**255 - 19
fine: assert alg a = b mod 2**8 - 2**4
fine: assert alg a = b mod 2**8 + 2**4 - 2**2 + 3
modulus: assert alg a = b mod 2**8 - 2**8
modulus: assert alg a = b mod 2**8 + 2**8
modulus: assert alg a = b mod 2**4 - 2**8
modulus: assert alg a = b mod 2**8 - 2**4 + 2**4
modulus: assert alg a = b mod 2**8 - 2**4 + 16
fine: assert alg a = b mod 2**8 - 2**4 + 15
modulus: assert alg a = b mod 3**2
modulus: assert alg a = b mod 1**2
modulus: assert alg a = b mod 2**8 - 3**2
modulus: assert alg a = b mod 3 + 2**2
modulus: assert alg a = b mod 5 + 3
modulus: assert alg a = b mod 2**8 + 3 + 2
modulus: assert alg a = b mod 2**8 + 3 - 2**1
fine: assert alg a = b mod 2**127 - 170141183460469231731687303715884105727
modulus: assert alg a = b mod 2**126 - 170141183460469231731687303715884105727
fine: assert alg a = b mod 2**126 + 85070591730234615865843651857942052863
modulus: assert alg a = b mod 2**126 + 85070591730234615865843651857942052864
fine: assert alg a = b mod 2
modulus: assert alg a = b mod 4**1
undefined: assert alg a = x mod 3**2
";

// Predicates over words.
pub(super) const WORDS: &str = "\
fine: pre rng a = b
undefined: pre rng a = x
literal: pre rng a = 256@u8
mismatch: pre rng a = h
fine: pre rng true
fine: assert rng a = b
undefined: assert rng a = x
literal: assert rng a = 256@u8
mismatch: assert rng a = h
fine: assert rng true
fine: assume rng a = b
undefined: assume rng a = x
literal: assume rng a = 256@u8
mismatch: assume rng a = h
fine: assume rng true
fine: cut rng a = b
undefined: cut rng a = x
literal: cut rng a = 256@u8
mismatch: cut rng a = h
fine: cut rng true
fine: post rng a = b
undefined: post rng a = x
literal: post rng a = 256@u8
mismatch: post rng a = h
fine: post rng true
mismatch: assert rng a = d
mismatch: assert rng h = a
fine: assert rng h = i
fine: assert rng a != b
mismatch: assert rng a != d
mismatch: assert rng h != a
fine: assert rng h != i
fine: assert rng a < b
mismatch: assert rng a < d
mismatch: assert rng h < a
fine: assert rng h < i
fine: assert rng a <= b
mismatch: assert rng a <= d
mismatch: assert rng h <= a
fine: assert rng h <= i
fine: assert rng a > b
mismatch: assert rng a > d
mismatch: assert rng h > a
fine: assert rng h > i
fine: assert rng a >= b
mismatch: assert rng a >= d
mismatch: assert rng h >= a
fine: assert rng h >= i
fine: assert rng a + b = a
mismatch: assert rng a + d = a
mismatch: assert rng h + a = h
mismatch: assert rng a + b = d
undefined: assert rng x + b = a
undefined: assert rng a + x = a
literal: assert rng a + 256@u8 = a
mismatch: assert rng a + b = b + h
fine: assert rng a - b = a
mismatch: assert rng a - d = a
mismatch: assert rng h - a = h
mismatch: assert rng a - b = d
undefined: assert rng x - b = a
undefined: assert rng a - x = a
literal: assert rng a - 256@u8 = a
mismatch: assert rng a - b = b - h
fine: assert rng a * b = a
mismatch: assert rng a * d = a
mismatch: assert rng h * a = h
mismatch: assert rng a * b = d
undefined: assert rng x * b = a
undefined: assert rng a * x = a
literal: assert rng a * 256@u8 = a
mismatch: assert rng a * b = b * h
fine: assert rng a & b = a
mismatch: assert rng a & d = a
mismatch: assert rng h & a = h
mismatch: assert rng a & b = d
undefined: assert rng x & b = a
undefined: assert rng a & x = a
literal: assert rng a & 256@u8 = a
mismatch: assert rng a & b = b & h
fine: assert rng a | b = a
mismatch: assert rng a | d = a
mismatch: assert rng h | a = h
mismatch: assert rng a | b = d
undefined: assert rng x | b = a
undefined: assert rng a | x = a
literal: assert rng a | 256@u8 = a
mismatch: assert rng a | b = b | h
fine: assert rng a ^ b = a
mismatch: assert rng a ^ d = a
mismatch: assert rng h ^ a = h
mismatch: assert rng a ^ b = d
undefined: assert rng x ^ b = a
undefined: assert rng a ^ x = a
literal: assert rng a ^ 256@u8 = a
mismatch: assert rng a ^ b = b ^ h
fine: assert rng -h = h
mismatch: assert rng -h = a
undefined: assert rng -x = h
literal: assert rng -(128@s8) = h
mismatch: assert rng -(a + h) = a
mismatch: assert rng h < -a
fine: assert rng ~h = h
mismatch: assert rng ~h = a
undefined: assert rng ~x = h
literal: assert rng ~128@s8 = h
mismatch: assert rng ~(a + h) = a
mismatch: assert rng h < ~a
fine: assert rng -(~h) = h
mismatch: assert rng -(~h) = a
undefined: assert rng -(~x) = h
literal: assert rng -(~128@s8) = h
mismatch: assert rng -(~(a + h)) = a
mismatch: assert rng h < -(~a)
fine: assert rng cast(u16, a) = d
mismatch: assert rng cast(u16, a) = a
fine: assert rng cast(s8, a) = h
mismatch: assert rng cast(u16, a + h) = d
undefined: assert rng cast(u16, x) = d
literal: assert rng cast(u16, 256@u8) = d
fine: assert rng cast(u8, a) = a
fine: assert rng cast(u16, a) + cast(u16, b) = d
mismatch: assert rng cast(u16, a + b) = d + a
fine: assert rng cast(s64, cast(u4, j)) = k
fine: assert rng !a = b
undefined: assert rng !a = x
literal: assert rng !a = 256@u8
mismatch: assert rng !a = h
fine: assert rng a = b && true
undefined: assert rng a = x && true
literal: assert rng a = 256@u8 && true
mismatch: assert rng a = h && true
fine: assert rng true && a = b
undefined: assert rng true && a = x
literal: assert rng true && a = 256@u8
mismatch: assert rng true && a = h
fine: assert rng a = b || false
undefined: assert rng a = x || false
literal: assert rng a = 256@u8 || false
mismatch: assert rng a = h || false
fine: assert rng false || a = b
undefined: assert rng false || a = x
literal: assert rng false || a = 256@u8
mismatch: assert rng false || a = h
fine: assert rng ![a = b && a = b || h = i]
undefined: assert rng ![a = b && a = x || h = i]
literal: assert rng ![a = b && a = 256@u8 || h = i]
mismatch: assert rng ![a = b && a = h || h = i]
fine: assert rng false
fine: assert rng true && false || !true
fine: assert rng 0@u1 = 1@u1
mismatch: assert rng 0@u1 = 1@u2
fine: assert rng -128@s8 = h
literal: assert rng -129@s8 = h
literal: assert rng -1@u8 = a
fine: assert rng 18446744073709551615@u64 = j
literal: assert rng 18446744073709551616@u64 = j
undefined: assert rng a = h && x = 256@u8
literal: assert rng a = h && a = 256@u8
undefined: assert rng 256@u8 = h || x = a
undefined: assert rng a + x = 256@u8
";
