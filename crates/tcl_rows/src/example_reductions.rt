//! Reductions and butterflies: the texts of files of `examples/`, byte by byte. A test reads no files, so they stand here again.

/// `examples/barrett_3329.tcl`.
pub(crate) const BARRETT_3329: &str = "\
    # Barrett reduction modulo 3329, as barrett_reduce of the Kyber reference implementation (pq-crystals/kyber, \
    ref/reduce.c):\n\
    #\n\
    #     const int16_t v = ((1 << 26) + KYBER_Q / 2) / KYBER_Q;     20159\n\
    #     t = ((int32_t)v * a + (1 << 25)) >> 26;\n\
    #     t *= KYBER_Q;\n\
    #     return a - t;\n\
    #\n\
    # States: the result is the remainder of a modulo 3329 that lies from -1664 to 1664, for each of the 65,536 values of \
    a.\n\
    # Known: the product t * 3329 leaves 16 bits at the upper end, 10 * 3329 = 33290, and the difference wraps back. So \
    product\n\
    # and difference are written with their low halves, which claim nothing, and not as `mul` and `sub`, whose exactness \
    fails.\n\
    # All goals rest on the 16 bits of a: each is settled by a walk through all of them, or by the intervals.\n\
    in s16 a\n\
    \n\
    mulj s16 va a 20159@s16\n\
    add s32 rounded va 33554432@s32           # 2^25: to the nearest\n\
    split s32 high low rounded 26\n\
    vpc s16 t high\n\
    \n\
    mull s16 carry product t 3329@s16         # t *= KYBER_Q keeps the low half\n\
    cast s16 u product\n\
    cast s32 wide_a a\n\
    cast s32 wide_u u\n\
    sub s32 difference wide_a wide_u\n\
    cast s16 r difference                     # the result has 16 bits\n\
    \n\
    assert rng -10@s16 <= t && t <= 10@s16\n\
    post alg r = a mod 3329\n\
    post rng -1664@s16 <= r && r <= 1664@s16\n\
    end\n\
";

/// `examples/montgomery_3329.tcl`.
pub(crate) const MONTGOMERY_3329: &str = "\
    # Montgomery reduction modulo 3329 with the radix 2^16, as montgomery_reduce of the Kyber reference implementation\n\
    # (pq-crystals/kyber, ref/reduce.c; the signed form is that of Seiler, Faster AVX2 optimized NTT multiplication, \
    2018):\n\
    #\n\
    #     t = (int16_t)a * QINV;                      QINV = -3327 = 3329^-1 modulo 2^16\n\
    #     t = (a - (int32_t)t * KYBER_Q) >> 16;\n\
    #\n\
    # States: for -3329 * 2^15 <= a < 3329 * 2^15 the result r has 65536 r = a modulo 3329, and -3329 < r < 3329.\n\
    # Known: true. The low half of the difference is 0, which is shown in two steps: modulo 65536 by substitution, and \
    then as a\n\
    # word. With that half written out the congruence is a substitution too. The last goal says it without the half; it \
    has to\n\
    # combine two hypotheses, and that search does not exist yet.\n\
    in s32 a\n\
    pre rng -109084672@s32 <= a && a <= 109084671@s32\n\
    \n\
    cast s16 a0 a                             # (int16_t)a\n\
    mull s16 high low a0 -3327@s16\n\
    cast s16 t low                            # the product keeps its low half\n\
    mulj s16 p t 3329@s16\n\
    sub s32 d a p\n\
    cut rng -218166015@s32 <= d && d <= 218169343@s32\n\
    \n\
    split s32 y lo d 16\n\
    assert alg lo = 0 mod 65536               # d is 11075584 a there, and 11075584 = 169 * 65536\n\
    assert rng lo = 0@u32\n\
    vpc s16 r y\n\
    \n\
    post rng -3329@s16 < r && r < 3329@s16\n\
    post alg 65536*r + lo = a mod 3329\n\
    post alg 65536*r = a mod 3329\n\
    end\n\
";

/// `examples/montgomery_8380417.tcl`.
pub(crate) const MONTGOMERY_8380417: &str = "\
    # Montgomery reduction modulo 8380417 with the radix 2^32, as montgomery_reduce of the Dilithium reference \
    implementation\n\
    # (pq-crystals/dilithium, ref/reduce.c):\n\
    #\n\
    #     t = (int64_t)(int32_t)a * QINV;             QINV = 58728449 = 8380417^-1 modulo 2^32\n\
    #     t = (a - (int64_t)t * Q) >> 32;\n\
    #\n\
    # States: for -8380417 * 2^31 <= a < 8380417 * 2^31 the result r has 2^32 r = a modulo 8380417, and -8380417 < r < \
    8380417.\n\
    # Known: true; shown as for 3329, at twice the width. The last goal waits for the search of combinations.\n\
    in s64 a\n\
    pre rng -17996808470921216@s64 <= a && a <= 17996808470921215@s64\n\
    \n\
    cast s32 a0 a                             # (int32_t)a\n\
    mull s32 high low a0 58728449@s32\n\
    cast s32 t low                            # the product keeps its low half\n\
    mulj s32 p t 8380417@s32\n\
    sub s64 d a p\n\
    cut rng -35993616933462015@s64 <= d && d <= 35993616941842431@s64\n\
    \n\
    split s64 y lo d 32\n\
    assert alg lo = 0 mod 2**32\n\
    assert rng lo = 0@u64\n\
    vpc s32 r y\n\
    \n\
    post rng -8380417@s32 < r && r < 8380417@s32\n\
    post alg 2**32*r + lo = a mod 8380417\n\
    post alg 2**32*r = a mod 8380417\n\
    end\n\
";

/// `examples/kyber_butterfly.tcl`.
pub(crate) const KYBER_BUTTERFLY: &str = "\
    # A butterfly of the last layer of Kyber's number-theoretic transform (pq-crystals/kyber, ref/ntt.c):\n\
    #\n\
    #     t = fqmul(zeta, r[j + len]);                the product, and its Montgomery reduction modulo 3329\n\
    #     r[j + len] = r[j] - t;\n\
    #     r[j] = r[j] + t;\n\
    #\n\
    # Each layer adds at most 3328 to a coefficient, so before the last of seven they lie within 7 * 3329 = 23303; a zeta \
    lies\n\
    # from -1664 to 1664.\n\
    # States: the sum f and the difference g of 16 bits do not overflow, are within 26631, and have\n\
    # 65536 f = 65536 a + b zeta and 65536 g = 65536 a - b zeta modulo 3329.\n\
    # Known: true. The ranges are shown. The congruences are shown with the low half `lo` of the reduction written out, \
    and `lo` is\n\
    # shown to be 0; the last two goals say them without it, and wait for the search of combinations.\n\
    in s16 a\n\
    in s16 b\n\
    in s16 zeta\n\
    pre rng -23303@s16 <= a && a <= 23303@s16\n\
    pre rng -23303@s16 <= b && b <= 23303@s16\n\
    pre rng -1664@s16 <= zeta && zeta <= 1664@s16\n\
    \n\
    # fqmul\n\
    mulj s16 x b zeta\n\
    cast s16 x0 x\n\
    mull s16 high low x0 -3327@s16\n\
    cast s16 m low\n\
    mulj s16 p m 3329@s16\n\
    sub s32 d x p\n\
    cut rng -147857535@s32 <= d && d <= 147860864@s32 && -23303@s16 <= a && a <= 23303@s16\n\
    split s32 y lo d 16\n\
    assert alg lo = 0 mod 65536\n\
    assert rng lo = 0@u32\n\
    vpc s16 t y\n\
    assert rng -3328@s16 <= t && t <= 3328@s16\n\
    assert alg 65536*t + lo = b*zeta mod 3329\n\
    \n\
    # the butterfly\n\
    sub s16 g a t\n\
    add s16 f a t\n\
    \n\
    post rng -26631@s16 <= f && f <= 26631@s16\n\
    post rng -26631@s16 <= g && g <= 26631@s16\n\
    post alg f = a + t\n\
    post alg g = a - t\n\
    post alg 65536*f + lo = 65536*a + b*zeta mod 3329\n\
    post alg 65536*g - lo = 65536*a - b*zeta mod 3329\n\
    post alg 65536*f = 65536*a + b*zeta mod 3329\n\
    post alg 65536*g = 65536*a - b*zeta mod 3329\n\
    end\n\
";

/// `examples/dilithium_butterfly.tcl`.
pub(crate) const DILITHIUM_BUTTERFLY: &str = "\
    # A butterfly of the last layer of Dilithium's number-theoretic transform (pq-crystals/dilithium, ref/ntt.c):\n\
    #\n\
    #     t = montgomery_reduce((int64_t)zeta * a[j + len]);\n\
    #     a[j + len] = a[j] - t;\n\
    #     a[j] = a[j] + t;\n\
    #\n\
    # Each layer adds less than 8380417 to a coefficient, so before the last of eight they lie within 8 * 8380417 = \
    67043336; a zeta\n\
    # lies within (8380417 - 1) / 2 = 4190208.\n\
    # States: sum f and difference g do not overflow, are within 75423752, and have 2^32 f = 2^32 a + b zeta and\n\
    # 2^32 g = 2^32 a - b zeta modulo 8380417.\n\
    # Known: true. The ranges are shown, and the congruences with the low half `lo` of the reduction written out, which \
    is shown to\n\
    # be 0; the last two goals wait for the search of combinations.\n\
    in s32 a\n\
    in s32 b\n\
    in s32 zeta\n\
    pre rng -67043336@s32 <= a && a <= 67043336@s32\n\
    pre rng -67043336@s32 <= b && b <= 67043336@s32\n\
    pre rng -4190208@s32 <= zeta && zeta <= 4190208@s32\n\
    \n\
    # the product and its reduction\n\
    mulj s32 x b zeta\n\
    cast s32 x0 x\n\
    mull s32 high low x0 58728449@s32\n\
    cast s32 m low\n\
    mulj s32 p m 8380417@s32\n\
    sub s64 d x p\n\
    cut rng -18277733985394687@s64 <= d && d <= 18277733993775104@s64 && -67043336@s32 <= a && a <= 67043336@s32\n\
    split s64 y lo d 32\n\
    assert alg lo = 0 mod 2**32\n\
    assert rng lo = 0@u64\n\
    vpc s32 t y\n\
    assert rng -8380416@s32 <= t && t <= 8380416@s32\n\
    assert alg 2**32*t + lo = b*zeta mod 8380417\n\
    \n\
    # the butterfly\n\
    sub s32 g a t\n\
    add s32 f a t\n\
    \n\
    post rng -75423752@s32 <= f && f <= 75423752@s32\n\
    post rng -75423752@s32 <= g && g <= 75423752@s32\n\
    post alg f = a + t\n\
    post alg g = a - t\n\
    post alg 2**32*f + lo = 2**32*a + b*zeta mod 8380417\n\
    post alg 2**32*g - lo = 2**32*a - b*zeta mod 8380417\n\
    post alg 2**32*f = 2**32*a + b*zeta mod 8380417\n\
    post alg 2**32*g = 2**32*a - b*zeta mod 8380417\n\
    end\n\
";

/// `examples/broken_reduction.tcl`.
pub(crate) const BROKEN_REDUCTION: &str = "\
    # A broken reduction: Barrett reduction modulo 3329 of a word without sign by a quotient that is rounded down twice, \
    and that\n\
    # takes its result for the least remainder. 20158 is 2^26 / 3329 rounded down, where the Kyber reference \
    implementation rounds to\n\
    # the nearest and to 20159:\n\
    #\n\
    #     t = ((uint32_t)20158 * a) >> 26;\n\
    #     return a - t * 3329;\n\
    #\n\
    # States: the difference does not overflow, r = a modulo 3329, and r < 3329.\n\
    # Known: the first two hold. The last does not: at a = 3329 the quotient is 0 and r is 3329 still, and that is the \
    input\n\
    # that is printed, since it is the least. With one conditional subtraction behind it the result is right.\n\
    in u16 a\n\
    \n\
    mulj u16 va a 20158@u16\n\
    split u32 high low va 26\n\
    vpc u16 t high\n\
    mul u16 u t 3329@u16\n\
    sub u16 r a u\n\
    \n\
    assert alg r = a mod 3329\n\
    assert rng r < 3329@u16                   # refuted\n\
    \n\
    # the repair\n\
    subb u16 less d r 3329@u16\n\
    cmov u16 y less r d\n\
    post alg y = a mod 3329\n\
    post rng y < 3329@u16\n\
    end\n\
";

/// `examples/barrett_behind_cut.tcl`.
pub(crate) const BARRETT_BEHIND_CUT: &str = "\
    # A program with a cut that needs it: four coefficients are added, and the sum is reduced by Barrett's method modulo \
    3329, as at\n\
    # the end of polyvec_basemul_acc_montgomery and poly_reduce in the Kyber reference implementation (pq-crystals/kyber, \
    ref).\n\
    #\n\
    # States: the sum fits 16 bits, and the result is its remainder modulo 3329 from -1664 to 1664.\n\
    # Known: true. The four coefficients have 64 bits together, too many for a walk, and the reduction keeps low halves \
    of products,\n\
    # which a substitution cannot follow. Behind the cut only the sum is left, with what the cut says of it: the goals \
    there rest on\n\
    # its 16 bits, and are walked. Without the cut the congruence of r with the sum is unproved.\n\
    in s16 x0\n\
    in s16 x1\n\
    in s16 x2\n\
    in s16 x3\n\
    pre rng -6658@s16 <= x0 && x0 <= 6658@s16 && -6658@s16 <= x1 && x1 <= 6658@s16\n\
    pre rng -6658@s16 <= x2 && x2 <= 6658@s16 && -6658@s16 <= x3 && x3 <= 6658@s16\n\
    \n\
    add s16 y1 x0 x1\n\
    add s16 y2 y1 x2\n\
    add s16 a y2 x3\n\
    assert alg a = x0 + x1 + x2 + x3\n\
    cut rng -26632@s16 <= a && a <= 26632@s16\n\
    \n\
    mulj s16 va a 20159@s16\n\
    add s32 rounded va 33554432@s32\n\
    split s32 high low rounded 26\n\
    vpc s16 t high\n\
    mull s16 carry product t 3329@s16\n\
    cast s16 u product\n\
    cast s32 wide_a a\n\
    cast s32 wide_u u\n\
    sub s32 difference wide_a wide_u\n\
    cast s16 r difference\n\
    \n\
    post alg r = a mod 3329\n\
    post rng -1664@s16 <= r && r <= 1664@s16\n\
    end\n\
";
