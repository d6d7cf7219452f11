//! Limbs and lanes: the texts of files of `examples/`, byte by byte. A test reads no files, so they stand here again.

/// `examples/ntt_layer_8_lanes.tcl`.
pub(crate) const NTT_LAYER_8_LANES: &str = "\
    # Eight lanes of one layer of Kyber's number-theoretic transform: the butterflies of the layer with distance 8 on the \
    first 16\n\
    # coefficients, a register of eight 16-bit lanes against the next, with the zeta 573 = 2^16 * 17^4 modulo 3329. The \
    reduction is\n\
    # that of Seiler, Faster AVX2 optimized NTT multiplication for Ring-LWE lattice cryptography, 2018: with -5827 = 573 \
    * 3329^-1\n\
    # modulo 2^16,\n\
    #\n\
    #     h = mulhi(b, 573);  k = mullo(b, -5827);  m = mulhi(k, 3329);  t = h - m;  f = a + t;  g = a - t;\n\
    #\n\
    # States: with coefficients within 5 * 3329 = 16645, no lane overflows, the results are within 18455, and in each lane\n\
    # 65536 t = 573 b modulo 3329, f = a + t and g = a - t.\n\
    # Known: true, and all of it is shown: the congruences by a walk through the 16 bits of b, since the zeta is a \
    constant, the\n\
    # ranges by the intervals, the equations by substitution.\n\
    in s16 a0\n\
    in s16 b0\n\
    in s16 a1\n\
    in s16 b1\n\
    in s16 a2\n\
    in s16 b2\n\
    in s16 a3\n\
    in s16 b3\n\
    in s16 a4\n\
    in s16 b4\n\
    in s16 a5\n\
    in s16 b5\n\
    in s16 a6\n\
    in s16 b6\n\
    in s16 a7\n\
    in s16 b7\n\
    pre rng -16645@s16 <= a0 && a0 <= 16645@s16\n\
    pre rng -16645@s16 <= b0 && b0 <= 16645@s16\n\
    pre rng -16645@s16 <= a1 && a1 <= 16645@s16\n\
    pre rng -16645@s16 <= b1 && b1 <= 16645@s16\n\
    pre rng -16645@s16 <= a2 && a2 <= 16645@s16\n\
    pre rng -16645@s16 <= b2 && b2 <= 16645@s16\n\
    pre rng -16645@s16 <= a3 && a3 <= 16645@s16\n\
    pre rng -16645@s16 <= b3 && b3 <= 16645@s16\n\
    pre rng -16645@s16 <= a4 && a4 <= 16645@s16\n\
    pre rng -16645@s16 <= b4 && b4 <= 16645@s16\n\
    pre rng -16645@s16 <= a5 && a5 <= 16645@s16\n\
    pre rng -16645@s16 <= b5 && b5 <= 16645@s16\n\
    pre rng -16645@s16 <= a6 && a6 <= 16645@s16\n\
    pre rng -16645@s16 <= b6 && b6 <= 16645@s16\n\
    pre rng -16645@s16 <= a7 && a7 <= 16645@s16\n\
    pre rng -16645@s16 <= b7 && b7 <= 16645@s16\n\
    \n\
    # lane 0\n\
    mull s16 h0 l0 b0 573@s16\n\
    mull s16 x0 y0 b0 -5827@s16\n\
    cast s16 k0 y0\n\
    mull s16 m0 n0 k0 3329@s16\n\
    sub s16 t0 h0 m0\n\
    assert alg 65536*t0 = 573*b0 mod 3329\n\
    add s16 f0 a0 t0\n\
    sub s16 g0 a0 t0\n\
    \n\
    # lane 1\n\
    mull s16 h1 l1 b1 573@s16\n\
    mull s16 x1 y1 b1 -5827@s16\n\
    cast s16 k1 y1\n\
    mull s16 m1 n1 k1 3329@s16\n\
    sub s16 t1 h1 m1\n\
    assert alg 65536*t1 = 573*b1 mod 3329\n\
    add s16 f1 a1 t1\n\
    sub s16 g1 a1 t1\n\
    \n\
    # lane 2\n\
    mull s16 h2 l2 b2 573@s16\n\
    mull s16 x2 y2 b2 -5827@s16\n\
    cast s16 k2 y2\n\
    mull s16 m2 n2 k2 3329@s16\n\
    sub s16 t2 h2 m2\n\
    assert alg 65536*t2 = 573*b2 mod 3329\n\
    add s16 f2 a2 t2\n\
    sub s16 g2 a2 t2\n\
    \n\
    # lane 3\n\
    mull s16 h3 l3 b3 573@s16\n\
    mull s16 x3 y3 b3 -5827@s16\n\
    cast s16 k3 y3\n\
    mull s16 m3 n3 k3 3329@s16\n\
    sub s16 t3 h3 m3\n\
    assert alg 65536*t3 = 573*b3 mod 3329\n\
    add s16 f3 a3 t3\n\
    sub s16 g3 a3 t3\n\
    \n\
    # lane 4\n\
    mull s16 h4 l4 b4 573@s16\n\
    mull s16 x4 y4 b4 -5827@s16\n\
    cast s16 k4 y4\n\
    mull s16 m4 n4 k4 3329@s16\n\
    sub s16 t4 h4 m4\n\
    assert alg 65536*t4 = 573*b4 mod 3329\n\
    add s16 f4 a4 t4\n\
    sub s16 g4 a4 t4\n\
    \n\
    # lane 5\n\
    mull s16 h5 l5 b5 573@s16\n\
    mull s16 x5 y5 b5 -5827@s16\n\
    cast s16 k5 y5\n\
    mull s16 m5 n5 k5 3329@s16\n\
    sub s16 t5 h5 m5\n\
    assert alg 65536*t5 = 573*b5 mod 3329\n\
    add s16 f5 a5 t5\n\
    sub s16 g5 a5 t5\n\
    \n\
    # lane 6\n\
    mull s16 h6 l6 b6 573@s16\n\
    mull s16 x6 y6 b6 -5827@s16\n\
    cast s16 k6 y6\n\
    mull s16 m6 n6 k6 3329@s16\n\
    sub s16 t6 h6 m6\n\
    assert alg 65536*t6 = 573*b6 mod 3329\n\
    add s16 f6 a6 t6\n\
    sub s16 g6 a6 t6\n\
    \n\
    # lane 7\n\
    mull s16 h7 l7 b7 573@s16\n\
    mull s16 x7 y7 b7 -5827@s16\n\
    cast s16 k7 y7\n\
    mull s16 m7 n7 k7 3329@s16\n\
    sub s16 t7 h7 m7\n\
    assert alg 65536*t7 = 573*b7 mod 3329\n\
    add s16 f7 a7 t7\n\
    sub s16 g7 a7 t7\n\
    \n\
    post rng -18455@s16 <= f0 && f0 <= 18455@s16 && -18455@s16 <= g0 && g0 <= 18455@s16\n\
    post rng -18455@s16 <= f1 && f1 <= 18455@s16 && -18455@s16 <= g1 && g1 <= 18455@s16\n\
    post rng -18455@s16 <= f2 && f2 <= 18455@s16 && -18455@s16 <= g2 && g2 <= 18455@s16\n\
    post rng -18455@s16 <= f3 && f3 <= 18455@s16 && -18455@s16 <= g3 && g3 <= 18455@s16\n\
    post rng -18455@s16 <= f4 && f4 <= 18455@s16 && -18455@s16 <= g4 && g4 <= 18455@s16\n\
    post rng -18455@s16 <= f5 && f5 <= 18455@s16 && -18455@s16 <= g5 && g5 <= 18455@s16\n\
    post rng -18455@s16 <= f6 && f6 <= 18455@s16 && -18455@s16 <= g6 && g6 <= 18455@s16\n\
    post rng -18455@s16 <= f7 && f7 <= 18455@s16 && -18455@s16 <= g7 && g7 <= 18455@s16\n\
    post alg f0 = a0 + t0\n\
    post alg g0 = a0 - t0\n\
    post alg f1 = a1 + t1\n\
    post alg g1 = a1 - t1\n\
    post alg f2 = a2 + t2\n\
    post alg g2 = a2 - t2\n\
    post alg f3 = a3 + t3\n\
    post alg g3 = a3 - t3\n\
    post alg f4 = a4 + t4\n\
    post alg g4 = a4 - t4\n\
    post alg f5 = a5 + t5\n\
    post alg g5 = a5 - t5\n\
    post alg f6 = a6 + t6\n\
    post alg g6 = a6 - t6\n\
    post alg f7 = a7 + t7\n\
    post alg g7 = a7 - t7\n\
    end\n\
";

/// `examples/field_25519_4_limbs.tcl`.
pub(crate) const FIELD_25519_4_LIMBS: &str = "\
    # Addition modulo p = 2^255 - 19 in four limbs of 64 bits: a chain of carries, and a conditional subtraction of p \
    without a\n\
    # branch: 19 is added to the sum s, and where the bit q at 2^255 is then set, s + 19 without that bit, which is s - \
    p, is moved\n\
    # over s; as the freeze of ed25519 with four limbs does it (amd64-64-24k; Bernstein and others, 2011).\n\
    #\n\
    # States: for a and b below p no carry leaves the four limbs, and the result r is below p and is s + q (19 - 2^255) = \
    s - q p.\n\
    # Known: true. The last line says r = a + b modulo p, whose truth this verifier does not compute, since p is above \
    2^126.\n\
    # Over the integers the coefficients of such an equation are too great too; the lines before say it modulo 2^126, \
    2^107 - 1 and\n\
    # 2^89 - 1, whose product is above both sides, so that together they are the equation over the integers. The cut says \
    all of s\n\
    # that the rest needs: s <= 2 p - 2. The four lines before it lead to it limb by limb.\n\
    in u64 a0\n\
    in u64 a1\n\
    in u64 a2\n\
    in u64 a3\n\
    in u64 b0\n\
    in u64 b1\n\
    in u64 b2\n\
    in u64 b3\n\
    pre rng a3 <= 9223372036854775807@u64\n\
    pre rng a3 < 9223372036854775807@u64 || a2 < 18446744073709551615@u64 || a1 < 18446744073709551615@u64 || a0 < \
    18446744073709551597@u64\n\
    pre rng b3 <= 9223372036854775807@u64\n\
    pre rng b3 < 9223372036854775807@u64 || b2 < 18446744073709551615@u64 || b1 < 18446744073709551615@u64 || b0 < \
    18446744073709551597@u64\n\
    \n\
    # s = a + b\n\
    adds u64 c0 sum0 a0 b0\n\
    adcs u64 c1 sum1 a1 b1 c0\n\
    adcs u64 c2 sum2 a2 b2 c1\n\
    adcs u64 c3 sum3 a3 b3 c2\n\
    assert alg sum0 + 2**64*sum1 + 2**128*sum2 + 2**192*sum3 + 2**256*c3 = a0 + 2**64*a1 + 2**128*a2 + 2**192*a3 + b0 + \
    2**64*b1 + 2**128*b2 + 2**192*b3 mod 2**126\n\
    assert alg sum0 + 2**64*sum1 + 2**128*sum2 + 2**192*sum3 + 2**256*c3 = a0 + 2**64*a1 + 2**128*a2 + 2**192*a3 + b0 + \
    2**64*b1 + 2**128*b2 + 2**192*b3 mod 2**107 - 1\n\
    assert alg sum0 + 2**64*sum1 + 2**128*sum2 + 2**192*sum3 + 2**256*c3 = a0 + 2**64*a1 + 2**128*a2 + 2**192*a3 + b0 + \
    2**64*b1 + 2**128*b2 + 2**192*b3 mod 2**89 - 1\n\
    assert rng c3 = 0@u1\n\
    assert rng sum3 < 18446744073709551615@u64 || a3 = 9223372036854775807@u64 && b3 = 9223372036854775807@u64 && c2 = \
    1@u1\n\
    assert rng sum2 < 18446744073709551615@u64 || c2 = 0@u1 || a2 = 18446744073709551615@u64 && b2 = \
    18446744073709551615@u64 && c1 = 1@u1\n\
    assert rng sum1 < 18446744073709551615@u64 || c1 = 0@u1 || a1 = 18446744073709551615@u64 && b1 = \
    18446744073709551615@u64 && c0 = 1@u1\n\
    assert rng sum0 <= 18446744073709551576@u64 || c0 = 0@u1 || a0 >= 18446744073709551597@u64 || b0 >= \
    18446744073709551597@u64\n\
    cut rng sum3 < 18446744073709551615@u64 || sum2 < 18446744073709551615@u64 || sum1 < 18446744073709551615@u64 || sum0 \
    <= 18446744073709551576@u64\n\
    \n\
    # s + 19, and its bit q\n\
    adds u64 d0 t0 sum0 19@u64\n\
    adcs u64 d1 t1 sum1 0@u64 d0\n\
    adcs u64 d2 t2 sum2 0@u64 d1\n\
    adcs u64 d3 t3 sum3 0@u64 d2\n\
    split u64 q rest t3 63\n\
    vpc u1 reaches q\n\
    assert alg t0 + 2**64*t1 + 2**128*t2 + 2**192*rest + 2**255*q + 2**256*d3 = sum0 + 2**64*sum1 + 2**128*sum2 + \
    2**192*sum3 + 19 mod 2**126\n\
    assert alg t0 + 2**64*t1 + 2**128*t2 + 2**192*rest + 2**255*q + 2**256*d3 = sum0 + 2**64*sum1 + 2**128*sum2 + \
    2**192*sum3 + 19 mod 2**107 - 1\n\
    assert alg t0 + 2**64*t1 + 2**128*t2 + 2**192*rest + 2**255*q + 2**256*d3 = sum0 + 2**64*sum1 + 2**128*sum2 + \
    2**192*sum3 + 19 mod 2**89 - 1\n\
    assert rng d3 = 0@u1\n\
    \n\
    # the choice\n\
    cmov u64 r0 reaches t0 sum0\n\
    cmov u64 r1 reaches t1 sum1\n\
    cmov u64 r2 reaches t2 sum2\n\
    cmov u64 r3 reaches rest sum3\n\
    \n\
    post rng r3 <= 9223372036854775807@u64\n\
    post rng r3 < 9223372036854775807@u64 || r2 < 18446744073709551615@u64 || r1 < 18446744073709551615@u64 || r0 < \
    18446744073709551597@u64\n\
    post alg r0 + 2**64*r1 + 2**128*r2 + 2**192*r3 = q*(t0 + 2**64*t1 + 2**128*t2 + 2**192*rest) + (1 - q)*(sum0 + \
    2**64*sum1 + 2**128*sum2 + 2**192*sum3) mod 2**126\n\
    post alg r0 + 2**64*r1 + 2**128*r2 + 2**192*r3 = q*(t0 + 2**64*t1 + 2**128*t2 + 2**192*rest) + (1 - q)*(sum0 + \
    2**64*sum1 + 2**128*sum2 + 2**192*sum3) mod 2**107 - 1\n\
    post alg r0 + 2**64*r1 + 2**128*r2 + 2**192*r3 = q*(t0 + 2**64*t1 + 2**128*t2 + 2**192*rest) + (1 - q)*(sum0 + \
    2**64*sum1 + 2**128*sum2 + 2**192*sum3) mod 2**89 - 1\n\
    post alg r0 + 2**64*r1 + 2**128*r2 + 2**192*r3 = a0 + 2**64*a1 + 2**128*a2 + 2**192*a3 + b0 + 2**64*b1 + 2**128*b2 + \
    2**192*b3 mod 2**255 - 19\n\
    end\n\
";

/// `examples/field_25519_5_limbs.tcl`.
pub(crate) const FIELD_25519_5_LIMBS: &str = "\
    # Addition modulo 2^255 - 19 in five limbs of 51 bits, with the carries that bring the limbs back to 51 bits, as in\n\
    # curve25519-donna-c64 (Langley) and in the reference code of ed25519 with 64-bit words (amd64-51-30k): the sums of \
    the limbs do\n\
    # not overflow, each limb hands what is above 51 bits to the next, and the last hands it back to the first, times 19.\n\
    #\n\
    # States: for limbs below 2^54 no sum overflows, the results are below 2^51, the first below 2^51 + 304, and their \
    value is\n\
    # that of a + b less k4 (2^255 - 19), where k4 is the last carry.\n\
    # Known: true. The last line says it modulo 2^255 - 19, whose truth this verifier does not compute, since it is above \
    2^126.\n\
    # Over the integers the coefficients are too great too; the lines before say it modulo 2^126, 2^107 - 1 and 2^89 - 1, \
    whose\n\
    # product is above both sides.\n\
    in u64 a0\n\
    in u64 a1\n\
    in u64 a2\n\
    in u64 a3\n\
    in u64 a4\n\
    in u64 b0\n\
    in u64 b1\n\
    in u64 b2\n\
    in u64 b3\n\
    in u64 b4\n\
    pre rng a0 < 18014398509481984@u64 && a1 < 18014398509481984@u64 && a2 < 18014398509481984@u64\n\
    pre rng a3 < 18014398509481984@u64 && a4 < 18014398509481984@u64\n\
    pre rng b0 < 18014398509481984@u64 && b1 < 18014398509481984@u64 && b2 < 18014398509481984@u64\n\
    pre rng b3 < 18014398509481984@u64 && b4 < 18014398509481984@u64\n\
    \n\
    # the sums of the limbs\n\
    add u64 sum0 a0 b0\n\
    add u64 sum1 a1 b1\n\
    add u64 sum2 a2 b2\n\
    add u64 sum3 a3 b3\n\
    add u64 sum4 a4 b4\n\
    \n\
    # the carries\n\
    split u64 k0 x0 sum0 51\n\
    add u64 t1 sum1 k0\n\
    assert alg t1 = a1 + b1 + k0\n\
    split u64 k1 r1 t1 51\n\
    add u64 t2 sum2 k1\n\
    assert alg t2 = a2 + b2 + k1\n\
    split u64 k2 r2 t2 51\n\
    add u64 t3 sum3 k2\n\
    assert alg t3 = a3 + b3 + k2\n\
    split u64 k3 r3 t3 51\n\
    add u64 t4 sum4 k3\n\
    assert alg t4 = a4 + b4 + k3\n\
    split u64 k4 r4 t4 51\n\
    assert rng k4 <= 16@u64\n\
    mul u64 m k4 19@u64\n\
    add u64 r0 x0 m\n\
    \n\
    post rng r0 < 2251799813685552@u64\n\
    post rng r1 < 2251799813685248@u64 && r2 < 2251799813685248@u64 && r3 < 2251799813685248@u64 && r4 < \
    2251799813685248@u64\n\
    post alg r0 + 2**51*r1 + 2**102*r2 + 2**153*r3 + 2**204*r4 + 2**255*k4 - 19*k4 = a0 + 2**51*a1 + 2**102*a2 + \
    2**153*a3 + 2**204*a4 + b0 + 2**51*b1 + 2**102*b2 + 2**153*b3 + 2**204*b4 mod 2**126\n\
    post alg r0 + 2**51*r1 + 2**102*r2 + 2**153*r3 + 2**204*r4 + 2**255*k4 - 19*k4 = a0 + 2**51*a1 + 2**102*a2 + \
    2**153*a3 + 2**204*a4 + b0 + 2**51*b1 + 2**102*b2 + 2**153*b3 + 2**204*b4 mod 2**107 - 1\n\
    post alg r0 + 2**51*r1 + 2**102*r2 + 2**153*r3 + 2**204*r4 + 2**255*k4 - 19*k4 = a0 + 2**51*a1 + 2**102*a2 + \
    2**153*a3 + 2**204*a4 + b0 + 2**51*b1 + 2**102*b2 + 2**153*b3 + 2**204*b4 mod 2**89 - 1\n\
    post alg r0 + 2**51*r1 + 2**102*r2 + 2**153*r3 + 2**204*r4 = a0 + 2**51*a1 + 2**102*a2 + 2**153*a3 + 2**204*a4 + b0 + \
    2**51*b1 + 2**102*b2 + 2**153*b3 + 2**204*b4 mod 2**255 - 19\n\
    end\n\
";

/// `examples/limb_product.tcl`.
pub(crate) const LIMB_PRODUCT: &str = "\
    # The product of two numbers of two 32-bit limbs each, row by row, as a processor does it that multiplies two words \
    and adds two\n\
    # more to the product of 64 bits (`umaal` of ARM; Knuth, The Art of Computer Programming, volume 2, algorithm M of \
    4.3.1).\n\
    #\n\
    # States: no accumulator of 64 bits overflows, each step is an equation over the integers, and the four limbs r are \
    the product.\n\
    # Known: true, and all of it is shown. That nothing overflows rests on (2^32 - 1)^2 + 2 (2^32 - 1) = 2^64 - 1, which \
    the\n\
    # intervals see; the equations are substitutions.\n\
    in u32 a0\n\
    in u32 a1\n\
    in u32 b0\n\
    in u32 b1\n\
    \n\
    # the row of b0\n\
    mulj u32 p0 a0 b0\n\
    split u64 h0 l0 p0 32\n\
    vpc u32 r0 l0\n\
    mulj u32 p1 a1 b0\n\
    add u64 q1 p1 h0\n\
    split u64 h1 l1 q1 32\n\
    assert alg l0 + 2**32*l1 + 2**64*h1 = (a0 + 2**32*a1) * b0\n\
    \n\
    # the row of b1\n\
    mulj u32 p2 a0 b1\n\
    add u64 q2 p2 l1\n\
    split u64 h2 l2 q2 32\n\
    vpc u32 r1 l2\n\
    mulj u32 p3 a1 b1\n\
    add u64 q3 p3 h1\n\
    add u64 q4 q3 h2\n\
    split u64 h3 l3 q4 32\n\
    vpc u32 r2 l3\n\
    vpc u32 r3 h3\n\
    \n\
    post alg l0 + 2**32*l2 + 2**64*l3 + 2**96*h3 = (a0 + 2**32*a1) * (b0 + 2**32*b1)\n\
    post alg r0 + 2**32*r1 + 2**64*r2 + 2**96*r3 = (a0 + 2**32*a1) * (b0 + 2**32*b1)\n\
    end\n\
";

/// `examples/poly1305_carry.tcl`.
pub(crate) const POLY1305_CARRY: &str = "\
    # The carry chain of Poly1305 in five limbs of 26 bits, as in poly1305-donna-32 (Moon) behind its products \
    (Bernstein, The\n\
    # Poly1305-AES message-authentication code, 2005): d0 to d4 are sums of products of limbs, and the h are the limbs of \
    the\n\
    # accumulator modulo 2^130 - 5.\n\
    #\n\
    #                  c = (uint32_t)(d0 >> 26); h0 = (uint32_t)d0 & 0x3ffffff;\n\
    #     d1 += c;     c = (uint32_t)(d1 >> 26); h1 = (uint32_t)d1 & 0x3ffffff;\n\
    #     ...\n\
    #     h0 += c * 5; c = h0 >> 26;             h0 = h0 & 0x3ffffff;\n\
    #     h1 += c;\n\
    #\n\
    # With limbs h up to 2^27 and r up to 2^26 the sums d are at most 21, 17, 13, 9 and 5 times 2^53.\n\
    # States: no carry leaves its 32 bits, nothing overflows, all limbs but the second are below 2^26, the second is below\n\
    # 2^26 + 64, and their value is that of the sums less c4 (2^130 - 5), where c4 is the carry of the last.\n\
    # Known: true. The last line says it modulo 2^130 - 5, whose truth this verifier does not compute, since it is above \
    2^126. Over\n\
    # the integers the coefficients are too great too; the lines before say it modulo 2^126 and 2^107 - 1, whose product \
    is above\n\
    # both sides.\n\
    in u64 d0\n\
    in u64 d1\n\
    in u64 d2\n\
    in u64 d3\n\
    in u64 d4\n\
    pre rng d0 <= 189151184349560832@u64\n\
    pre rng d1 <= 153122387330596864@u64\n\
    pre rng d2 <= 117093590311632896@u64\n\
    pre rng d3 <= 81064793292668928@u64\n\
    pre rng d4 <= 45035996273704960@u64\n\
    \n\
    split u64 q0 m0 d0 26\n\
    vpc u32 c0 q0\n\
    vpc u32 x0 m0\n\
    \n\
    cast u64 w1 c0\n\
    add u64 e1 d1 w1\n\
    split u64 q1 m1 e1 26\n\
    vpc u32 c1 q1\n\
    vpc u32 x1 m1\n\
    \n\
    cast u64 w2 c1\n\
    add u64 e2 d2 w2\n\
    split u64 q2 m2 e2 26\n\
    vpc u32 c2 q2\n\
    vpc u32 h2 m2\n\
    \n\
    cast u64 w3 c2\n\
    add u64 e3 d3 w3\n\
    split u64 q3 m3 e3 26\n\
    vpc u32 c3 q3\n\
    vpc u32 h3 m3\n\
    \n\
    cast u64 w4 c3\n\
    add u64 e4 d4 w4\n\
    split u64 q4 m4 e4 26\n\
    vpc u32 c4 q4\n\
    vpc u32 h4 m4\n\
    \n\
    mul u32 f c4 5@u32\n\
    add u32 y0 x0 f\n\
    split u32 c5 h0 y0 26\n\
    add u32 h1 x1 c5\n\
    \n\
    post rng h0 < 67108864@u32 && h1 < 67108928@u32\n\
    post rng h2 < 67108864@u32 && h3 < 67108864@u32 && h4 < 67108864@u32\n\
    post alg h0 + 2**26*h1 + 2**52*h2 + 2**78*h3 + 2**104*h4 + 2**130*c4 - 5*c4 = d0 + 2**26*d1 + 2**52*d2 + 2**78*d3 + \
    2**104*d4 mod 2**126\n\
    post alg h0 + 2**26*h1 + 2**52*h2 + 2**78*h3 + 2**104*h4 + 2**130*c4 - 5*c4 = d0 + 2**26*d1 + 2**52*d2 + 2**78*d3 + \
    2**104*d4 mod 2**107 - 1\n\
    post alg h0 + 2**26*h1 + 2**52*h2 + 2**78*h3 + 2**104*h4 = d0 + 2**26*d1 + 2**52*d2 + 2**78*d3 + 2**104*d4 mod 2**130 \
    - 5\n\
    end\n\
";
