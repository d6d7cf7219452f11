// Instructions, each after the first reason for which it is ill-typed behind the names, or `fine`. The answers were made
// by the reference's `check` command.

// The lines that come before each of them.
pub(super) const NAMES: &str = "\
in u8 a
in u8 b
in u1 c
in u16 d
in s16 e
in u32 f
in u33 g
in s8 h
in s8 i
in u64 j
in s64 k
in u4 l
in s32 m
in s33 n
";

// Inputs.
pub(super) const INPUTS: &str = "\
fine: in u8 z
repeated: in u8 a
repeated: in s8 a
repeated: in u1 a
";

// Instructions of one operand, and of none.
pub(super) const COPIES: &str = "\
fine: mov u8 z a
fine: mov u8 z 255@u8
literal: mov u8 z 256@u8
undefined: mov u8 z x
mismatch: mov u8 z d
mismatch: mov u8 z h
mismatch: mov u8 z 0@u9
fine: mov s8 z h
mismatch: mov s8 z b
fine: mov u8 a a
fine: mov u8 d a
undefined: mov u8 z z
fine: mov u1 z 0@u1
fine: mov u1 z 1@u1
literal: mov u1 z -1@u1
literal: mov u1 z 2@u1
fine: mov u64 z 0@u64
fine: mov u64 z 18446744073709551615@u64
literal: mov u64 z -1@u64
literal: mov u64 z 18446744073709551616@u64
fine: mov s2 z -2@s2
fine: mov s2 z 1@s2
literal: mov s2 z -3@s2
literal: mov s2 z 2@s2
fine: mov s8 z -128@s8
fine: mov s8 z 127@s8
literal: mov s8 z -129@s8
literal: mov s8 z 128@s8
fine: mov s64 z -9223372036854775808@s64
fine: mov s64 z 9223372036854775807@s64
literal: mov s64 z -9223372036854775809@s64
literal: mov s64 z 9223372036854775808@s64
literal: mov u8 z 170141183460469231731687303715884105727@u8
literal: mov s8 z -170141183460469231731687303715884105727@s8
fine: cast u8 z a
fine: cast u8 z 255@u8
literal: cast u8 z 256@u8
undefined: cast u8 z x
fine: cast u8 z d
fine: cast u8 z h
fine: cast u8 z 0@u9
fine: cast s8 z h
fine: cast u8 a a
fine: cast u8 d a
undefined: cast u8 z z
fine: vpc u8 z a
fine: vpc u8 z 255@u8
literal: vpc u8 z 256@u8
undefined: vpc u8 z x
fine: vpc u8 z d
fine: vpc u8 z h
fine: vpc u8 z 0@u9
fine: vpc s8 z h
fine: not u8 z a
fine: not u8 z 255@u8
literal: not u8 z 256@u8
undefined: not u8 z x
mismatch: not u8 z d
mismatch: not u8 z h
mismatch: not u8 z 0@u9
fine: not s8 z h
mismatch: not s8 z b
fine: nondet u8 z
fine: nondet s8 z
";

// Sums and differences.
pub(super) const SUMS: &str = "\
fine: add u8 z a b
fine: add u8 z 255@u8 b
literal: add u8 z 256@u8 b
undefined: add u8 z x b
mismatch: add u8 z d b
mismatch: add u8 z h b
mismatch: add u8 z 0@u9 b
fine: add u8 z a 255@u8
literal: add u8 z a 256@u8
undefined: add u8 z a x
mismatch: add u8 z a d
mismatch: add u8 z a h
mismatch: add u8 z a 0@u9
fine: add s8 z h i
mismatch: add s8 z h b
fine: add u8 a a b
fine: add u8 d a b
undefined: add u8 z z b
undefined: add u8 z x 256@u8
literal: add u8 z 256@u8 h
mismatch: add u8 z 256@u9 b
fine: adds u8 y z a b
fine: adds u8 y z 255@u8 b
literal: adds u8 y z 256@u8 b
undefined: adds u8 y z x b
mismatch: adds u8 y z d b
mismatch: adds u8 y z h b
mismatch: adds u8 y z 0@u9 b
fine: adds u8 y z a 255@u8
literal: adds u8 y z a 256@u8
undefined: adds u8 y z a x
mismatch: adds u8 y z a d
mismatch: adds u8 y z a h
mismatch: adds u8 y z a 0@u9
kind: adds s8 y z h i
kind: adds s8 y z h x
repeated: adds u8 z z a b
mismatch: adds u8 z z a h
fine: adc u8 z a b c
fine: adc u8 z 255@u8 b c
literal: adc u8 z 256@u8 b c
undefined: adc u8 z x b c
mismatch: adc u8 z d b c
mismatch: adc u8 z h b c
mismatch: adc u8 z 0@u9 b c
fine: adc u8 z a 255@u8 c
literal: adc u8 z a 256@u8 c
undefined: adc u8 z a x c
mismatch: adc u8 z a d c
mismatch: adc u8 z a h c
mismatch: adc u8 z a 0@u9 c
fine: adc u8 z a b 1@u1
literal: adc u8 z a b 2@u1
undefined: adc u8 z a b x
mismatch: adc u8 z a b a
mismatch: adc u8 z a b l
mismatch: adc u8 z a b 0@u2
fine: adc s8 z h i c
mismatch: adc s8 z a i c
fine: adcs u8 y z a b c
fine: adcs u8 y z 255@u8 b c
literal: adcs u8 y z 256@u8 b c
undefined: adcs u8 y z x b c
mismatch: adcs u8 y z d b c
mismatch: adcs u8 y z h b c
mismatch: adcs u8 y z 0@u9 b c
fine: adcs u8 y z a 255@u8 c
literal: adcs u8 y z a 256@u8 c
undefined: adcs u8 y z a x c
mismatch: adcs u8 y z a d c
mismatch: adcs u8 y z a h c
mismatch: adcs u8 y z a 0@u9 c
fine: adcs u8 y z a b 1@u1
literal: adcs u8 y z a b 2@u1
undefined: adcs u8 y z a b x
mismatch: adcs u8 y z a b a
mismatch: adcs u8 y z a b l
mismatch: adcs u8 y z a b 0@u2
kind: adcs s8 y z h i c
kind: adcs s8 y z h x c
repeated: adcs u8 z z a b c
mismatch: adcs u8 z z a h c
fine: sub u8 z a b
fine: sub u8 z 255@u8 b
literal: sub u8 z 256@u8 b
undefined: sub u8 z x b
mismatch: sub u8 z d b
mismatch: sub u8 z h b
mismatch: sub u8 z 0@u9 b
fine: sub u8 z a 255@u8
literal: sub u8 z a 256@u8
undefined: sub u8 z a x
mismatch: sub u8 z a d
mismatch: sub u8 z a h
mismatch: sub u8 z a 0@u9
fine: sub s8 z h i
mismatch: sub s8 z h b
fine: subb u8 y z a b
fine: subb u8 y z 255@u8 b
literal: subb u8 y z 256@u8 b
undefined: subb u8 y z x b
mismatch: subb u8 y z d b
mismatch: subb u8 y z h b
mismatch: subb u8 y z 0@u9 b
fine: subb u8 y z a 255@u8
literal: subb u8 y z a 256@u8
undefined: subb u8 y z a x
mismatch: subb u8 y z a d
mismatch: subb u8 y z a h
mismatch: subb u8 y z a 0@u9
kind: subb s8 y z h i
kind: subb s8 y z h x
repeated: subb u8 z z a b
mismatch: subb u8 z z a h
fine: sbb u8 z a b c
fine: sbb u8 z 255@u8 b c
literal: sbb u8 z 256@u8 b c
undefined: sbb u8 z x b c
mismatch: sbb u8 z d b c
mismatch: sbb u8 z h b c
mismatch: sbb u8 z 0@u9 b c
fine: sbb u8 z a 255@u8 c
literal: sbb u8 z a 256@u8 c
undefined: sbb u8 z a x c
mismatch: sbb u8 z a d c
mismatch: sbb u8 z a h c
mismatch: sbb u8 z a 0@u9 c
fine: sbb u8 z a b 1@u1
literal: sbb u8 z a b 2@u1
undefined: sbb u8 z a b x
mismatch: sbb u8 z a b a
mismatch: sbb u8 z a b l
mismatch: sbb u8 z a b 0@u2
fine: sbb s8 z h i c
mismatch: sbb s8 z a i c
fine: sbbs u8 y z a b c
fine: sbbs u8 y z 255@u8 b c
literal: sbbs u8 y z 256@u8 b c
undefined: sbbs u8 y z x b c
mismatch: sbbs u8 y z d b c
mismatch: sbbs u8 y z h b c
mismatch: sbbs u8 y z 0@u9 b c
fine: sbbs u8 y z a 255@u8 c
literal: sbbs u8 y z a 256@u8 c
undefined: sbbs u8 y z a x c
mismatch: sbbs u8 y z a d c
mismatch: sbbs u8 y z a h c
mismatch: sbbs u8 y z a 0@u9 c
fine: sbbs u8 y z a b 1@u1
literal: sbbs u8 y z a b 2@u1
undefined: sbbs u8 y z a b x
mismatch: sbbs u8 y z a b a
mismatch: sbbs u8 y z a b l
mismatch: sbbs u8 y z a b 0@u2
kind: sbbs s8 y z h i c
kind: sbbs s8 y z h x c
repeated: sbbs u8 z z a b c
mismatch: sbbs u8 z z a h c
";

// Products.
pub(super) const PRODUCTS: &str = "\
fine: mul u8 z a b
fine: mul u8 z 255@u8 b
literal: mul u8 z 256@u8 b
undefined: mul u8 z x b
mismatch: mul u8 z d b
mismatch: mul u8 z h b
mismatch: mul u8 z 0@u9 b
fine: mul u8 z a 255@u8
literal: mul u8 z a 256@u8
undefined: mul u8 z a x
mismatch: mul u8 z a d
mismatch: mul u8 z a h
mismatch: mul u8 z a 0@u9
fine: mul s8 z h i
mismatch: mul s8 z h b
fine: mull u8 y z a b
fine: mull u8 y z 255@u8 b
literal: mull u8 y z 256@u8 b
undefined: mull u8 y z x b
mismatch: mull u8 y z d b
mismatch: mull u8 y z h b
mismatch: mull u8 y z 0@u9 b
fine: mull u8 y z a 255@u8
literal: mull u8 y z a 256@u8
undefined: mull u8 y z a x
mismatch: mull u8 y z a d
mismatch: mull u8 y z a h
mismatch: mull u8 y z a 0@u9
fine: mull s8 y z h i
mismatch: mull s8 y z h b
repeated: mull u8 z z a b
mismatch: mull u8 z z a h
fine: mulj u8 z a b
fine: mulj u8 z 255@u8 b
literal: mulj u8 z 256@u8 b
undefined: mulj u8 z x b
mismatch: mulj u8 z d b
mismatch: mulj u8 z h b
mismatch: mulj u8 z 0@u9 b
fine: mulj u8 z a 255@u8
literal: mulj u8 z a 256@u8
undefined: mulj u8 z a x
mismatch: mulj u8 z a d
mismatch: mulj u8 z a h
mismatch: mulj u8 z a 0@u9
fine: mulj s8 z h i
mismatch: mulj s8 z h b
fine: mulj u32 z f f
kind: mulj u33 z g g
fine: mulj s32 z m m
kind: mulj s33 z n n
kind: mulj u64 z j x
";

// Shifts, splittings and joinings.
pub(super) const PARTS: &str = "\
fine: shl u8 z a 3
fine: shl u8 z 255@u8 3
literal: shl u8 z 256@u8 3
undefined: shl u8 z x 3
mismatch: shl u8 z d 3
mismatch: shl u8 z h 3
mismatch: shl u8 z 0@u9 3
fine: shl s8 z h 3
mismatch: shl s8 z b 3
fine: shl u8 z a 0
fine: shl u8 z a 1
fine: shl u8 z a 7
amount: shl u8 z a 8
amount: shl u8 z a 4294967295
amount: shl u8 z x 8
fine: shl u1 z c 0
amount: shl u1 z c 1
fine: shl u64 z j 63
amount: shl u64 z j 64
fine: split u8 y z a 3
fine: split u8 y z 255@u8 3
literal: split u8 y z 256@u8 3
undefined: split u8 y z x 3
mismatch: split u8 y z d 3
mismatch: split u8 y z h 3
mismatch: split u8 y z 0@u9 3
fine: split s8 y z h 3
mismatch: split s8 y z b 3
repeated: split u8 z z a 3
mismatch: split u8 z z h 3
amount: split u8 y z a 0
fine: split u8 y z a 1
fine: split u8 y z a 7
amount: split u8 y z a 8
amount: split u8 y z a 4294967295
amount: split u8 y z x 8
amount: split u1 y z c 0
amount: split u1 y z c 1
fine: split u64 y z j 63
amount: split u64 y z j 64
fine: join u8 z a b
fine: join u8 z 255@u8 b
literal: join u8 z 256@u8 b
undefined: join u8 z x b
mismatch: join u8 z d b
mismatch: join u8 z h b
mismatch: join u8 z 0@u9 b
fine: join u8 z a 255@u8
literal: join u8 z a 256@u8
undefined: join u8 z a x
mismatch: join u8 z a d
mismatch: join u8 z a h
mismatch: join u8 z a 0@u9
fine: join s8 z h b
mismatch: join s8 z h i
fine: join u32 z f f
kind: join u33 z g g
fine: join s32 z m f
kind: join s33 z n g
kind: join u64 z j x
";

// Choices, and words bit by bit.
pub(super) const CHOICES: &str = "\
fine: cmov u8 z c b a
fine: cmov u8 z 1@u1 b a
literal: cmov u8 z 2@u1 b a
undefined: cmov u8 z x b a
mismatch: cmov u8 z a b a
mismatch: cmov u8 z l b a
mismatch: cmov u8 z 0@u2 b a
fine: cmov u8 z c 255@u8 a
literal: cmov u8 z c 256@u8 a
undefined: cmov u8 z c x a
mismatch: cmov u8 z c d a
mismatch: cmov u8 z c h a
mismatch: cmov u8 z c 0@u9 a
fine: cmov u8 z c b 255@u8
literal: cmov u8 z c b 256@u8
undefined: cmov u8 z c b x
mismatch: cmov u8 z c b d
mismatch: cmov u8 z c b h
mismatch: cmov u8 z c b 0@u9
fine: cmov s8 z c i h
mismatch: cmov s8 z c i b
fine: and u8 z a b
fine: and u8 z 255@u8 b
literal: and u8 z 256@u8 b
undefined: and u8 z x b
mismatch: and u8 z d b
mismatch: and u8 z h b
mismatch: and u8 z 0@u9 b
fine: and u8 z a 255@u8
literal: and u8 z a 256@u8
undefined: and u8 z a x
mismatch: and u8 z a d
mismatch: and u8 z a h
mismatch: and u8 z a 0@u9
fine: and s8 z h i
mismatch: and s8 z h b
fine: or u8 z a b
fine: or u8 z 255@u8 b
literal: or u8 z 256@u8 b
undefined: or u8 z x b
mismatch: or u8 z d b
mismatch: or u8 z h b
mismatch: or u8 z 0@u9 b
fine: or u8 z a 255@u8
literal: or u8 z a 256@u8
undefined: or u8 z a x
mismatch: or u8 z a d
mismatch: or u8 z a h
mismatch: or u8 z a 0@u9
fine: or s8 z h i
mismatch: or s8 z h b
fine: xor u8 z a b
fine: xor u8 z 255@u8 b
literal: xor u8 z 256@u8 b
undefined: xor u8 z x b
mismatch: xor u8 z d b
mismatch: xor u8 z h b
mismatch: xor u8 z 0@u9 b
fine: xor u8 z a 255@u8
literal: xor u8 z a 256@u8
undefined: xor u8 z a x
mismatch: xor u8 z a d
mismatch: xor u8 z a h
mismatch: xor u8 z a 0@u9
fine: xor s8 z h i
mismatch: xor s8 z h b
";
