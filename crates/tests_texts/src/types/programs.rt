// Programs, each with its outcome by the reference's `check` command: `fine`, or the number of the first ill-typed line
// and its first reason.

// The lines of the programs one after the other; each ends with its outcome.
pub(super) const PROGRAMS: &str = "\
end: fine
in u8 a
add u8 b a a
end: fine
in u8 a
add u8 b a b
end: 2 undefined
in u8 a
add u8 b a c
mov u8 c a
end: 2 undefined
in u8 a

add u8 b a a


add u8 b c c
end: 6 undefined
in u8 a
nondet s4 b
add s4 c b b
end: fine
in u8 a
in u8 b
in u8 a
end: 3 repeated
in u8 a
assert rng b = a
mov u8 b a
end: 2 undefined
in u8 a
cast s8 a a
add s8 b a -1@s8
assert rng a <= b
end: fine
in u8 a
cast u16 a a
add u8 b a 1@u8
end: 3 mismatch
in u8 a
add u16 a a 1@u16
end: 2 mismatch
in u8 a
in u8 b
adds u8 a b a b
adc u8 c b b a
end: fine
in u8 a
in u8 b
adds u8 a b a b
add u8 c a b
end: 4 mismatch
in s8 a
split s8 a b a 4
join s8 a a b
mov s16 c a
end: fine
in s8 a
split s8 b a a 4
join s8 a a b
end: 3 mismatch
in u4 a
pre rng a < 9@u4
mulj u4 a a a
assert rng a < 81@u8
post rng a < 81@u4
end: 5 literal
in u8 a
in u8 b
adds u8 c d a b
adc u8 e a d c
adcs u8 c e a e c
subb u8 c e a e
sbbs u8 c e a e c
end: fine
in u8 a
in u8 b
adds u8 c d a b
adc u8 e a b d
end: 4 mismatch
in u8 a
subb u8 b c a a
sbb u8 d a a c
end: 3 mismatch
in s8 a
mull s8 b c a a
add s8 d b b
add u8 e c c
end: fine
in s8 a
mull s8 b c a a
add s8 d c c
end: 3 mismatch
in s8 a
split s8 b c a 1
mov u8 d b
end: 3 mismatch
in s8 a
split s8 b c a 1
mov s8 d c
end: 3 mismatch
in u8 a
join u8 b a a
mov u16 c b
mulj u16 d c c
mov u32 d d
end: fine
in u8 a
join u8 b a a
mov u8 c b
end: 3 mismatch
in s32 a
mulj s32 b a a
mov s64 c b
mov u64 c b
end: 4 mismatch
in u8 a
in u1 b
cmov u8 c b a a
not u8 c c
vpc u4 c c
assert rng c = 3@u8
end: 6 mismatch
in u8 a
add u8 b a 256@u8
adds s8 c d a a
end: 2 literal
in u8 a
adds s8 b c a a
add u8 d a 256@u8
end: 2 kind
in u8 a
pre alg a = 0 mod 0
shl u8 b a 8
end: 2 modulus
in u8 a
pre alg a = 0 mod 2**3
shl u8 b a 8
assert rng a = 0@u4
end: 3 amount
in u8 a
assert rng a = 255@u8
assume rng a = 256@u8
cut rng a = b
end: 3 literal
in u8 a
assert alg a = b mod 0
post rng a = 0@u4
end: 2 undefined
in u8 a
cut alg a = 0 mod 5 + 3
post rng a = 0@u4
end: 2 modulus
in u8 a
cut alg a = 0 mod 2**3 + 3
post rng a = 0@u4
post alg a = b
end: 3 mismatch
";

// Well typed programs, each with an input and what its names then hold by the reference's `run` command.
pub(super) const RUNS: &str = "\
in u8 a
cast s8 a a
add s8 b a -1@s8
run 0: 0@s8 -1@s8
in u8 a
cast s8 a a
add s8 b a -1@s8
run 127: 127@s8 126@s8
in u8 a
cast s8 a a
add s8 b a -1@s8
run 128: -128@s8 127@s8
in u8 a
cast s8 a a
add s8 b a -1@s8
run 200: -56@s8 -57@s8
in u8 a
in u8 b
adds u8 a b a b
adc u8 c b b a
run 200 100: 1@u1 44@u8 89@u8
in u8 a
in u8 b
adds u8 a b a b
adc u8 c b b a
run 1 2: 0@u1 3@u8 6@u8
in u8 a
in u8 b
adds u8 a b a b
adc u8 c b b a
run 255 255: 1@u1 254@u8 253@u8
in u8 a
in u8 b
subb u8 b a a b
sbb u8 c a a b
run 3 5: 254@u8 1@u1 255@u8
in u8 a
in u8 b
subb u8 b a a b
sbb u8 c a a b
run 5 3: 2@u8 0@u1 0@u8
in s8 a
mull s8 a b a a
split s8 b c a 3
run -128: 64@s8 8@s8 0@u8
in s8 a
mull s8 a b a a
split s8 b c a 3
run -1: 0@s8 0@s8 0@u8
in s8 a
mull s8 a b a a
split s8 b c a 3
run 100: 39@s8 4@s8 7@u8
in s8 a
split s8 a b a 4
join s8 a a b
vpc s4 a a
run -100: -4@s4 12@u8
in s8 a
split s8 a b a 4
join s8 a a b
vpc s4 a a
run 77: -3@s4 13@u8
in u4 a
mulj u4 a a a
mulj u8 a a a
cast s8 b a
run 15: 50625@u16 -63@s8
in u4 a
mulj u4 a a a
mulj u8 a a a
cast s8 b a
run 7: 2401@u16 97@s8
in u8 a
nondet s4 a
cast u8 b a
nondet u1 b
cmov s4 a b a 3@s4
run 200 -5 0: 3@s4 0@u1
in u8 a
nondet s4 a
cast u8 b a
nondet u1 b
cmov s4 a b a 3@s4
run 200 -5 1: -5@s4 1@u1
in u8 a
in s8 b
cast s8 a a
sub s8 a a b
assert rng a <= b
not s8 b a
cast u16 a b
shl u16 a a 9
run 255 -128: 0@u16 -128@s8
in u8 a
in s8 b
cast s8 a a
sub s8 a a b
assert rng a <= b
not s8 b a
cast u16 a b
shl u16 a a 9
run 128 1: 0@u16 -128@s8
";
