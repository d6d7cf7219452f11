// Texts with the first fault that the parser finds in them. The answers were made by the reference's `parse` command.

use crate::expected::{agree, holds};
use std::alloc::{AllocError, Global};
use std::test::Fail;
use tcl_lang::Parsed;
use tcl_parse::{ParseFault, parse};
use tcl_text::Limit;

fn limit_word(limit: Limit) -> &'static str {
    match limit {
        Limit::Nesting => "nesting",
        Limit::Operators => "operators",
        Limit::Exponent => "exponent",
        Limit::Instructions => "instructions",
        Limit::Variables => "variables",
        Limit::Goals => "goals",
    }
}

// The first word of the answer, and the line that it names where it names one.
fn answer(alloc: Global, text: &[u8]) -> Result<String, AllocError> {
    match parse(alloc, text) {
        Ok(_) => String::from_str(alloc, "ok"),
        Err(ParseFault::Text(number)) => format!(in alloc; "text {number}"),
        Err(ParseFault::Shape(number)) => format!(in alloc; "shape {number}"),
        Err(ParseFault::Limit(limit)) => String::from_str(alloc, limit_word(limit)),
        Err(ParseFault::Memory) => String::from_str(alloc, "memory"),
    }
}

// How many times the piece in braces stands, and what stands before, in and behind the braces.
fn repetition(row: &str) -> Option<(u64, &str, &str, &str)> {
    let (before, rest) = row.split_once('{')?;
    let (piece, behind) = rest.split_once('}')?;
    let (times, before) = before.split_once(": ")?;
    Some((times.parse::<u64>().ok()?, before, piece, behind))
}

fn repeated(
    alloc: Global,
    times: u64,
    before: &str,
    piece: &str,
    behind: &str,
) -> Result<String, AllocError> {
    let mut text = String::new(alloc);
    text.push_str(before)?;
    for _ in 0..times {
        text.push_str(piece)?;
    }
    text.push_str(behind)?;
    Ok(text)
}

// A row with its piece as many times as it says.
fn expanded(alloc: Global, row: &str) -> Result<String, AllocError> {
    match repetition(row) {
        Some((times, before, piece, behind)) => repeated(alloc, times, before, piece, behind),
        None => String::from_str(alloc, row),
    }
}

// The text of a row, in which `/` is the end of a line.
fn text_of(alloc: Global, row: &str) -> Result<String, AllocError> {
    let mut text = String::new(alloc);
    for letter in row.chars() {
        text.push(if letter == '/' { '\n' } else { letter })?;
    }
    Ok(text)
}

fn answer_to_row(alloc: Global, row: &str) -> Result<String, AllocError> {
    let row = expanded(alloc, row)?;
    let text = text_of(alloc, row.as_str())?;
    answer(alloc, text.as_str().as_bytes())
}

// Lines of texts.
const LINES: &str = "\
end -> ok
 -> shape 1
end/ -> ok
end\r/ -> ok
end\r -> text 1
\rend -> text 1
end\r\r/ -> text 1
\r/end -> ok
//end/ -> ok
 end -> ok
end  -> ok
\tend\t/ -> ok
end # last -> ok
# é $ \"/end -> ok
# only -> shape 2
end/# after/ -> ok
end// \t/ -> ok
end/end -> shape 2
end/x -> text 2
in u8 x -> shape 2
in u8 x/ -> shape 2
in u8 x/// -> shape 4
in u8 x\r/\r/end -> ok
é/end -> text 1
end; -> text 1
in u8 x/in u8 y $/ -> text 2
in u8 x/end//in u8 y -> shape 4
in u8\rx/end -> text 1
in u8 x#y/end -> ok
\0end -> text 1
end\u{b} -> text 1
";

// Tokens of lines.
const TOKENS: &str = "\
in u8 aaaaaaaaaaaaaaaaaaaaaaaaaaaaaaaaaaaaaaaaaaaaaaaaaaaaaaaaaaaaaaaa/end -> ok
in u8 aaaaaaaaaaaaaaaaaaaaaaaaaaaaaaaaaaaaaaaaaaaaaaaaaaaaaaaaaaaaaaaaa/end -> text 1
in u8 _/end -> ok
in u8 a_9/end -> ok
in u8 9a/end -> text 1
in u8 A/end -> ok
in u08 x/end -> text 1
in u0 x/end -> text 1
in u64 x/end -> ok
in u65 x/end -> text 1
in s1 x/end -> text 1
in s2 x/end -> ok
in u8 u65/end -> ok
in u8 s1/end -> ok
in u8 u64/end -> text 1
in u8 s64/end -> text 1
in u8 u01/end -> ok
in u8 end/end -> text 1
in u8 ecut/end -> text 1
in u8 proc/end -> text 1
in u8 True/end -> ok
in u8 cast/end -> text 1
in u8 ende/end -> ok
assert alg 170141183460469231731687303715884105727 = 0/end -> ok
assert alg 170141183460469231731687303715884105728 = 0/end -> text 1
assert alg 000000000000000000000000000000000000000000000001 = 1/end -> ok
assert alg 99999999999999999999999999999999999999999999 = 0/end -> text 1
in u8 x/assert alg x ** 2 = 1/end -> ok
in u8 x/assert alg x * * 2 = 1/end -> text 2
in u8 x/assert rng x ! = x/end -> text 2
in u8 x/assert rng x != x/end -> ok
in u8 x/assert rng x < = x/end -> text 2
in u8 x/assert rng x <= x/end -> ok
in u8 x/assert rng x == x/end -> text 2
in u8 x/assert rng x=x&&x=x/end -> ok
in u8 x/assert rng x = x & & x = x/end -> text 2
in u8 x/assert rng x=x|||x=x/end -> text 2
in u8 x/add u8 y x 1@u8/end -> ok
in u8 x/add u8 y x 1 @ u8/end -> ok
in u8 x/add u8 y x 1@ u8/end -> ok
";

// Forms of lines.
const FORMS: &str = "\
in x u8/end -> text 1
in u8 x y/end -> text 1
in u8/end -> text 1
in/end -> text 1
in u8 5/end -> text 1
pre true/end -> text 1
pre rng/end -> text 1
pre rng true true/end -> text 1
pre rng true/end -> ok
assume rng false/end -> ok
cut rng true/end -> ok
post rng true/end -> ok
ecut rng true/end -> text 1
rcut rng true/end -> text 1
call f/end -> text 1
x/end -> text 1
mov u8 y 1@u8/end -> ok
mov u8 y/end -> text 1
mov u8 y 1@u8 2@u8/end -> text 1
mov y 1@u8/end -> text 1
mov u8 1@u8 y/end -> text 1
adds u8 c y 1@u8 2@u8/end -> ok
adds u8 y 1@u8 2@u8/end -> text 1
adc u8 y 1@u8 2@u8 1@u1/end -> ok
mull u8 h l 1@u8 2@u8/end -> ok
shl u8 y 1@u8 3/end -> ok
shl u8 y 1@u8/end -> text 1
shl u8 y 1@u8 3@u8/end -> text 1
shl u8 y 1@u8 99999999999/end -> ok
split u8 h l 1@u8 4/end -> ok
split u8 l 1@u8 4/end -> text 1
join u8 y 1@u8 2@u8/end -> ok
cast u8 y 1@u8/end -> ok
cmov u8 y 1@u1 1@u8 2@u8/end -> ok
nondet u8 y/end -> ok
nondet u8 y 1@u8/end -> text 1
not u8 y -1@s8/end -> ok
not u8 y -0@s8/end -> text 1
not u8 y - 1@s8/end -> ok
not u8 y -x/end -> text 1
end end -> text 1
add u8 y (1@u8) 2@u8/end -> text 1
";

// Places of lines.
const PLACES: &str = "\
pre rng true/in u8 x/end -> shape 2
in u8 x/pre rng true/in u8 y/end -> shape 3
mov u8 y 1@u8/pre rng true/end -> shape 2
mov u8 y 1@u8/in u8 x/end -> shape 2
assert rng true/mov u8 y 1@u8/end -> ok
post rng true/assert rng true/end -> shape 2
post rng true/mov u8 y 1@u8/end -> shape 2
post rng true/post rng false/end -> ok
in u8 x//pre rng true/# c/cut rng true/assume rng true/post rng true/end -> ok
post rng true/pre rng true +/end -> text 2
end/in u8 x/end -> shape 2
post rng true//# end/ -> shape 4
post rng true/in u8 x/$ -> shape 2
";

// Terms and predicates.
const PREDICATES: &str = "\
assert alg x+y-z*2 = -x/end -> ok
assert alg -x**2 = (-x)**2/end -> ok
assert alg --x = 0/end -> text 1
assert alg -(-x) = 0/end -> ok
assert alg x**y = 0/end -> text 1
assert alg x**-1 = 0/end -> text 1
assert alg x**2**2 = 0/end -> text 1
assert alg (x**2)**2 = 0/end -> ok
assert alg (x = 0/end -> text 1
assert alg x) = 0/end -> text 1
assert alg x = y = z/end -> text 1
assert alg x/end -> text 1
assert alg x + = 0/end -> text 1
assert alg [x] = 0/end -> text 1
assert alg 5@u8 = 0/end -> text 1
assert alg x = 0 mod 5/end -> ok
assert alg x = 0 mod 2**3 - 1 + 4/end -> ok
assert alg x = 0 mod -5/end -> text 1
assert alg x = 0 mod (5)/end -> text 1
assert alg x = 0 mod/end -> text 1
assert alg x = 0 mod y/end -> text 1
assert alg x = 0 mod 5 mod 5/end -> text 1
assert alg x = 0 mod 2**3**1/end -> text 1
assert rng x + y * z & x ^ y | z = x/end -> ok
assert rng ~x = -x/end -> ok
assert rng -~x = x/end -> text 1
assert rng -(~x) = x/end -> ok
assert rng ~-5@s8 = x/end -> ok
assert rng ~(-x) = x/end -> ok
assert rng --5@s8 = x/end -> ok
assert rng -0@s8 = x/end -> text 1
assert rng x - 0@s8 = x/end -> ok
assert rng 5 = x/end -> text 1
assert rng x ** 2 = x/end -> text 1
assert rng cast(u8, x) = x/end -> ok
assert rng cast (u8,x+y) = x/end -> ok
assert rng cast(x, u8) = x/end -> text 1
assert rng (x = x)/end -> text 1
assert rng [x = x]/end -> ok
assert rng ![x = x] && true/end -> ok
assert rng !!true/end -> text 1
assert rng ![!true]/end -> ok
assert rng x < y < z/end -> text 1
assert rng x/end -> text 1
assert rng true = true/end -> text 1
assert rng [true/end -> text 1
assert rng true]/end -> text 1
assert rng [x] = x/end -> text 1
assert rng x = y && x != y || x >= y/end -> ok
assert rng x > y && [x < y || x <= y]/end -> ok
";

// Limits of lines.
const LINE_LIMITS: &str = "\
64: assert rng {[}true]]]]]]]]]]]]]]]]]]]]]]]]]]]]]]]]]]]]]]]]]]]]]]]]]]]]]]]]]]]]]]]]/end -> ok
65: assert rng {[}true]]]]]]]]]]]]]]]]]]]]]]]]]]]]]]]]]]]]]]]]]]]]]]]]]]]]]]]]]]]]]]]]]/end -> nesting
65: assert alg {(}/end -> nesting
65: assert alg {)(}/end -> text 1
100: # {(}/end -> ok
4096: assert alg x{ + x} = 0/end -> ok
4097: assert alg x{ + x} = 0/end -> operators
4097: assert rng {!}/end -> operators
4097: assert rng x{!=x}/end -> text 1
4097: assert rng {![}/end -> nesting
4097: assert rng {![}$/end -> text 1
4096: assert rng x{-x}=x/end -> ok
4097: assert rng x{|x}=x/end -> operators
4096: assert rng x=x{||x=x}/end -> ok
";

// Limits of exponents.
const EXPONENTS: &str = "\
assert alg x**1024 = 0/end -> ok
assert alg x**1025 = 0/end -> exponent
assert alg x = 0 mod 2**1024/end -> ok
assert alg x = 0 mod 2**1025/end -> exponent
assert alg x = 0 mod 2**2 + 1**99999999999/end -> exponent
end/assert alg x**1025 = 0 -> exponent
assert alg x**1025 = /end -> text 1
";

// Limits of programs.
const PROGRAM_LIMITS: &str = "\
4096: {mov u8 y 1@u8/}end -> ok
4097: {mov u8 y 1@u8/}end -> instructions
4097: {mov u8 y 1@u8/} -> shape 4098
8192: {in u8 x/}end -> ok
8193: {in u8 x/}end -> variables
4096: {mull u8 h l 1@u8 2@u8/}end -> ok
4096: in u8 x/{mull u8 h l 1@u8 2@u8/}end -> variables
4096: {assert rng true/}end -> ok
4097: {assert rng true/}end -> goals
4096: {add u8 y 1@u8 2@u8/}end -> ok
4097: {add u8 y 1@u8 2@u8/}end -> instructions
4096: {add u8 y 1@u8 2@u8/}cut rng true/end -> goals
5000: {assume rng true/}end -> ok
70000: {/}end x -> text 70001
";

const TABLES: &[&str] = &[
    LINES,
    TOKENS,
    FORMS,
    PLACES,
    PREDICATES,
    LINE_LIMITS,
    EXPONENTS,
    PROGRAM_LIMITS,
];

// Texts with their answers. `/` stands for the end of a line, and `N: a{b}c` for `a`, N times `b`, and `c`.
#[test]
fn answers_to_texts(rt: HostRuntime) -> Result<(), Fail> {
    for rows in TABLES {
        for row in rows.lines() {
            let (text, wanted) = row.split_once(" -> ").ok_or("no answer")?;
            let found = answer_to_row(rt.alloc(), text)?;
            agree(&rt, text, found.as_str(), wanted);
        }
    }
    Ok(())
}

// Whether the names and the places are those of the text.
fn is_counted(parsed: &Parsed) -> bool {
    let names = parsed.program().names();
    names.len() == 2
        && names.as_slice()[1].as_slice() == b"y".as_slice()
        && parsed.places().as_slice() == [1, 3, 4].as_slice()
}

#[test]
fn names_are_numbered_and_places_counted(rt: HostRuntime) -> Result<(), Fail> {
    let text = "in u8 x\n\nadd u8 y x 1@u8 # y\nassert rng x < y\nend";
    let parsed = parse(rt.alloc(), text.as_bytes())?;
    holds(&rt, "names and places", is_counted(&parsed));
    Ok(())
}
