//! Canonical texts of lines of every kind. The expected texts were computed by a second implementation of the language.

use std::alloc::{AllocError, Global};
use std::process::Abort;
use tcl_lang::Program;
use tcl_list::Same;
use tcl_parse::parse;
use tcl_report::program_text;

/// The canonical text of the program that a text reads as, if it does.
fn canonical(alloc: Global, text: &[u8]) -> Result<Option<Vec<u8>>, AllocError> {
    match parse(alloc, text) {
        Ok(parsed) => Ok(Some(program_text(alloc, parsed.program())?)),
        Err(_) => Ok(None),
    }
}

/// Two texts read as one program.
fn read_alike(alloc: Global, left: &[u8], right: &[u8]) -> bool {
    match (parse(alloc, left), parse(alloc, right)) {
        (Ok(left), Ok(right)) => left.program().same(right.program()),
        _ => false,
    }
}

/// A line and `end`.
fn text_of(alloc: Global, line: &str) -> Result<String, AllocError> {
    let mut text = String::from_str(alloc, line)?;
    text.push_str("\nend\n")?;
    Ok(text)
}

fn expect(rt: &impl Abort, alloc: Global, cases: &[(&str, &str)]) -> Result<(), AllocError> {
    for (line, wanted) in cases {
        let text = text_of(alloc, line)?;
        let wanted = text_of(alloc, wanted)?;
        let wanted = wanted.as_str().as_bytes();
        match canonical(alloc, text.as_str().as_bytes())? {
            Some(written) => assert!(rt; written.as_slice() == wanted, "the text of {line}"),
            None => assert!(rt; false, "{line} is no line"),
        }
        assert!(rt;
            read_alike(alloc, text.as_str().as_bytes(), wanted),
            "the program of {line}"
        );
    }
    Ok(())
}

#[test]
fn inputs_and_range_predicates(rt: HostRuntime) -> Result<(), AllocError> {
    let cases: &[(&str, &str)] = &[
        ("in u8 x", "in u8 x"),
        ("in\ts64   long_name_2 # comment", "in s64 long_name_2"),
        ("pre  rng x<255 @ u8 # low", "pre rng x < 255@u8"),
        ("pre rng true", "pre rng true"),
        ("pre rng false", "pre rng false"),
        ("pre rng !true", "pre rng !true"),
        ("pre rng ![x=y]", "pre rng !x = y"),
        ("pre rng [[x=y]]", "pre rng x = y"),
        (
            "pre rng [x=y]&&z!=1@u8||a<=b",
            "pre rng x = y && z != 1@u8 || a <= b",
        ),
        (
            "pre rng x=y&&[z>1@u8||a>=b]",
            "pre rng x = y && [z > 1@u8 || a >= b]",
        ),
        (
            "pre rng x=y||[z>1@u8||a>=b]",
            "pre rng x = y || [z > 1@u8 || a >= b]",
        ),
        (
            "pre rng [x=y||z>1@u8]||a>=b",
            "pre rng x = y || z > 1@u8 || a >= b",
        ),
        ("pre rng ![x=y&&true]", "pre rng ![x = y && true]"),
        ("pre rng !x = y", "pre rng !x = y"),
        ("pre rng x+y*z-a=b", "pre rng x + y * z - a = b"),
        ("pre rng (x+y)*z=b", "pre rng (x + y) * z = b"),
        ("pre rng x-(y-z)=b", "pre rng x - (y - z) = b"),
        ("pre rng x-(y+z)-a=b", "pre rng x - (y + z) - a = b"),
        ("pre rng (x-y)-z=b", "pre rng x - y - z = b"),
        ("pre rng x&y+z|a^b=c", "pre rng x & y + z | a ^ b = c"),
        ("pre rng (x&y)+z=c", "pre rng (x & y) + z = c"),
        ("pre rng x&(y|z)=c", "pre rng x & (y | z) = c"),
        ("pre rng x^(y^z)=c", "pre rng x ^ (y ^ z) = c"),
        ("pre rng x|(y^z)&a=c", "pre rng x | (y ^ z) & a = c"),
        ("pre rng -x=~y", "pre rng -x = ~y"),
        ("pre rng -(5@s8)=x", "pre rng -(5@s8) = x"),
        ("pre rng --5@s8=x", "pre rng --5@s8 = x"),
        ("pre rng -5@s8=x", "pre rng -5@s8 = x"),
        ("pre rng -(0@s8)=x", "pre rng -(0@s8) = x"),
        ("pre rng ~-5@s8=x", "pre rng ~-5@s8 = x"),
        ("pre rng ~(-x)=x", "pre rng ~(-x) = x"),
        ("pre rng -(~x)=x", "pre rng -(~x) = x"),
        ("pre rng ~(x+y)=x", "pre rng ~(x + y) = x"),
        ("pre rng -(x*y)=x", "pre rng -(x * y) = x"),
        ("pre rng -x*y=x", "pre rng -x * y = x"),
        ("pre rng x*(y*z)=x", "pre rng x * (y * z) = x"),
        ("pre rng x - -5@s8 = y", "pre rng x - -5@s8 = y"),
        (
            "pre rng cast(u16,x)+cast(s8,x+y)=z",
            "pre rng cast(u16, x) + cast(s8, x + y) = z",
        ),
        ("pre rng -cast(u8 , ~x) = z", "pre rng -cast(u8, ~x) = z"),
        (
            "pre rng cast(u8,cast(u16,x))=z",
            "pre rng cast(u8, cast(u16, x)) = z",
        ),
        ("pre rng 007@u8 = 0@u8", "pre rng 7@u8 = 0@u8"),
    ];
    expect(&rt, rt.alloc(), cases)
}

#[test]
fn equations(rt: HostRuntime) -> Result<(), AllocError> {
    let cases: &[(&str, &str)] = &[
        ("pre alg x=y", "pre alg x = y"),
        ("pre alg x+y*z**2-a=0", "pre alg x + y * z**2 - a = 0"),
        ("pre alg (x+y)**3*2=z", "pre alg (x + y)**3 * 2 = z"),
        ("pre alg x-(y-z)=0", "pre alg x - (y - z) = 0"),
        ("pre alg x*(y*z)=(x*y)*z", "pre alg x * (y * z) = x * y * z"),
        ("pre alg -x**2=(-x)**2", "pre alg -x**2 = (-x)**2"),
        ("pre alg -(-x)=x", "pre alg -(-x) = x"),
        ("pre alg -(x+y)=-5", "pre alg -(x + y) = -5"),
        ("pre alg -(x*y)*z=3*-x", "pre alg -(x * y) * z = 3 * -x"),
        ("pre alg (x**2)**3=x", "pre alg (x**2)**3 = x"),
        ("pre alg 2**10=1024", "pre alg 2**10 = 1024"),
        ("pre alg ((((x))))=(0007)", "pre alg x = 7"),
        ("pre alg x=y mod 3329", "pre alg x = y mod 3329"),
        ("pre alg x=y mod 2**255-19", "pre alg x = y mod 2**255 - 19"),
        (
            "pre alg x = y mod 2**64 - 2**32 + 1",
            "pre alg x = y mod 2**64 - 2**32 + 1",
        ),
        ("pre alg x = y mod 5+3", "pre alg x = y mod 5 + 3"),
    ];
    expect(&rt, rt.alloc(), cases)
}

#[test]
fn instructions_and_other_lines(rt: HostRuntime) -> Result<(), AllocError> {
    let cases: &[(&str, &str)] = &[
        ("mov u8 x 5@u8", "mov u8 x 5@u8"),
        ("add u8 z x y", "add u8 z x y"),
        ("adds u8 c x a b", "adds u8 c x a b"),
        ("adc s8 x a b c", "adc s8 x a b c"),
        ("adcs u8 c x a b d", "adcs u8 c x a b d"),
        ("sub u8 x a -1@s8", "sub u8 x a -1@s8"),
        ("subb u8 c x a b", "subb u8 c x a b"),
        ("sbb u8 x a b y", "sbb u8 x a b y"),
        ("sbbs u8 c x a b y", "sbbs u8 c x a b y"),
        ("mul u8 x a b", "mul u8 x a b"),
        ("mull s8 h l a b", "mull s8 h l a b"),
        ("mulj u8 x a b", "mulj u8 x a b"),
        ("shl u8 x a 007", "shl u8 x a 7"),
        ("split u8 h l a 4294967296", "split u8 h l a 4294967295"),
        ("join u8 x h l", "join u8 x h l"),
        ("cast s8 x 200@u8", "cast s8 x 200@u8"),
        ("vpc s8 x a", "vpc s8 x a"),
        ("cmov u8 x c a b", "cmov u8 x c a b"),
        ("and u8 x a b", "and u8 x a b"),
        ("or u8 x a b", "or u8 x a b"),
        ("xor u8 x a b", "xor u8 x a b"),
        ("not u8 x a", "not u8 x a"),
        ("nondet u8 x", "nondet u8 x"),
        ("assert rng x=x", "assert rng x = x"),
        ("assume alg x=x", "assume alg x = x"),
        ("cut rng x<=x", "cut rng x <= x"),
        ("post alg x=x mod 1", "post alg x = x mod 1"),
    ];
    expect(&rt, rt.alloc(), cases)
}
