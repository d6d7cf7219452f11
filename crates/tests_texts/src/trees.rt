// Terms, predicates and lines as the parser reads them. The trees and the answers were made by the reference's `parse`
// command.

use crate::expected::agree;
use std::alloc::{AllocError, Global};
use std::fmt::Write;
use std::process::Abort;
use std::test::Fail;
use tcl_lang::{Atom, CmpOp, Instr, Line, Pred, RngOp, RngPred, RngTerm, Term, Ty};
use tcl_parse::{ParseFault, parse};
use tcl_text::Limit;

// Terms, each with its tree in brackets, where `x0` is the first name. `text` is no term.
const TERMS: &str = "\
a -> x0
7 -> 7
a + b * c -> (x0+(x1*x2))
a * b + c -> ((x0*x1)+x2)
a - b - c -> ((x0-x1)-x2)
a - (b - c) -> (x0-(x1-x2))
a - b + c -> ((x0-x1)+x2)
a * b * c -> ((x0*x1)*x2)
-a + b -> ((-x0)+x1)
a + -b -> (x0+(-x1))
-a * -b -> ((-x0)*(-x1))
-a**2 -> (-(x0**2))
(-a)**2 -> ((-x0)**2)
a**2 * b -> ((x0**2)*x1)
2**0 -> (2**0)
(a + b)**3 -> ((x0+x1)**3)
a**4294967296 -> exponent
((a)) -> x0
a**2**3 -> text
a**b -> text
a**-2 -> text
--a -> text
a + -> text
+ a -> text
a b -> text
(a -> text
a) -> text
() -> text
a & b -> text
1@u8 -> text
-(a) -> (-x0)
a * (b + c) - 2 -> ((x0*(x1+x2))-2)
";

// Predicates over words in the same way.
const PREDICATES: &str = "\
a = b -> (x0=x1)
a != b -> (x0!=x1)
a < b -> (x0<x1)
a <= b -> (x0<=x1)
a > b -> (x0>x1)
a >= b -> (x0>=x1)
a < b && c < d -> ((x0<x1)&&(x2<x3))
a < b || c < d && a = c -> ((x0<x1)||((x2<x3)&&(x0=x2)))
a < b && c < d || a = c -> (((x0<x1)&&(x2<x3))||(x0=x2))
a < b || c < d || a = c -> (((x0<x1)||(x2<x3))||(x0=x2))
a < b && [c < d || a = c] -> ((x0<x1)&&((x2<x3)||(x0=x2)))
!a < b && c < d -> ((!(x0<x1))&&(x2<x3))
![a < b && c < d] -> (!((x0<x1)&&(x2<x3)))
!!true -> text
![!true] -> (!(!true))
true || false -> (true||false)
true + a -> text
true + a < b -> text
[true] + a < b -> text
a + b * c = d -> ((x0+(x1*x2))=x3)
a - b - c = d -> (((x0-x1)-x2)=x3)
a | b ^ c & d + a * b = c -> ((x0|(x1^(x2&(x3+(x0*x1)))))=x2)
a * b + a & d ^ c | b = c -> ((((((x0*x1)+x0)&x3)^x2)|x1)=x2)
a & b ^ c & d = a -> (((x0&x1)^(x2&x3))=x0)
-a * b = c -> (((-x0)*x1)=x2)
~a + b = c -> (((~x0)+x1)=x2)
-~a = b -> text
-(~a) = b -> ((-(~x0))=x1)
-5@u8 = a -> (-5@u8=x0)
-0@u8 = a -> text
0@s8 = a -> (0@s8=x0)
-(5@s8) = a -> ((-5@s8)=x0)
-a = 5@s8 -> ((-x0)=5@s8)
a - 5@s8 = b -> ((x0-5@s8)=x1)
a - -5@s8 = b -> ((x0--5@s8)=x1)
5 = a -> text
~5@u8 = a -> ((~5@u8)=x0)
cast(u8, a + b) = c -> (cast(u8,(x0+x1))=x2)
-cast(s8, a) = b -> ((-cast(s8,x0))=x1)
cast(u8 a) = b -> text
cast(a, b) = c -> text
(a + b) * c = d -> (((x0+x1)*x2)=x3)
(a < b) -> text
[a < b] -> (x0<x1)
[a < b -> text
[a] -> text
a < b < c -> text
a = b = c -> text
a -> text
a < -> text
< a -> text
a + = b -> text
a = b + -> text
a**2 = b -> text
true = false -> text
[[true]] -> true
(a) = ((b)) -> (x0=x1)
";

// Lines, each with its kind, and with the numbers of its results, operands and parts.
const LINES: &str = "\
in u8 a -> input
in u8 -> text
in u8 a b -> text
in a -> text
add u8 c a b -> step 1 2 0
add u8 c a -> text
add u8 c a b b -> text
adds u8 c d a b -> step 2 2 0
split u8 c d a 3 -> step 2 1 3
split u8 c d a -> text
shl u8 c a 4294967296 -> step 1 1 4294967295
nondet u8 c -> step 1 0 0
cmov u8 d a b c -> step 1 3 0
add u8 c 1@u8 -1@u8 -> step 1 2 0
add u8 1@u8 a b -> text
pre rng a < b -> pre range
pre a < b -> text
pre rng a < b mod 7 -> text
assert alg a = b -> assert equation
assert alg a = b mod 7 -> assert congruence 1
assume alg a = b mod 2**8 - 1 + 5 -> assume congruence 3
cut alg a = b mod -1 -> text
cut alg a = b mod -> text
post alg a = b mod 2**3**4 -> text
post alg a = b = c -> text
post alg a -> text
cut rng true -> cut range
post rng a = b -> post range
end end -> text
mod 7 -> text
proc -> text
assert alg a**1024 = b -> assert equation
assert alg a**1025 = b -> exponent
assert alg a = b mod 2**1025 -> exponent
assert alg a = b mod 2**1025 a -> text
";

fn write_name(text: &mut String, n: u32) -> Result<(), AllocError> {
    write!(text, "x{n}")
}

fn write_number(text: &mut String, n: i128) -> Result<(), AllocError> {
    write!(text, "{n}")
}

// The end of a power.
fn write_exponent(text: &mut String, power: u32) -> Result<(), AllocError> {
    write!(text, "**{power})")
}

fn write_term(term: &Term, text: &mut String) -> Result<(), AllocError> {
    match term {
        Term::Var(n) => write_name(text, *n),
        Term::Num(n) => write_number(text, *n),
        Term::Neg(inner) => {
            text.push_str("(-")?;
            write_term(inner.get(), text)?;
            text.push_str(")")
        }
        Term::Add(left, right) => {
            text.push_str("(")?;
            write_term(left.get(), text)?;
            text.push_str("+")?;
            write_term(right.get(), text)?;
            text.push_str(")")
        }
        Term::Sub(left, right) => {
            text.push_str("(")?;
            write_term(left.get(), text)?;
            text.push_str("-")?;
            write_term(right.get(), text)?;
            text.push_str(")")
        }
        Term::Mul(left, right) => {
            text.push_str("(")?;
            write_term(left.get(), text)?;
            text.push_str("*")?;
            write_term(right.get(), text)?;
            text.push_str(")")
        }
        Term::Pow(base, power) => {
            text.push_str("(")?;
            write_term(base.get(), text)?;
            write_exponent(text, *power)
        }
    }
}

fn write_type(text: &mut String, ty: &Ty) -> Result<(), AllocError> {
    let letter = if ty.signed { 's' } else { 'u' };
    write!(text, "{letter}{}", ty.width)
}

fn write_literal(text: &mut String, ty: &Ty, n: i128) -> Result<(), AllocError> {
    write_number(text, n)?;
    text.push_str("@")?;
    write_type(text, ty)
}

fn operator(op: &RngOp) -> &str {
    match op {
        RngOp::Add => "+",
        RngOp::Sub => "-",
        RngOp::Mul => "*",
        RngOp::And => "&",
        RngOp::Or => "|",
        RngOp::Xor => "^",
    }
}

fn comparison(op: &CmpOp) -> &str {
    match op {
        CmpOp::Eq => "=",
        CmpOp::Ne => "!=",
        CmpOp::Lt => "<",
        CmpOp::Le => "<=",
        CmpOp::Gt => ">",
        CmpOp::Ge => ">=",
    }
}

fn write_range_term(term: &RngTerm, text: &mut String) -> Result<(), AllocError> {
    match term {
        RngTerm::Leaf(Atom::Var(n)) => write_name(text, *n),
        RngTerm::Leaf(Atom::Lit(ty, n)) => write_literal(text, ty, *n),
        RngTerm::Neg(inner) => {
            text.push_str("(-")?;
            write_range_term(inner.get(), text)?;
            text.push_str(")")
        }
        RngTerm::Flip(inner) => {
            text.push_str("(~")?;
            write_range_term(inner.get(), text)?;
            text.push_str(")")
        }
        RngTerm::Bin(op, left, right) => {
            text.push_str("(")?;
            write_range_term(left.get(), text)?;
            text.push_str(operator(op))?;
            write_range_term(right.get(), text)?;
            text.push_str(")")
        }
        RngTerm::Cast(ty, inner) => {
            text.push_str("cast(")?;
            write_type(text, ty)?;
            text.push_str(",")?;
            write_range_term(inner.get(), text)?;
            text.push_str(")")
        }
    }
}

fn write_range_pred(pred: &RngPred, text: &mut String) -> Result<(), AllocError> {
    match pred {
        RngPred::True => text.push_str("true"),
        RngPred::False => text.push_str("false"),
        RngPred::Cmp(op, left, right) => {
            text.push_str("(")?;
            write_range_term(left, text)?;
            text.push_str(comparison(op))?;
            write_range_term(right, text)?;
            text.push_str(")")
        }
        RngPred::Not(inner) => {
            text.push_str("(!")?;
            write_range_pred(inner.get(), text)?;
            text.push_str(")")
        }
        RngPred::Both(left, right) => {
            text.push_str("(")?;
            write_range_pred(left.get(), text)?;
            text.push_str("&&")?;
            write_range_pred(right.get(), text)?;
            text.push_str(")")
        }
        RngPred::Either(left, right) => {
            text.push_str("(")?;
            write_range_pred(left.get(), text)?;
            text.push_str("||")?;
            write_range_pred(right.get(), text)?;
            text.push_str(")")
        }
    }
}

// The tree of the left side of an equation, or of a predicate over words.
fn write_tree(line: &Line, text: &mut String) -> Result<(), AllocError> {
    match line {
        Line::Assert(Pred::Alg(pred)) => write_term(&pred.left, text),
        Line::Assert(Pred::Rng(pred)) => write_range_pred(pred, text),
        _ => text.push_str("another line"),
    }
}

fn write_instruction(instr: &Instr, text: &mut String) -> Result<(), AllocError> {
    let outs = instr.outs.len();
    let args = instr.args.len();
    write!(text, "step {outs} {args} {}", instr.amount)
}

fn write_predicate(word: &str, pred: &Pred, text: &mut String) -> Result<(), AllocError> {
    text.push_str(word)?;
    match pred {
        Pred::Rng(_) => text.push_str(" range"),
        Pred::Alg(pred) => match &pred.modulus {
            None => text.push_str(" equation"),
            Some(parts) => write!(text, " congruence {}", parts.len()),
        },
    }
}

fn write_kind(line: &Line, text: &mut String) -> Result<(), AllocError> {
    match line {
        Line::Input(_, _) => text.push_str("input"),
        Line::Pre(pred) => write_predicate("pre", pred, text),
        Line::Step(instr) => write_instruction(instr, text),
        Line::Assert(pred) => write_predicate("assert", pred, text),
        Line::Assume(pred) => write_predicate("assume", pred, text),
        Line::Cut(pred) => write_predicate("cut", pred, text),
        Line::Post(pred) => write_predicate("post", pred, text),
    }
}

// What is printed of a line.
#[derive(Clone, Copy)]
enum Print {
    Tree,
    Kind,
}

fn fault_word(fault: &ParseFault) -> &'static str {
    match fault {
        ParseFault::Text(_) => "text",
        ParseFault::Shape(_) => "shape",
        ParseFault::Limit(Limit::Nesting) => "nesting",
        ParseFault::Limit(Limit::Operators) => "operators",
        ParseFault::Limit(Limit::Exponent) => "exponent",
        ParseFault::Limit(_) => "another limit",
        ParseFault::Memory => "memory",
    }
}

// What is printed of the last line of a text, or the word of its fault.
fn answer(alloc: Global, text: &str, print: Print) -> Result<String, AllocError> {
    let mut written = String::new(alloc);
    match parse(alloc, text.as_bytes()) {
        Ok(parsed) => match (parsed.program().lines().as_slice().last(), print) {
            (Some(line), Print::Tree) => write_tree(line, &mut written)?,
            (Some(line), Print::Kind) => write_kind(line, &mut written)?,
            (None, _) => written.push_str("no line")?,
        },
        Err(fault) => written.push_str(fault_word(&fault))?,
    }
    Ok(written)
}

// The names are those of four inputs.
fn text_of(alloc: Global, start: &str, line: &str, end: &str) -> Result<String, AllocError> {
    format!(in alloc; "in u8 a\nin u8 b\nin u8 c\nin u8 d\n{start}{line}{end}\nend")
}

// The tree of a line between these texts.
fn tree_of(alloc: Global, start: &str, line: &str, end: &str) -> Result<String, AllocError> {
    let text = text_of(alloc, start, line, end)?;
    answer(alloc, text.as_str(), Print::Tree)
}

fn expect_rows(
    rt: &impl Abort,
    alloc: Global,
    rows: &str,
    start: &str,
    end: &str,
) -> Result<(), Fail> {
    for row in rows.lines() {
        let (line, tree) = row.split_once(" -> ").ok_or("no tree")?;
        let found = tree_of(alloc, start, line, end)?;
        agree(rt, line, found.as_str(), tree);
    }
    Ok(())
}

#[test]
fn trees(rt: HostRuntime) -> Result<(), Fail> {
    expect_rows(&rt, rt.alloc(), TERMS, "assert alg ", " = 0")?;
    expect_rows(&rt, rt.alloc(), PREDICATES, "assert rng ", "")
}

// The kind of a line that is the only one before `end`.
fn kind_of(alloc: Global, line: &str) -> Result<String, AllocError> {
    let text = format!(in alloc; "{line}\nend")?;
    answer(alloc, text.as_str(), Print::Kind)
}

#[test]
fn lines_of_every_kind(rt: HostRuntime) -> Result<(), Fail> {
    for row in LINES.lines() {
        let (line, kind) = row.split_once(" -> ").ok_or("no kind")?;
        let found = kind_of(rt.alloc(), line)?;
        agree(&rt, line, found.as_str(), kind);
    }
    Ok(())
}

// `assert`, its beginning, so many times a part with an operator, and its end.
fn chain(alloc: Global, start: &str, part: &str, end: &str) -> Result<String, AllocError> {
    let mut line = String::from_str(alloc, start)?;
    for _ in 0..4096 {
        line.push_str(part)?;
    }
    line.push_str(end)?;
    Ok(line)
}

fn kind_of_chain(alloc: Global, start: &str, part: &str, end: &str) -> Result<String, AllocError> {
    let line = chain(alloc, start, part, end)?;
    kind_of(alloc, line.as_str())
}

#[test]
fn as_many_operators_as_a_line_has(rt: HostRuntime) -> Result<(), Fail> {
    let table: &[(&str, &str, &str, &str)] = &[
        ("assert alg a", " + a", " = b", "assert equation"),
        ("assert alg a", " * a", " = b", "assert equation"),
        ("assert rng true", " && true", "", "assert range"),
        ("assert rng true", " || true", "", "assert range"),
        ("assert rng a", " | a", " < b", "assert range"),
        ("assert rng a", " ^ a", " < b", "assert range"),
        ("assert rng a", " & a", " < b", "assert range"),
        ("assert rng a", " - a", " < b", "assert range"),
        ("assert rng a", " * a", " < b", "assert range"),
    ];
    for (start, part, end, kind) in table {
        let found = kind_of_chain(rt.alloc(), start, part, end)?;
        agree(&rt, part, found.as_str(), kind);
    }
    Ok(())
}

// So many brackets around a name, so many stars, and `= b`.
fn long_line(alloc: Global, brackets: u32, stars: u32, end: &str) -> Result<String, AllocError> {
    let mut line = String::from_str(alloc, "assert alg ")?;
    for _ in 0..brackets {
        line.push_str("(")?;
    }
    line.push_str("a")?;
    for _ in 0..brackets {
        line.push_str(")")?;
    }
    for _ in 0..stars {
        line.push_str(" * a")?;
    }
    line.push_str(end)?;
    Ok(line)
}

fn kind_of_long(alloc: Global, brackets: u32, stars: u32, end: &str) -> Result<String, AllocError> {
    let text = long_line(alloc, brackets, stars, end)?;
    answer(alloc, text.as_str(), Print::Kind)
}

// A line with a sign too many is no line, unless it is beyond a limit.
#[test]
fn limits_in_their_order(rt: HostRuntime) -> Result<(), Fail> {
    let table: &[(u32, u32, &str, &str)] = &[
        (64, 4096, "assert equation", "text"),
        (65, 4096, "nesting", "nesting"),
        (64, 4097, "operators", "operators"),
        (65, 4097, "nesting", "nesting"),
    ];
    for (brackets, stars, kind, worse) in table {
        let found = kind_of_long(rt.alloc(), *brackets, *stars, " = b\nend")?;
        agree(&rt, "brackets and stars", found.as_str(), kind);
        let found = kind_of_long(rt.alloc(), *brackets, *stars, " = b =\nend")?;
        agree(&rt, "the same and a sign", found.as_str(), worse);
    }
    Ok(())
}
