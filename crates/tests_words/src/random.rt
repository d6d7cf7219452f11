// Texts of random range predicates.

use std::alloc::{AllocError, Global};

// Numbers by linear congruences; the high bits are taken.
#[derive(Drop)]
pub(crate) struct Source {
    pub(crate) state: u64,
}

impl Source {
    // A number below the end, or 0 where the end is 0.
    pub(crate) fn below(&mut self, end: u32) -> u32 {
        self.state = self
            .state
            .wrapping_mul(6_364_136_223_846_793_005)
            .wrapping_add(1_442_695_040_888_963_407);
        let high = u32::try_from(self.state.wrapping_shr(33)).unwrap_or(0);
        high.checked_rem(end).unwrap_or(0)
    }
}

// A name, its type, and a literal of the type.
#[derive(Clone, Copy)]
struct Kind {
    name: &'static str,
    ty: &'static str,
    literal: &'static str,
}

// The inputs, one of each type of one to three bits.
pub(crate) const INPUTS: &str = "in u1 a\nin u2 b\nin u3 c\nin s2 d\nin s3 e\n";

fn kind_of(number: u32) -> Kind {
    let (name, ty, literal) = match number {
        0 => ("a", "u1", "1@u1"),
        1 => ("b", "u2", "2@u2"),
        2 => ("c", "u3", "5@u3"),
        3 => ("d", "s2", "-2@s2"),
        _ => ("e", "s3", "-3@s3"),
    };
    Kind { name, ty, literal }
}

fn operator(number: u32) -> &'static str {
    match number {
        0 => "+",
        1 => "-",
        2 => "*",
        3 => "&",
        4 => "|",
        _ => "^",
    }
}

fn comparison(number: u32) -> &'static str {
    match number {
        0 => "=",
        1 => "!=",
        2 => "<",
        3 => "<=",
        4 => ">",
        _ => ">=",
    }
}

fn leaf(source: &mut Source, kind: Kind) -> &'static str {
    if source.below(3) == 0 {
        kind.literal
    } else {
        kind.name
    }
}

// The term with one more operator.
fn grown(alloc: Global, source: &mut Source, kind: Kind, term: &str) -> Result<String, AllocError> {
    let choice = source.below(8);
    let operator = operator(source.below(6));
    let leaf = leaf(source, kind);
    match choice {
        0 => format!(in alloc; "-({term})"),
        1 => format!(in alloc; "~({term})"),
        2 | 3 | 4 => format!(in alloc; "({term}) {operator} {leaf}"),
        _ => format!(in alloc; "{leaf} {operator} ({term})"),
    }
}

// A term of a kind, with at most six operators.
fn term_of(alloc: Global, source: &mut Source, kind: Kind) -> Result<String, AllocError> {
    let mut term = String::from_str(alloc, leaf(source, kind))?;
    for _ in 0..source.below(7) {
        term = grown(alloc, source, kind, term.as_str())?;
    }
    Ok(term)
}

// A comparison of a term with another term, which is cast to the type of the first.
fn compared(alloc: Global, source: &mut Source) -> Result<String, AllocError> {
    let kind = kind_of(source.below(5));
    let left = term_of(alloc, source, kind)?;
    let other = kind_of(source.below(5));
    let right = term_of(alloc, source, other)?;
    let comparison = comparison(source.below(6));
    let ty = kind.ty;
    format!(in alloc; "{left} {comparison} cast({ty}, {right}) & {}", kind.name)
}

// The predicate with one more operator.
fn joined(alloc: Global, source: &mut Source, pred: &str) -> Result<String, AllocError> {
    let choice = source.below(6);
    let other = compared(alloc, source)?;
    match choice {
        0 => format!(in alloc; "![{pred}]"),
        1 => format!(in alloc; "[{pred}] && [{other}]"),
        2 => format!(in alloc; "[{pred}] || [{other}]"),
        3 => format!(in alloc; "![{other}] && [{pred}] || false"),
        4 => format!(in alloc; "[{pred}] && true || [{other}]"),
        _ => format!(in alloc; "[{other}] || ![{pred}]"),
    }
}

// A predicate of at most four comparisons.
pub(crate) fn predicate(alloc: Global, source: &mut Source) -> Result<String, AllocError> {
    let mut pred = compared(alloc, source)?;
    for _ in 0..source.below(4) {
        pred = joined(alloc, source, pred.as_str())?;
    }
    Ok(pred)
}
