// Texts of the language and their parser.

use std::alloc::{AllocError, Global};
use tcl_parse::parse;

/// What most lines of a text are.
#[derive(Clone, Copy)]
pub(crate) enum Kind {
    /// Predicates of some operators over three names.
    Predicates,
    /// Comments, with a predicate now and then.
    Comments,
    /// Predicates over names that are new on each line.
    Names,
    /// Predicates of 4,000 operators.
    Chains,
}

impl Kind {
    pub(crate) fn of_word(word: &str) -> Option<Kind> {
        match word {
            "predicates" => Some(Kind::Predicates),
            "comments" => Some(Kind::Comments),
            "names" => Some(Kind::Names),
            "chains" => Some(Kind::Chains),
            _ => None,
        }
    }
}

/// Makes a text of about so many bytes, parses it, and says how many bytes and lines it has.
pub(crate) fn parse_text(alloc: Global, kind: Kind, size: u32) -> Result<String, AllocError> {
    let text = text_of(alloc, kind, size)?;
    match count_lines(alloc, text.as_bytes()) {
        Some(lines) => format!(in alloc; "ok {lines}\nbytes {}\n", text.len()),
        None => format!(in alloc; "refused\nbytes {}\n", text.len()),
    }
}

/// The number of lines of the program that the text reads as, if it reads as one.
fn count_lines(alloc: Global, text: &[u8]) -> Option<usize> {
    let parsed = parse(alloc, text).ok()?;
    Some(parsed.program().lines().len())
}

fn text_of(alloc: Global, kind: Kind, size: u32) -> Result<String, AllocError> {
    let mut text = String::new(alloc);
    text.push_str("in u64 a\nin u64 b\nin u32 c\n")?;
    for k in 0..size {
        if text.len() >= size as usize {
            break;
        }
        write_line(&mut text, kind, k)?;
    }
    text.push_str("end\n")?;
    Ok(text)
}

fn write_line(text: &mut String, kind: Kind, k: u32) -> Result<(), AllocError> {
    match kind {
        Kind::Predicates if k % 2 == 0 => write_integers(text, k),
        Kind::Predicates => write_words(text, k),
        Kind::Comments if k % 16 == 0 => write_integers(text, k),
        Kind::Comments => write!(
            &mut *text,
            "# line {k} says nothing to the parser, a + b < c\n"
        ),
        Kind::Names => write!(
            &mut *text,
            "assume alg first{k} * second{k} = third{k} - a\n"
        ),
        Kind::Chains => write_chain(text),
    }
}

fn write_integers(text: &mut String, k: u32) -> Result<(), AllocError> {
    write!(
        &mut *text,
        "assume alg a * (b + {k}) ** 2 - 3 * c = {k} * a mod 2**64 - 59\n"
    )
}

fn write_words(text: &mut String, k: u32) -> Result<(), AllocError> {
    write!(
        &mut *text,
        "assume rng a + {k}@u64 * b < (cast(u64, c) & ~b) || [a != {k}@u64 && ![b - a <= 7@u64]]\n"
    )
}

fn write_chain(text: &mut String) -> Result<(), AllocError> {
    text.push_str("assume alg a")?;
    for _operator in 0..4000_u32 {
        text.push_str(" + b")?;
    }
    text.push_str(" = c\n")
}
