// The form of a text, and the parts of a row of a table.

use std::alloc::{AllocError, Global};
use std::test::Fail;
use tcl_lang::Ssa;
use tcl_parse::parse;
use tcl_ssa::ssa;
use tcl_types::check;

// The form of a text.
pub(crate) fn form_of_text(alloc: Global, text: &str) -> Result<Ssa, Fail> {
    let parsed = parse(alloc, text.as_bytes())?;
    match check(alloc, parsed) {
        Ok(typed) => Ok(ssa(alloc, &typed)?),
        Err(_) => Err("an ill-typed program")?,
    }
}

// The goal, the lines of the program, and the clauses of a row.
pub(crate) fn parts_of(row: &str) -> Result<(u32, &str, &str), Fail> {
    let (goal, rest) = row.split_once(": ").ok_or("no goal")?;
    let (lines, clauses) = rest.split_once(": ").ok_or("no clauses")?;
    let goal = goal.parse().ok().ok_or("no number")?;
    Ok((goal, lines, clauses))
}

// The text of a program whose lines are apart by semicolons.
pub(crate) fn program_of(alloc: Global, lines: &str) -> Result<String, AllocError> {
    let mut text = String::new(alloc);
    for line in lines.split("; ") {
        write!(text, "{line}\n")?;
    }
    Ok(text)
}
