// Forms of programs that are read from their texts.

use std::alloc::Global;
use std::test::Fail;
use tcl_lang::Ssa;
use tcl_parse::parse;
use tcl_ssa::ssa;
use tcl_types::check;

// The form of a text, if it has one.
pub(crate) fn found_form(alloc: Global, text: &str) -> Option<Ssa> {
    let parsed = parse(alloc, text.as_bytes()).ok()?;
    let typed = check(alloc, parsed).ok()?;
    ssa(alloc, &typed).ok()
}

// The form of a text.
pub(crate) fn form_of(alloc: Global, text: &str) -> Result<Ssa, Fail> {
    match found_form(alloc, text) {
        Some(form) => Ok(form),
        None => Err("no well typed program")?,
    }
}
