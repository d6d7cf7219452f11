// The versioned form of a text.

use std::alloc::Global;
use std::test::Fail;
use tcl_lang::Ssa;
use tcl_parse::parse;
use tcl_ssa::ssa;
use tcl_types::check;

pub(crate) fn form_of_text(alloc: Global, text: &str) -> Result<Ssa, Fail> {
    let parsed = parse(alloc, text.as_bytes())?;
    match check(alloc, parsed) {
        Ok(typed) => Ok(ssa(alloc, &typed)?),
        Err(_) => Err("an ill-typed program")?,
    }
}
