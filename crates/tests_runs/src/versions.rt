// The variables of forms.

use crate::forms::form_of;
use crate::runs::{told, trace_of};
use std::alloc::{AllocError, Global};
use std::process::Abort;
use std::test::Fail;
use tcl_lang::{Ssa, Variable};

// A name that is defined again by an instruction that reads it, and at another type.
const TEXT: &str = "in u8 x\nin u8 y\nadd u8 x x y\nmull u8 y x x y\ncast s8 x x\nend\n";

fn letter_of(variable: &Variable) -> char {
    if variable.name.as_slice() == [b'x'].as_slice() {
        'x'
    } else {
        'y'
    }
}

fn sign_of(variable: &Variable) -> char {
    if variable.ty.signed { 's' } else { 'u' }
}

// The names, versions and types of the variables.
fn variables_text(alloc: Global, form: &Ssa) -> Result<String, AllocError> {
    let mut text = String::new(alloc);
    for variable in form.variables().as_slice() {
        let letter = letter_of(variable);
        let sign = sign_of(variable);
        let width = variable.ty.width;
        write!(&mut text, " {letter}.{} {sign}{width}", variable.version)?;
    }
    Ok(text)
}

#[test]
fn names_defined_again(rt: HostRuntime) -> Result<(), Fail> {
    let alloc = rt.alloc();
    let form = form_of(alloc, TEXT)?;
    let found = variables_text(alloc, &form)?;
    let expected = " x.0 u8 y.0 u8 x.1 u8 y.1 u8 x.2 u8 x.3 s8";
    assert!(&rt; found.as_str() == expected, "the variables{found}");
    Ok(())
}

#[test]
fn values_of_names_defined_again(rt: HostRuntime) -> Result<(), Fail> {
    let alloc = rt.alloc();
    let form = form_of(alloc, TEXT)?;
    let found = told(alloc, trace_of(alloc, &form, &[200, 100])?.as_slice())?;
    assert!(&rt;
        found.as_str() == " 200 100 44 17 48 48",
        "the values{found}"
    );
    Ok(())
}
