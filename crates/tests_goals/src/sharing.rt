// Programs, forms, facts and lemmas may go to other threads and be shared by them: a call of `shared` at a type is proved only
// where the type is `Send` and `Sync`.

use crate::forms::{fact_of, form_of_text};
use std::test::Fail;
use tcl_goals::{Fact, Lemmas};
use tcl_lang::{Input, Line, Parsed, Program, Ssa, Ty, Typed};
use tcl_parse::parse;
use tcl_types::check;

fn shared<T: Send + Sync + Drop>(_value: T) {}

fn shared_line(line: Line) {
    shared(line);
}

fn shared_input(input: Input) {
    shared(input);
}

fn shared_program(program: Program) {
    shared(program);
}

fn shared_parsed(parsed: Parsed) {
    shared(parsed);
}

fn shared_typed(typed: Typed) {
    shared(typed);
}

fn shared_form(form: Ssa) {
    shared(form);
}

fn shared_fact(fact: Fact) {
    shared(fact);
}

fn shared_lemmas(lemmas: Lemmas) {
    shared(lemmas);
}

const TEXT: &str = "in u8 x\nassert rng x <= 255@u8\nend";

#[test]
fn programs(rt: HostRuntime) -> Result<(), Fail> {
    let alloc = rt.alloc();
    let parsed = parse(alloc, TEXT.as_bytes())?;
    shared_program(parsed.program().copy()?);
    shared_parsed(parsed);
    Ok(())
}

#[test]
fn typed_programs(rt: HostRuntime) -> Result<(), Fail> {
    let alloc = rt.alloc();
    match check(alloc, parse(alloc, TEXT.as_bytes())?) {
        Ok(typed) => shared_typed(typed),
        Err(_) => Err("an ill-typed program")?,
    }
    Ok(())
}

#[test]
fn forms(rt: HostRuntime) -> Result<(), Fail> {
    shared_form(form_of_text(rt.alloc(), TEXT)?);
    Ok(())
}

#[test]
fn parts(rt: HostRuntime) -> Result<(), Fail> {
    let alloc = rt.alloc();
    shared_line(Line::Input(Ty::bit(), 0));
    shared_input(Input::new(alloc));
    shared_lemmas(Lemmas::new(alloc));
    shared_fact(fact_of(alloc, 0, &[], &[])?);
    Ok(())
}
