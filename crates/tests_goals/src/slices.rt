// The facts of the two routes of each goal, and plans. The reference, a second implementation of the language, gave the answers.

ghost use Rattle.std.specs.Prelude.{◌≤◌};

use crate::expected::{agree, expect};
use crate::facts::{FACTS, Row, fact_of_row, row_of};
use crate::forms::{form_of, form_of_text};
use std::alloc::{AllocError, Global};
use std::test::Fail;
use tcl_goals::{BitLit, Fact, Piece, Route, has_goal};
use tcl_lang::Ssa;
use tcl_list::Same;
use tcl_slice::{plan, slice, whole};

// Programs, a split, and for each piece its number, its goal, its route, and its cube.
const PLANS: &[(&str, u32, &str)] = &[
    (
        "in u8 x\npre rng x < 200@u8\nadd u8 y x 1@u8\ncut rng y <= 200@u8\nassert rng y <= 200@u8\nend",
        1,
        "0 0 cut 0.7=0; 1 0 cut 0.7=1; 2 0 whole 0.7=0; 3 0 whole 0.7=1; 4 1 cut 0.7=0; 5 1 cut 0.7=1; 6 1 whole 0.7=0; 7 1 whole 0.7=1; 8 2 cut 1.7=0; 9 2 cut 1.7=1; 10 2 whole 0.7=0; 11 2 whole 0.7=1",
    ),
    (
        "in s4 x\nin u3 z\nnondet s4 b\nassert rng x <= b\nassert alg z = z\nnondet u8 late\nend",
        2,
        "0 0 cut 0.3=0 0.2=0; 1 0 cut 0.3=0 0.2=1; 2 0 cut 0.3=1 0.2=0; 3 0 cut 0.3=1 0.2=1; 4 0 whole 0.3=0 0.2=0; 5 0 whole 0.3=0 0.2=1; 6 0 whole 0.3=1 0.2=0; 7 0 whole 0.3=1 0.2=1; 8 1 cut; 9 1 whole",
    ),
    (
        "in u1 x\nassert rng x <= 1@u1\nassert rng true\nend",
        6,
        "0 0 cut 0.0=0; 1 0 cut 0.0=1; 2 0 whole 0.0=0; 3 0 whole 0.0=1; 4 1 cut; 5 1 whole 0.0=0; 6 1 whole 0.0=1",
    ),
    (
        "in u8 a\nin u8 b\nin u2 c\nassume rng a < b\nassert rng c < 3@u2\nassert rng a < 9@u8\nend",
        1,
        "0 0 cut 2.1=0; 1 0 cut 2.1=1; 2 0 whole 0.7=0; 3 0 whole 0.7=1; 4 1 cut 0.7=0; 5 1 cut 0.7=1; 6 1 whole 0.7=0; 7 1 whole 0.7=1",
    ),
];

fn slice_of(alloc: Global, form: &Ssa, goal: u32) -> Result<Fact, Fail> {
    if has_goal(form.lines().as_slice(), goal) {
        Ok(slice(alloc, form, goal)?)
    } else {
        Err("no such goal")?
    }
}

fn whole_of(alloc: Global, form: &Ssa, goal: u32) -> Result<Fact, Fail> {
    if has_goal(form.lines().as_slice(), goal) {
        Ok(whole(alloc, form, goal)?)
    } else {
        Err("no such goal")?
    }
}

// Whether the slice of the goal of a row is its fact.
fn is_slice(alloc: Global, row: &Row) -> Result<bool, Fail> {
    let form = form_of(alloc, row.program)?;
    is_slice_in(alloc, &form, row)
}

fn is_slice_in(alloc: Global, form: &Ssa, row: &Row) -> Result<bool, Fail> {
    let fact = slice_of(alloc, form, row.goal)?;
    Ok(is_fact(alloc, &fact, row)?)
}

// Whether the whole fact of the goal of a row is its fact.
fn is_whole(alloc: Global, row: &Row) -> Result<bool, Fail> {
    let form = form_of(alloc, row.program)?;
    is_whole_in(alloc, &form, row)
}

fn is_whole_in(alloc: Global, form: &Ssa, row: &Row) -> Result<bool, Fail> {
    let fact = whole_of(alloc, form, row.goal)?;
    Ok(is_fact(alloc, &fact, row)?)
}

fn is_fact(alloc: Global, fact: &Fact, row: &Row) -> Result<bool, AllocError> {
    let wanted = fact_of_row(alloc, row)?;
    Ok(fact.same(&wanted))
}

#[test]
fn slices(rt: HostRuntime) -> Result<(), Fail> {
    for line in FACTS.trim().lines() {
        let row = row_of(line).ok_or("a row of facts")?;
        if row.route != "whole" {
            let is_so = is_slice(rt.alloc(), &row)?;
            expect(&rt, "the slice", row.program, row.goal, is_so);
        }
    }
    Ok(())
}

#[test]
fn whole_facts(rt: HostRuntime) -> Result<(), Fail> {
    for line in FACTS.trim().lines() {
        let row = row_of(line).ok_or("a row of facts")?;
        if row.route != "cut" {
            let is_so = is_whole(rt.alloc(), &row)?;
            expect(&rt, "the whole fact", row.program, row.goal, is_so);
        }
    }
    Ok(())
}

fn push_bit(text: &mut String, bit: BitLit) -> Result<(), AllocError> {
    let value = if bit.value { 1 } else { 0 };
    write!(text, " {}.{}={value}", bit.var, bit.bit)
}

fn word_of(route: Route) -> &'static str {
    match route {
        Route::Cut => "cut",
        Route::Whole => "whole",
    }
}

fn push_piece(text: &mut String, piece: &Piece) -> Result<(), AllocError> {
    if !text.is_empty() {
        text.push_str("; ")?;
    }
    let route = word_of(piece.route);
    write!(text, "{} {} {route}", piece.number, piece.goal)?;
    for bit in piece.cube.as_slice() {
        push_bit(text, *bit)?;
    }
    Ok(())
}

fn plan_text(alloc: Global, form: &Ssa, split: u32) -> Result<String, AllocError>
    requires { split ≤ 6 }
{
    let pieces = plan(alloc, form, split)?;
    let mut text = String::new(alloc);
    for piece in pieces.as_slice() {
        push_piece(&mut text, piece)?;
    }
    Ok(text)
}

// The plan of a program.
fn plan_of(alloc: Global, program: &str, split: u32) -> Result<String, Fail> {
    let form = form_of_text(alloc, program)?;
    Ok(plan_up_to_six(alloc, &form, split)?)
}

// The plan, where the split is one.
fn plan_up_to_six(alloc: Global, form: &Ssa, split: u32) -> Result<String, AllocError> {
    if split > 6 {
        return String::from_str(alloc, "a split above 6");
    }
    plan_text(alloc, form, split)
}

#[test]
fn plans(rt: HostRuntime) -> Result<(), Fail> {
    for (program, split, wanted) in PLANS {
        let text = plan_of(rt.alloc(), program, *split)?;
        agree(&rt, program, text.as_str(), wanted);
    }
    Ok(())
}
