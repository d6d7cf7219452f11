//! Which variables each line names, and which lines name each variable.

ghost use Rattle.std.specs.Prelude.{◌≡◌, ◌<◌, ◌^◌, ◌-◌, [], IfOk, OnOk, length, map, replicate};
ghost use Rattle.tcl_lang.specs.Names.{used_names};
ghost use Rattle.tcl_goals.specs.Slices as slices;
ghost use Rattle.tcl_slice.specs.Touching as touching;

use crate::names::names_of;
use std::alloc::{AllocError, Global};
use tcl_lang::{Line, Lines};
use tcl_list::Listing;

/// The names that each line reads, from left to right, and for each variable the places of the lines that name it.
#[derive(Drop)]
pub(crate) struct Links {
    pub(crate) names: Listing<Listing<u32>>,
    pub(crate) rows: Vec<Listing<u32>>,
}

/// The links of lines over so many variables. The only error is that memory has run out.
pub(crate) fn link(alloc: Global, lines: &Lines, variables: usize) -> Result<Links, AllocError>
    requires { length lines.now < 2 ^ 32 - 1 }
    ensures names { IfOk result (λ links. links.names ≡ map used_names lines.now) }
    ensures rows { IfOk result (λ links. links.rows.items ≡ touching.rows_of variables lines.now) }
{
    let names = all_names(alloc, lines)?;
    let rows = rows_of(alloc, lines, names.as_slice(), variables)?;
    Ok(Links { names, rows })
}

/// The names that each line reads.
fn all_names(alloc: Global, lines: &Lines) -> Result<Listing<Listing<u32>>, AllocError>
    ensures { IfOk result (λ names. names ≡ map used_names lines.now) }
{
    let mut names = Listing::new(alloc);
    for k in 0..lines.len() {
        names.push(names_of(alloc, lines.at(k))?)?;
    }
    Ok(names)
}

/// For each variable the places of the lines that name it.
#[tactic(auto, unfolding(crate::specs::Touching::rows_from))]
fn rows_of(
    alloc: Global,
    lines: &Lines,
    names: &[Listing<u32>],
    variables: usize,
) -> Result<Vec<Listing<u32>>, AllocError>
    requires few { length lines.now < 2 ^ 32 - 1 }
    requires names { names.now ≡ map used_names lines.now }
    ensures { IfOk result (λ rows. rows.items ≡ touching.rows_of variables lines.now) }
{
    let mut rows = no_rows(alloc, variables)?;
    for k in 0..lines.len() {
        touch_line(&mut rows, k as u32, lines.at(k), &names[k])?;
    }
    Ok(rows)
}

/// As many empty lists.
fn no_rows(alloc: Global, count: usize) -> Result<Vec<Listing<u32>>, AllocError>
    ensures { IfOk result (λ rows. rows.items ≡ replicate count []) }
{
    let mut rows = Vec::new(alloc);
    for k in 0..count {
        rows.push(Listing::new(alloc))?;
    }
    Ok(rows)
}

/// Adds line `j`, which reads these names, to the variables that it names.
#[tactic(auto, using(crate::proofs::Joining::touched_append))]
fn touch_line(
    rows: &mut Vec<Listing<u32>>,
    j: u32,
    line: &Line,
    names: &Listing<u32>,
) -> Result<(), AllocError>
    requires { names.now ≡ used_names line.now }
    ensures { OnOk result (rows.new.items ≡ touching.touched_all rows.old.items j (slices.named_in (Some line.now))) }
{
    match line {
        Line::Input(_, v) => touch(rows, j, *v),
        Line::Step(instr) => {
            touch_all(rows, j, instr.outs.as_slice())?;
            touch_all(rows, j, names.as_slice())
        }
        _ => touch_all(rows, j, names.as_slice()),
    }
}

/// Adds line `j` to these variables.
fn touch_all(rows: &mut Vec<Listing<u32>>, j: u32, vs: &[u32]) -> Result<(), AllocError>
    ensures { OnOk result (rows.new.items ≡ touching.touched_all rows.old.items j vs.now) }
{
    for k in 0..vs.len() {
        touch(rows, j, vs[k])?;
    }
    Ok(())
}

/// Adds line `j` to a variable, where there is such a variable.
fn touch(rows: &mut Vec<Listing<u32>>, j: u32, v: u32) -> Result<(), AllocError>
    ensures { OnOk result (rows.new.items ≡ touching.touched rows.old.items j v) }
{
    let v = v as usize;
    if v < rows.len() {
        rows[v].push(j)?;
    }
    Ok(())
}
