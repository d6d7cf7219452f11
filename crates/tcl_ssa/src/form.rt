//! The form of a whole program.

ghost use Rattle.std.specs.Prelude.{◌≡◌, ◌<◌, ◌↔◌, ◌^◌, ℕ, ℤ, IfOk, List, Some, length, slice_get, true};
ghost use Rattle.std.specs.List.{list_all};
ghost use Rattle.tcl_lang.specs.Shape.{is_line};
ghost use Rattle.tcl_lang.specs.Correct.{IsCorrect, IsCounterexample};
ghost use Rattle.tcl_lang.specs.Typing.{IsWellTyped};
ghost use Rattle.tcl_lang.specs.Versions as versions;

use crate::lines::version_line;
use crate::table::Table;
use std::alloc::{AllocError, Global};
use tcl_lang::{Line, Lines, Program, Ssa, Typed};

/// The form of the program: it is correct exactly where the program is, and the same inputs refute the same goals of both.
/// The only error is that memory has run out; so it is where there would be 2^32 variables or more.
pub fn ssa(alloc: Global, typed: &Typed) -> Result<Ssa, AllocError>
    ensures form { IfOk result (λ form. form ≡ versions.form_of typed.now.program) }
    ensures few { IfOk result (λ form. length form.variables < 2 ^ 32) }
    ensures correct { IfOk result (λ form. IsCorrect (length form.variables) form.lines ↔ IsCorrect (length typed.now.program.names) typed.now.program.lines) }
    ensures refuted { IfOk result (λ form. (input : List ℤ) (goal : ℕ) → IsCounterexample (length form.variables) form.lines input goal ↔ IsCounterexample (length typed.now.program.names) typed.now.program.lines input goal) }
{
    form_of(alloc, typed.program())
}

/// The form, variable by variable and line by line.
fn form_of(alloc: Global, program: &Program) -> Result<Ssa, AllocError>
    requires { IsWellTyped (length program.now.names) program.now.lines }
    ensures form { IfOk result (λ form. form ≡ versions.form_of program.now) }
    ensures few { IfOk result (λ form. length form.variables < 2 ^ 32) }
{
    let names = program.names();
    let lines = program.lines();
    let mut table = Table::new(alloc, names.len())?;
    let mut form = Lines::new(alloc);
    for k in 0..lines.len() {
        let line = line_at(lines, k);
        form.push(version_line(alloc, &table, line)?)?;
        table.define_line(alloc, names, line)?;
    }
    match u32::try_from(table.variables.len()) {
        Ok(_) => Ok(Ssa::of(table.variables, form)),
        Err(_) => Err(AllocError),
    }
}

/// Line `k`, of lines that have the shape of lines of the grammar.
#[tactic(auto, using(crate::proofs::Forms::line_in))]
fn line_at(lines: &Lines, k: usize) -> &Line
    requires within { k < length lines.now }
    requires shapes { list_all is_line lines.now ≡ true }
    ensures line { slice_get lines.now k ≡ Some result.now }
    ensures shape { is_line result.now ≡ true }
{
    lines.at(k)
}
