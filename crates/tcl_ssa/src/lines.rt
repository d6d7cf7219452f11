//! Lines over variables: they read the current versions, and define the next variables.

ghost use Rattle.std.specs.Prelude.{◌≡◌, IfOk, map};
ghost use Rattle.tcl_lang.specs.Versions as versions;
ghost use Rattle.tcl_ssa.specs.Table.{versions_of};

use crate::predicate::version_predicate;
use crate::table::{Table, number_at, number_of};
use std::alloc::{AllocError, Global};
use tcl_lang::{Args, Atom, Instr, Line, Outs};

/// The line over variables. `Err` is that memory has run out, or that there would be too many variables.
pub(crate) fn version_line(alloc: Global, table: &Table, line: &Line) -> Result<Line, AllocError>
    ensures { IfOk result (λ over. over ≡ versions.version_line (versions_of table.now) line.now) }
{
    let current = table.current.as_slice();
    match line {
        Line::Input(ty, _) => Ok(Line::Input(*ty, number_of(&table.variables)?)),
        Line::Step(instr) => Ok(Line::Step(version_instruction(alloc, table, instr)?)),
        Line::Pre(pred) => Ok(Line::Pre(version_predicate(alloc, current, pred)?)),
        Line::Assert(pred) => Ok(Line::Assert(version_predicate(alloc, current, pred)?)),
        Line::Assume(pred) => Ok(Line::Assume(version_predicate(alloc, current, pred)?)),
        Line::Cut(pred) => Ok(Line::Cut(version_predicate(alloc, current, pred)?)),
        Line::Post(pred) => Ok(Line::Post(version_predicate(alloc, current, pred)?)),
    }
}

/// The instruction over variables.
fn version_instruction(alloc: Global, table: &Table, instr: &Instr) -> Result<Instr, AllocError>
    ensures { IfOk result (λ over. over ≡ versions.version_instruction (versions_of table.now) instr.now) }
{
    let outs = numbers_from(alloc, number_of(&table.variables)?, instr.outs.as_slice())?;
    let args = version_atoms(alloc, table.current.as_slice(), instr.args.as_slice())?;
    Ok(Instr {
        op: instr.op,
        ty: instr.ty,
        outs,
        args,
        amount: instr.amount,
    })
}

/// Numbers from `first` on, one for each result.
fn numbers_from(alloc: Global, first: u32, outs: &[u32]) -> Result<Outs, AllocError>
    ensures { IfOk result (λ numbers. numbers ≡ versions.numbers_from first outs.now) }
{
    let mut numbers = Outs::new(alloc);
    let mut next = first;
    for out in outs {
        let _result = out;
        numbers.push(next)?;
        next = next.checked_add(1).ok_or(AllocError)?;
    }
    Ok(numbers)
}

/// The operands over variables.
fn version_atoms(alloc: Global, current: &[u32], args: &[Atom]) -> Result<Args, AllocError>
    ensures { IfOk result (λ over. over ≡ map (versions.version_atom current.now) args.now) }
{
    let mut over = Args::new(alloc);
    for atom in args {
        over.push(version_atom(current, *atom))?;
    }
    Ok(over)
}

/// The operand over variables.
pub(crate) fn version_atom(current: &[u32], atom: Atom) -> Atom
    ensures { result ≡ versions.version_atom current.now atom }
{
    match atom {
        Atom::Var(name) => Atom::Var(number_at(current, name)),
        Atom::Lit(ty, n) => Atom::Lit(ty, n),
    }
}
