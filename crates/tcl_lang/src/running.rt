//! The plain program of a run: the store after an instruction, after a line, and after the first lines of a program.

ghost use Rattle.std.specs.Prelude.{◌≡◌, ◌<◌, ◌≤◌, Some, List, length, replicate, All, slice_get, slice_index, IfOk, pos, slice_index_or};
ghost use Rattle.tcl_lang.specs.declared.ty.Ty.{Ty};
ghost use Rattle.tcl_lang.specs.Types.{IsTy};
ghost use Rattle.tcl_lang.specs.Store as stores;
ghost use Rattle.tcl_lang.specs.Instruction.{nth, result_count};
ghost use Rattle.tcl_lang.specs.Results.{result_types};
ghost use Rattle.tcl_lang.specs.ResultList.{listed};
ghost use Rattle.tcl_lang.specs.Line.{values_of};
ghost use Rattle.tcl_lang.specs.Run as runs;
ghost use Rattle.tcl_lang.specs.Execution.{CanExecute, CanPass, IsRunnable};

use crate::instr::{Atom, Instr, Op};
use crate::pred::Line;
use crate::result_values::Results;
use crate::step::results;
use crate::ty::{Ty, Word};
use std::alloc::{AllocError, Global};

/// The word of a name without a value.
fn empty_word() -> Word
    ensures { result ≡ stores.empty_word }
{
    Word {
        ty: Ty {
            signed: false,
            width: 0,
        },
        value: 0,
    }
}

/// The word of a name.
pub fn word_at(store: &[Word], name: u32) -> Word
    ensures { result ≡ stores.word_at store.now name }
{
    match store.get(name as usize) {
        Some(word) => *word,
        None => empty_word(),
    }
}

fn value_at(store: &[Word], args: &[Atom], k: usize) -> i128
    ensures { result ≡ nth (values_of store.now args.now) k }
{
    match args.get(k) {
        Some(Atom::Var(name)) => word_at(store, *name).value,
        Some(Atom::Lit(_, n)) => *n,
        None => 0,
    }
}

/// Operand k of the instruction; the choice is the operand of `nondet`.
fn operand(store: &[Word], instr: &Instr, choice: i128, k: usize) -> i128
    ensures { result ≡ nth (runs.operands_of instr.now.op (values_of store.now instr.now.args) choice) k }
{
    match instr.op {
        Op::Nondet => if k == 0 { choice } else { 0 },
        _ => value_at(store, instr.args.as_slice(), k),
    }
}

fn set_result(store: &mut [Word], instr: &Instr, k: usize, value: i128)
    requires of_words { IsTy instr.now.ty }
    requires shape { length instr.now.outs ≡ result_count instr.now.op }
    requires within { k < length instr.now.outs }
    requires defines { All (λ name. name < length store.old) instr.now.outs }
    ensures set { (T : Ty) → slice_get (result_types instr.now.op instr.now.ty) k ≡ Some T →
        store.new ≡ stores.set_word store.old (slice_index instr.now.outs k) T value }
    ensures len { length store.new ≡ length store.old }
{
    let name = *instr.outs.at(k);
    store[name as usize] = Word {
        ty: instr.op.result_type(instr.ty, k),
        value,
    };
}

fn write(store: &mut [Word], instr: &Instr, results: Results)
    requires of_words { IsTy instr.now.ty }
    requires shape { length instr.now.outs ≡ result_count instr.now.op }
    requires count { length (listed results) ≡ result_count instr.now.op }
    requires defines { All (λ name. name < length store.old) instr.now.outs }
    ensures { store.new ≡ runs.write_all store.old instr.now.outs (result_types instr.now.op instr.now.ty) (listed results) }
{
    match results {
        Results::One(value) => set_result(store, instr, 0, value),
        Results::Two(first, second) => {
            set_result(store, instr, 0, first);
            set_result(store, instr, 1, second);
        }
    }
}

/// Executes an instruction. `choice` is the value that a `nondet` takes; every other instruction ignores it.
pub fn execute(store: &mut [Word], instr: &Instr, choice: i128)
    requires { CanExecute store.old instr.now choice }
    ensures { store.new ≡ runs.execute store.old instr.now choice }
{
    let a = operand(store, instr, choice, 0);
    let b = operand(store, instr, choice, 1);
    let c = operand(store, instr, choice, 2);
    write(
        store,
        instr,
        results(instr.op, instr.ty, instr.amount, a, b, c),
    );
}

/// Goes through a line. `taken` is the value that an `in` line or a `nondet` takes; every other line ignores it.
pub fn pass(store: &mut [Word], line: &Line, taken: i128)
    requires { CanPass store.old line.now taken }
    ensures { store.new ≡ runs.store_after (Some line.now) taken store.old }
{
    match line {
        Line::Input(ty, name) => {
            store[*name as usize] = Word {
                ty: *ty,
                value: taken,
            };
        }
        Line::Step(instr) => execute(store, instr, taken),
        _ => (),
    }
}

/// The value of the input that is taken next, or 0 where there is none.
fn next_value(input: &[i128], taken: usize) -> i128
    ensures { result ≡ slice_index_or input.now taken (pos 0) }
{
    match input.get(taken) {
        Some(value) => *value,
        None => 0,
    }
}

fn run_in(store: &mut [Word], names: usize, lines: &[Line], input: &[i128], end: usize)
    requires begins { store.old ≡ replicate names stores.empty_word }
    requires runnable { IsRunnable names lines.now }
    requires fits { runs.Fits (runs.taken_types lines.now) input.now }
    requires within { end ≤ length lines.now }
    ensures { store.new ≡ runs.store_at names lines.now input.now end }
{
    let mut taken = 0;
    for k in 0..end {
        let line = &lines[k];
        pass(store, line, next_value(input, taken));
        if line.taken_type().is_some() {
            taken += 1;
        }
    }
}

/// The store before line `end` in the run from the input, in a program over `names` names; where `end` is the number
/// of lines, the store at the end. `Err` is that memory has run out.
pub fn run_before(
    alloc: Global,
    names: usize,
    lines: &[Line],
    input: &[i128],
    end: usize,
) -> Result<Vec<Word>, AllocError>
    requires runnable { IsRunnable names lines.now }
    requires fits { runs.Fits (runs.taken_types lines.now) input.now }
    requires within { end ≤ length lines.now }
    ensures store { IfOk result (λ store. store.items ≡ runs.store_at names lines.now input.now end) }
{
    let mut store = vec![in alloc; empty_word(); names]?;
    run_in(&mut store, names, lines, input, end);
    Ok(store)
}

/// The store at the end of the run from the input, in a program over `names` names. `Err` is that memory has run out.
pub fn run(
    alloc: Global,
    names: usize,
    lines: &[Line],
    input: &[i128],
) -> Result<Vec<Word>, AllocError>
    requires runnable { IsRunnable names lines.now }
    requires fits { runs.Fits (runs.taken_types lines.now) input.now }
    ensures store { IfOk result (λ store. store.items ≡ runs.store_at names lines.now input.now (length lines.now)) }
{
    run_before(alloc, names, lines, input, lines.len())
}
