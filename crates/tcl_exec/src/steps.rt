//! One instruction over plain values.

ghost use Rattle.std.specs.Prelude.{◌≡◌, Some, pos, slice_get};
ghost use Rattle.tcl_lang.specs.Instruction.{nth};
ghost use Rattle.tcl_lang.specs.Exactness as exactness;
ghost use Rattle.tcl_lang.specs.ResultList.{listed};
ghost use Rattle.tcl_lang.specs.Run.{operands_of};
ghost use Rattle.tcl_lang.specs.Values as words;
ghost use Rattle.tcl_exec.specs.Passing.{CanBeExecuted, CanBePassed};
ghost use Rattle.tcl_exec.specs.Written.{set_named};

use tcl_lang::{Atom, Instr, Line, Op, Results, Ssa, is_exact_at, results};

/// Computes the instruction at `place` anew: its results get the values that it computes, all else stays. A `nondet`,
/// whose result is free, and a place without an instruction change nothing. The values stay in their types.
#[inline(always)]
pub fn step(ssa: &Ssa, place: u32, values: &mut [i128])
    requires { words.AreValues ssa.now.variables values.old }
    ensures values { values.new ≡ words.recomputed_at values.old (slice_get ssa.now.lines place) }
    ensures typed { words.AreValues ssa.now.variables values.new }
{
    match ssa.lines().as_slice().get(place as usize) {
        Some(line) => recompute_line(values, line),
        None => (),
    }
}

/// Computes the instruction of a line anew, if the line has one.
#[inline(always)]
fn recompute_line(values: &mut [i128], line: &Line)
    requires { CanBePassed values.old line.now (pos 0) }
    ensures { values.new ≡ words.recomputed_at values.old (Some line.now) }
{
    match line {
        Line::Step(instr) => recompute(values, instr),
        _ => (),
    }
}

/// Computes an instruction anew; a `nondet` changes nothing.
#[inline(always)]
fn recompute(values: &mut [i128], instr: &Instr)
    requires { CanBeExecuted values.old instr.now (pos 0) }
    ensures { values.new ≡ words.recomputed values.old instr.now }
{
    match instr.op {
        Op::Nondet => (),
        _ => execute(values, instr, 0),
    }
}

/// Goes through a line. `taken` is the value that an `in` line or a `nondet` takes; every other line ignores it.
pub(crate) fn pass(values: &mut [i128], line: &Line, taken: i128)
    requires { CanBePassed values.old line.now taken }
    ensures { values.new ≡ words.values_after (Some line.now) taken values.old }
{
    match line {
        Line::Input(_, variable) => set(values, *variable, taken),
        Line::Step(instr) => execute(values, instr, taken),
        _ => (),
    }
}

/// Executes an instruction. `choice` is the value that a `nondet` takes; every other instruction ignores it. There is an arm for
/// each operation, so that it reads just its operands and writes just its results.
#[inline(always)]
fn execute(values: &mut [i128], instr: &Instr, choice: i128)
    requires { CanBeExecuted values.old instr.now choice }
    ensures { values.new ≡ words.step_values values.old instr.now choice }
{
    match instr.op {
        Op::Mov => execute_as(Op::Mov, values, instr, choice),
        Op::Add => execute_as(Op::Add, values, instr, choice),
        Op::Adds => execute_as(Op::Adds, values, instr, choice),
        Op::Adc => execute_as(Op::Adc, values, instr, choice),
        Op::Adcs => execute_as(Op::Adcs, values, instr, choice),
        Op::Sub => execute_as(Op::Sub, values, instr, choice),
        Op::Subb => execute_as(Op::Subb, values, instr, choice),
        Op::Sbb => execute_as(Op::Sbb, values, instr, choice),
        Op::Sbbs => execute_as(Op::Sbbs, values, instr, choice),
        Op::Mul => execute_as(Op::Mul, values, instr, choice),
        Op::Mull => execute_as(Op::Mull, values, instr, choice),
        Op::Mulj => execute_as(Op::Mulj, values, instr, choice),
        Op::Shl => execute_as(Op::Shl, values, instr, choice),
        Op::Split => execute_as(Op::Split, values, instr, choice),
        Op::Join => execute_as(Op::Join, values, instr, choice),
        Op::Cast => execute_as(Op::Cast, values, instr, choice),
        Op::Vpc => execute_as(Op::Vpc, values, instr, choice),
        Op::Cmov => execute_as(Op::Cmov, values, instr, choice),
        Op::And => execute_as(Op::And, values, instr, choice),
        Op::Or => execute_as(Op::Or, values, instr, choice),
        Op::Xor => execute_as(Op::Xor, values, instr, choice),
        Op::Not => execute_as(Op::Not, values, instr, choice),
        Op::Nondet => execute_as(Op::Nondet, values, instr, choice),
    }
}

/// Executes an instruction of this operation.
#[inline(always)]
fn execute_as(op: Op, values: &mut [i128], instr: &Instr, choice: i128)
    requires executable { CanBeExecuted values.old instr.now choice }
    requires operation { instr.now.op ≡ op }
    ensures { values.new ≡ words.step_values values.old instr.now choice }
{
    let first = operand(op, values, instr, 0, choice);
    let second = operand(op, values, instr, 1, choice);
    let third = operand(op, values, instr, 2, choice);
    let computed = results(op, instr.ty, instr.amount, first, second, third);
    write(values, instr.outs.as_slice(), computed);
}

/// Operand `k` of an instruction of this operation; 0 where it has no such operand. The choice is the operand of a `nondet`.
#[inline(always)]
fn operand(op: Op, values: &[i128], instr: &Instr, k: usize, choice: i128) -> i128
    ensures { result ≡ nth (operands_of op (words.operand_values values.now instr.now.args) choice) k }
{
    match op {
        Op::Nondet => if k == 0 { choice } else { 0 },
        _ => argument(values, instr.args.as_slice(), k),
    }
}

/// The value of argument `k`; 0 where there is none.
#[inline(always)]
fn argument(values: &[i128], args: &[Atom], k: usize) -> i128
    ensures { result ≡ nth (words.operand_values values.now args.now) k }
{
    match args.get(k) {
        Some(atom) => atom_value(values, atom),
        None => 0,
    }
}

/// Whether the exactness condition of the instruction holds, or there is none.
pub(crate) fn is_exact(values: &[i128], instr: &Instr) -> bool
    requires { CanBeExecuted values.now instr.now (pos 0) }
    ensures { result ≡ exactness.is_exact instr.now.op instr.now.ty instr.now.amount (words.operand_values values.now instr.now.args) }
{
    let operands = operands(values, instr, 0);
    is_exact_at(
        instr.op,
        instr.ty,
        instr.amount,
        operands.first,
        operands.second,
        operands.third,
    )
}

/// The values of the first three operands of an instruction; 0 for each that it does not have.
#[derive(Clone, Copy)]
struct OperandValues {
    first: i128,
    second: i128,
    third: i128,
}

/// The operands of the instruction; the choice is the operand of a `nondet`.
#[inline(always)]
fn operands(values: &[i128], instr: &Instr, choice: i128) -> OperandValues
    ensures first { result.first ≡ nth (operands_of instr.now.op (words.operand_values values.now instr.now.args) choice) 0 }
    ensures second { result.second ≡ nth (operands_of instr.now.op (words.operand_values values.now instr.now.args) choice) 1 }
    ensures third { result.third ≡ nth (operands_of instr.now.op (words.operand_values values.now instr.now.args) choice) 2 }
{
    match instr.op {
        Op::Nondet => OperandValues {
            first: choice,
            second: 0,
            third: 0,
        },
        _ => arguments(values, instr.args.as_slice()),
    }
}

/// The values of the first three of a list of operands.
#[inline(always)]
fn arguments(values: &[i128], args: &[Atom]) -> OperandValues
    ensures first { result.first ≡ nth (words.operand_values values.now args.now) 0 }
    ensures second { result.second ≡ nth (words.operand_values values.now args.now) 1 }
    ensures third { result.third ≡ nth (words.operand_values values.now args.now) 2 }
{
    match args {
        [] => OperandValues {
            first: 0,
            second: 0,
            third: 0,
        },
        [first] => OperandValues {
            first: atom_value(values, first),
            second: 0,
            third: 0,
        },
        [first, second] => OperandValues {
            first: atom_value(values, first),
            second: atom_value(values, second),
            third: 0,
        },
        [first, second, third, ..] => OperandValues {
            first: atom_value(values, first),
            second: atom_value(values, second),
            third: atom_value(values, third),
        },
    }
}

/// The value of an operand; 0 where it names no variable.
#[inline(always)]
fn atom_value(values: &[i128], atom: &Atom) -> i128
    ensures { result ≡ words.atom_value values.now atom.now }
{
    match atom {
        Atom::Var(variable) => value_at(values, *variable),
        Atom::Lit(_, n) => *n,
    }
}

/// The value of a variable; 0 where there is no such variable.
#[inline(always)]
fn value_at(values: &[i128], variable: u32) -> i128
    ensures { result ≡ words.value_at values.now variable }
{
    match values.get(variable as usize) {
        Some(value) => *value,
        None => 0,
    }
}

/// Gives a variable a value, where there is such a variable.
#[inline(always)]
fn set(values: &mut [i128], variable: u32, value: i128)
    ensures { values.new ≡ set_named values.old (Some variable) value }
{
    let variable = variable as usize;
    if variable < values.len() {
        values[variable] = value;
    }
}

/// Gives variable `k` of the results its value.
#[inline(always)]
fn set_result(values: &mut [i128], outs: &[u32], k: usize, value: i128)
    ensures { values.new ≡ set_named values.old (slice_get outs.now k) value }
{
    match outs.get(k) {
        Some(variable) => set(values, *variable, value),
        None => (),
    }
}

/// Gives the results their values, from left to right.
#[tactic(auto, using(crate::proofs::Writing::write_one, crate::proofs::Writing::write_two))]
#[inline(always)]
fn write(values: &mut [i128], outs: &[u32], results: Results)
    ensures { values.new ≡ words.write_values values.old outs.now (listed results) }
{
    match results {
        Results::One(value) => set_result(values, outs, 0, value),
        Results::Two(first, second) => {
            set_result(values, outs, 0, first);
            set_result(values, outs, 1, second);
        }
    }
}
