//! The truth of a line at given values.

ghost use Rattle.std.specs.Prelude.{◌≡◌, All, pos};
ghost use Rattle.tcl_lang.specs.Types.{IsTy};
ghost use Rattle.tcl_lang.specs.Line as line;
ghost use Rattle.tcl_lang.specs.Truth as truth;
ghost use Rattle.tcl_lang.specs.Values as words;
ghost use Rattle.tcl_exec.specs.Passing.{CanBeExecuted};
ghost use Rattle.tcl_exec.specs.Tellable.{IsTellable, IsToldPredicate};

use crate::equation::equation_truth;
use crate::range::range_truth;
use crate::steps::is_exact;
use tcl_lang::{Instr, Line, Pred, Ssa, Truth, Variable};

/// The computed truth of the line at `place`: of its predicate, or of the exactness condition of its instruction. `Yes`
/// and `No` are its truth. `Wide` is told of an algebraic line alone: of a congruence whose modulus is wide, and of an
/// equation whose sides agree modulo `2^128` and whose size bound is not below `2^126`. A line that states nothing, and a
/// place without a line, are `Yes`.
pub fn holds(ssa: &Ssa, values: &[i128], place: u32) -> Truth
    requires { words.AreValues ssa.now.variables values.now }
    ensures { result ≡ words.computed_of ssa.now values.now place }
{
    match ssa.lines().as_slice().get(place as usize) {
        Some(line) => line_truth(ssa.variables().as_slice(), values, line),
        None => Truth::Yes,
    }
}

/// The computed truth of a line.
fn line_truth(variables: &[Variable], values: &[i128], line: &Line) -> Truth
    requires values { words.AreValues variables.now values.now }
    requires words { All (λ x. IsTy x.ty) variables.now }
    requires tellable { IsTellable variables.now values.now line.now }
    ensures { result ≡ truth.line_computed (words.words_of variables.now values.now) line.now }
{
    match line.predicate() {
        Some(pred) => predicate_truth(variables, values, pred),
        None => match line.instruction() {
            Some(instr) => yes_or_no(instruction_truth(variables, values, instr)),
            None => Truth::Yes,
        },
    }
}

/// Whether the exactness condition of an instruction holds, or there is none.
fn instruction_truth(variables: &[Variable], values: &[i128], instr: &Instr) -> bool
    requires values { words.AreValues variables.now values.now }
    requires executable { CanBeExecuted values.now instr.now (pos 0) }
    ensures { result ≡ line.instruction_truth (words.words_of variables.now values.now) instr.now }
{
    let _variables = variables;
    is_exact(values, instr)
}

/// The computed truth of a predicate.
fn predicate_truth(variables: &[Variable], values: &[i128], pred: &Pred) -> Truth
    requires values { words.AreValues variables.now values.now }
    requires words { All (λ x. IsTy x.ty) variables.now }
    requires tellable { IsToldPredicate variables.now pred.now }
    ensures { result ≡ truth.predicate_computed (words.words_of variables.now values.now) pred.now }
{
    match pred {
        Pred::Alg(pred) => equation_truth(variables, values, pred),
        Pred::Rng(pred) => yes_or_no(range_truth(variables, values, pred)),
    }
}

/// `Yes` where the test is true, else `No`.
pub(crate) fn yes_or_no(test: bool) -> Truth
    ensures { result ≡ truth.yes_or_no test }
{
    if test { Truth::Yes } else { Truth::No }
}
