//! Inputs: the values that the lines of a program take.

ghost use Rattle.std.specs.Prelude.{◌≡◌, ◌<◌, ◌↔◌, IsTrue, IfSome, length, slice_get, true};
ghost use Rattle.std.specs.List.{list_all};
ghost use Rattle.tcl_lang.specs.Types.{IsTy};
ghost use Rattle.tcl_lang.specs.Line as lines;
ghost use Rattle.tcl_lang.specs.Run.{Fits, taken_types};
ghost use Rattle.tcl_lang.specs.Shape.{is_line};
ghost use Rattle.tcl_exec.specs.Fitting.{is_fitting, taken_in};

use tcl_lang::{Input, Line, Lines, Ssa, Ty, in_type};

/// Whether the input has one value for each `in` name and each `nondet`, in its type.
pub fn fits(ssa: &Ssa, input: &Input) -> bool
    ensures { IsTrue result ↔ Fits (taken_types ssa.now.lines) input.now }
{
    is_fitting(ssa.lines(), input.as_slice())
}

/// The same as a test of the lines.
fn is_fitting(lines: &Lines, input: &[i128]) -> bool
    requires { list_all is_line lines.now ≡ true }
    ensures { result ≡ is_fitting (taken_types lines.now) input.now }
{
    let mut at = 0;
    for k in 0..lines.len() {
        if let Some(ty) = taken_type(lines, k) {
            if input.len() <= at || !in_type(ty, input[at]) {
                return false;
            }
            at += 1;
        }
    }
    at == input.len()
}

/// The type of the value that line `k` takes, if it takes one.
#[tactic(auto, using(crate::proofs::Fitting::taken_at, crate::proofs::Fitting::taken_words))]
pub(crate) fn taken_type(lines: &Lines, k: usize) -> Option<Ty>
    requires within { k < length lines.now }
    requires shapes { list_all is_line lines.now ≡ true }
    ensures ty { result ≡ taken_in (slice_get lines.now k) }
    ensures of_words { IfSome result IsTy }
{
    lines.at(k).taken_type()
}
