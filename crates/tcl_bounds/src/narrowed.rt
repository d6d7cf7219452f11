//! The intervals of a fact.

ghost use Rattle.std.specs.Prelude.{◌≡◌, ℕ, true, Some, fold, map, All, IfOk, slice_get, option_copied};
ghost use Rattle.tcl_lang.specs.Types.{IsTy};
ghost use Rattle.tcl_lang.specs.declared.pred.Line as declared;
ghost use Rattle.tcl_bounds.specs.Narrowing as narrowing;
ghost use Rattle.tcl_bounds.specs.Bounds as bounds_words;
ghost use Rattle.tcl_bounds.specs.Conditions as conditions;
ghost use Rattle.tcl_bounds.specs.Limits.{met_with};

use crate::ends::whole;
use crate::interval::{Bounds, Interval};
use crate::narrowing::narrow_line;
use crate::uses::step;
use std::alloc::{AllocError, Global};
use tcl_goals::{Fact, Hyp};
use tcl_lang::{Line, Ssa, Variable};

/// The intervals of the types.
fn types(alloc: Global, variables: &[Variable]) -> Result<Vec<Interval>, AllocError>
    requires { All (λ x. IsTy x.ty) variables.now }
    ensures { IfOk result (λ bounds. bounds.items ≡ bounds_words.wholes variables.now) }
{
    let mut bounds = Vec::new(alloc);
    for k in 0..variables.len() {
        bounds.push(whole(variables[k].ty))?;
    }
    Ok(bounds)
}

/// Narrows by one hypothesis.
fn narrow_hyp(bounds: &mut [Interval], lines: &[Line], hyp: Hyp)
    requires { conditions.LinesHaveWords lines.now }
    ensures { bounds.new ≡ narrowing.narrow_hyp lines.now bounds.old hyp }
{
    match hyp {
        Hyp::Line(k) => {
            if let Some(line) = lines.get(k as usize) {
                narrow_line(bounds, line);
            }
        }
        Hyp::Lemma(_) => (),
    }
}

/// Narrows by all hypotheses in order.
fn narrow_all(bounds: &mut [Interval], lines: &[Line], hyps: &[Hyp])
    requires { conditions.LinesHaveWords lines.now }
    ensures { bounds.new ≡ fold (narrowing.narrow_hyp lines.now) bounds.old hyps.now }
{
    for k in 0..hyps.len() {
        narrow_hyp(bounds, lines, hyps[k]);
    }
}

/// What the hypotheses leave of the types.
fn limits(alloc: Global, ssa: &Ssa, fact: &Fact) -> Result<Vec<Interval>, AllocError>
    ensures { IfOk result (λ limits. limits.items ≡ bounds_words.narrowed_all ssa.now fact.now (bounds_words.wholes ssa.now.variables)) }
{
    let mut limits = types(alloc, ssa.variables().as_slice())?;
    narrow_all(&mut limits, ssa.lines().as_slice(), fact.hyps.as_slice());
    Ok(limits)
}

/// Goes through a line.
fn pass_line(bounds: &mut [Interval], limits: &[Interval], line: &Line)
    requires { conditions.CanPassLine bounds.old line.now }
    ensures { bounds.new ≡ bounds_words.bounds_past (met_with limits.now) (Some line.now) bounds.old }
{
    match line {
        Line::Step(instr) => step(bounds, limits, instr),
        _ => (),
    }
}

/// Goes through the line of place `k`.
fn pass(bounds: &mut [Interval], limits: &[Interval], lines: &[Line], k: u32)
    requires { (l : declared.Line) → slice_get lines.now k ≡ Some l → conditions.CanPassLine bounds.old l }
    ensures { bounds.new ≡ bounds_words.pass_line (met_with limits.now) lines.now bounds.old k }
{
    if let Some(line) = lines.get(k as usize) {
        pass_line(bounds, limits, line);
    }
}

/// Goes through the used instructions.
fn pass_all(bounds: &mut [Interval], limits: &[Interval], ssa: &Ssa, uses: &[u32])
    requires bounds { conditions.AreWithin ssa.now.variables bounds.old }
    requires limits { conditions.AreWithin ssa.now.variables limits.now }
    ensures bounds { bounds.new ≡ fold (bounds_words.pass_line (met_with limits.now) ssa.now.lines) bounds.old uses.now }
    ensures within { conditions.AreWithin ssa.now.variables bounds.new }
{
    let lines = ssa.lines().as_slice();
    for k in 0..uses.len() {
        pass(bounds, limits, lines, uses[k]);
    }
}

/// The interval of each variable, by the types, the hypotheses and the used instructions of the fact. Each lies within the
/// type of its variable. The only error is that memory has run out.
pub fn bounds(alloc: Global, ssa: &Ssa, fact: &Fact) -> Result<Bounds, AllocError>
    ensures bounds { IfOk result (λ bounds. bounds ≡ bounds_words.bounds_of ssa.now fact.now) }
    ensures within { IfOk result (λ bounds. conditions.AreWithin ssa.now.variables bounds) }
{
    let limits = limits(alloc, ssa, fact)?;
    let mut bounds = limits.clone()?;
    passed(&mut bounds, &limits, ssa, fact);
    Ok(Bounds::from_vec(bounds))
}

/// Turns what the hypotheses leave of the types into the intervals of the fact.
fn passed(bounds: &mut [Interval], limits: &[Interval], ssa: &Ssa, fact: &Fact)
    requires limits { limits.now ≡ bounds_words.narrowed_all ssa.now fact.now (bounds_words.wholes ssa.now.variables) }
    requires bounds { bounds.old ≡ bounds_words.narrowed_all ssa.now fact.now (bounds_words.wholes ssa.now.variables) }
    ensures bounds { bounds.new ≡ bounds_words.bounds_of ssa.now fact.now }
    ensures within { conditions.AreWithin ssa.now.variables bounds.new }
{
    let _form = ssa.lines();
    pass_all(bounds, limits, ssa, fact.uses.as_slice());
}
