//! The used instructions of a fact.

ghost use Rattle.std.specs.Prelude.{◌≡◌, slice_get, option_copied};
ghost use Rattle.tcl_bounds.specs.Narrowing as narrowing;
ghost use Rattle.tcl_bounds.specs.Bounds as bounds_words;
ghost use Rattle.tcl_bounds.specs.Conditions.{CanStep};
ghost use Rattle.tcl_bounds.specs.Conditions as conditions;
ghost use Rattle.tcl_bounds.specs.RowList.{listed};
ghost use Rattle.tcl_bounds.specs.Intervals as intervals;
ghost use Rattle.tcl_bounds.specs.Limits as limits_words;
ghost use Rattle.tcl_bounds.specs.Limits.{met_with};

use crate::ends::{is_empty, meet};
use crate::interval::{Interval, Rows};
use crate::rows::rows;
use tcl_lang::{Atom, Instr, Op};

/// The interval of one integer.
fn point(n: i128) -> Interval
    ensures { result ≡ intervals.point n }
{
    Interval {
        least: n,
        greatest: n,
    }
}

/// The interval of a variable; that of 0 where there is no such variable.
fn interval_at(bounds: &[Interval], v: u32) -> Interval
    ensures { result ≡ narrowing.interval_at bounds.now v }
{
    match bounds.get(v as usize) {
        Some(interval) => *interval,
        None => point(0),
    }
}

/// The interval of an operand.
pub(crate) fn interval_of(bounds: &[Interval], atom: Atom) -> Interval
    ensures { result ≡ narrowing.interval_of bounds.now atom }
{
    match atom {
        Atom::Var(v) => interval_at(bounds, v),
        Atom::Lit(_, n) => point(n),
    }
}

/// The interval of operand `k`.
pub(crate) fn operand_interval(bounds: &[Interval], args: &[Atom], k: usize) -> Interval
    ensures { result ≡ bounds_words.operand_interval bounds.now args.now k }
{
    match args.get(k) {
        Some(atom) => interval_of(bounds, *atom),
        None => point(0),
    }
}

/// Gives a result its row, met with the limit of its variable.
#[tactic(auto, using(crate::proofs::Outs::set_beyond))]
fn set_row(bounds: &mut [Interval], limits: &[Interval], v: u32, row: Option<Interval>)
    ensures { bounds.new ≡ bounds_words.set_row (met_with limits.now) bounds.old v row }
{
    if let Some(interval) = row {
        if (v as usize) < bounds.len() {
            bounds[v as usize] = meet(interval, interval_at(limits, v));
        }
    }
}

/// The same for the result that is there.
fn set_at(
    bounds: &mut [Interval],
    limits: &[Interval],
    outs: &[u32],
    k: usize,
    row: Option<Interval>,
)
    ensures { bounds.new ≡ limits_words.set_at (met_with limits.now) bounds.old (slice_get outs.now k) row }
{
    if let Some(v) = outs.get(k) {
        set_row(bounds, limits, *v, row);
    }
}

/// Gives the results of an instruction their rows.
#[tactic(auto, using(crate::proofs::Outs::set_none, crate::proofs::Outs::set_one, crate::proofs::Outs::set_two))]
fn set_rows(bounds: &mut [Interval], limits: &[Interval], outs: &[u32], rows: Rows)
    ensures { bounds.new ≡ bounds_words.set_rows (met_with limits.now) bounds.old outs.now (listed rows) }
{
    match rows {
        Rows::Nothing => (),
        Rows::One(first) => set_at(bounds, limits, outs, 0, first),
        Rows::Two(first, second) => {
            set_at(bounds, limits, outs, 0, first);
            set_at(bounds, limits, outs, 1, second);
        }
    }
}

/// Whether the instruction takes its result from the input.
fn is_nondet(op: Op) -> bool
    ensures { result ≡ conditions.is_nondet op }
{
    match op {
        Op::Nondet => true,
        _ => false,
    }
}

/// Goes through an instruction: its results get their rows.
#[tactic(auto, using(crate::proofs::Outs::set_none, crate::proofs::Outs::nondet_rows))]
pub(crate) fn step(bounds: &mut [Interval], limits: &[Interval], instr: &Instr)
    requires { CanStep bounds.old instr.now }
    ensures { bounds.new ≡ bounds_words.bounds_after (met_with limits.now) bounds.old instr.now }
{
    if is_nondet(instr.op) {
        return;
    }
    let args = instr.args.as_slice();
    let a = operand_interval(bounds, args, 0);
    let b = operand_interval(bounds, args, 1);
    let c = operand_interval(bounds, args, 2);
    if is_empty(a) || is_empty(b) || is_empty(c) {
        return;
    }
    let rows = rows(instr.op, instr.ty, instr.amount, a, b, c);
    set_rows(bounds, limits, instr.outs.as_slice(), rows);
}
