//! Runs that deny candidates: the clauses of such a candidate are met, so they need no search.

ghost use Rattle.std.specs.Prelude.{◌≡◌, ◌≤◌, ◌<◌, ◌/◌, ◌%◌, ◌^◌, ◌==◌, All, [], true, slice_get, IfOk, OnOk};
ghost use Rattle.std.specs.List.{list_all, list_any};
ghost use Rattle.tcl_lang.specs.Form.{IsWellFormed};
ghost use Rattle.tcl_lang.specs.Store.{pattern_of};
ghost use Rattle.tcl_lang.specs.Types.{IsTy};
ghost use Rattle.tcl_lang.specs.Values.{AreValues, truth_of, words_of};
ghost use Rattle.tcl_exec.specs.Given as given;
ghost use Rattle.tcl_goals.specs.Assignments.{Assigns, hyp_of};
ghost use Rattle.tcl_goals.specs.Holds as holds;
ghost use Rattle.tcl_goals.specs.Order.{InOrder};
ghost use Rattle.tcl_blast.specs.Clauses.{clauses_of};
ghost use Rattle.tcl_blast.specs.Laws.{AreMet};
ghost use Rattle.tcl_worker.specs.Candidates.{candidate_fact};
ghost use Rattle.tcl_worker.specs.Denials as words;

use std::alloc::{AllocError, Global};
use tcl_blast::laws::denials_meet_clauses;
use tcl_exec::{holds, run, trial};
use tcl_goals::{BitLit, Fact, Hyp};
use tcl_lang::{Ssa, Trace, Truth, Ty, Variable};
use tcl_list::Listing;
use tcl_num::power_of_two;

/// From how many of the trial inputs there are runs.
const RUNS: u32 = 16;

/// The values at the ends of the runs from trial inputs, of those in which all hypotheses of a fact are computed as true. The
/// only error is that memory has run out.
pub(crate) fn meeting_runs(
    alloc: Global,
    ssa: &Ssa,
    fact: &Fact,
) -> Result<Listing<Trace>, AllocError>
    requires { IsWellFormed ssa.now }
    ensures { IfOk result (λ runs. All (words.MeetsHyps ssa.now fact.now) runs) }
{
    let mut runs = Listing::new(alloc);
    for k in 0..RUNS {
        add_run(alloc, &mut runs, ssa, fact, k)?;
    }
    Ok(runs)
}

/// Adds those of the run from a trial input, if all hypotheses are computed as true in it.
fn add_run(
    alloc: Global,
    runs: &mut Listing<Trace>,
    ssa: &Ssa,
    fact: &Fact,
    number: u32,
) -> Result<(), AllocError>
    requires formed { IsWellFormed ssa.now }
    requires trial { number < 256 }
    requires met { All (words.MeetsHyps ssa.now fact.now) runs.old }
    ensures { OnOk result (All (words.MeetsHyps ssa.now fact.now) runs.new) }
{
    let input = trial(alloc, number, ssa)?;
    let values = run(alloc, ssa, &input)?;
    add_if_met(runs, ssa, fact, values)
}

/// Adds the values at the end of a run, if all hypotheses are computed as true in it.
fn add_if_met(
    runs: &mut Listing<Trace>,
    ssa: &Ssa,
    fact: &Fact,
    values: Trace,
) -> Result<(), AllocError>
    requires assigns { Assigns ssa.now fact.now values }
    requires met { All (words.MeetsHyps ssa.now fact.now) runs.old }
    ensures { OnOk result (All (words.MeetsHyps ssa.now fact.now) runs.new) }
{
    if meets(ssa, fact, &values) {
        runs.push(values)
    } else {
        Ok(())
    }
}

/// Whether all hypotheses of a fact are computed as true at the end of a run.
fn meets(ssa: &Ssa, fact: &Fact, values: &Trace) -> bool
    requires { AreValues ssa.now.variables values.now }
    ensures { result ≡ true → list_all (hyp_of ssa.now [] values.now) fact.now.hyps ≡ true }
{
    are_met(ssa, fact.hyps.as_slice(), values.as_slice())
}

/// Whether all of these hypotheses are; a lemma is not looked up.
fn are_met(ssa: &Ssa, hyps: &[Hyp], values: &[i128]) -> bool
    requires { AreValues ssa.now.variables values.now }
    ensures { result ≡ true → list_all (hyp_of ssa.now [] values.now) hyps.now ≡ true }
{
    for k in 0..hyps.len() {
        if !is_met(ssa, hyps[k], values) {
            return false;
        }
    }
    true
}

/// Whether a hypothesis is computed as true.
fn is_met(ssa: &Ssa, hyp: Hyp, values: &[i128]) -> bool
    requires { AreValues ssa.now.variables values.now }
    ensures { result ≡ true → hyp_of ssa.now [] values.now hyp ≡ true }
{
    match hyp {
        Hyp::Line(place) => is_true(ssa, place, values),
        Hyp::Lemma(_) => false,
    }
}

/// Whether the line at a place is computed as true.
fn is_true(ssa: &Ssa, place: u32, values: &[i128]) -> bool
    requires { AreValues ssa.now.variables values.now }
    ensures { result ≡ true → truth_of ssa.now values.now place ≡ true }
{
    match holds(ssa, values, place) {
        Truth::Yes => true,
        _ => false,
    }
}

/// Whether one of these runs denies a candidate of a fact, whose clauses are met then.
pub(crate) fn is_denied(ssa: &Ssa, _fact: &Fact, runs: &[Trace], bit: BitLit) -> bool
    requires formed { IsWellFormed ssa.now }
    requires order { InOrder ssa.now [] (candidate_fact _fact.now bit) }
    requires met { All (words.MeetsHyps ssa.now _fact.now) runs.now }
    ensures { result ≡ true → AreMet (clauses_of ssa.now [] (candidate_fact _fact.now bit)) }
{
    denials_meet_clauses();
    have_denial(ssa, runs, bit)
}

/// Whether a bit has another value than stated at the end of one of these runs.
fn have_denial(ssa: &Ssa, runs: &[Trace], bit: BitLit) -> bool
    ensures { result ≡ list_any (words.denies ssa.now.variables bit) runs.now }
{
    let variables = ssa.variables().as_slice();
    runs.iter()
        .any(|values| !has_value(variables, bit, values.as_slice()))
}

/// Whether a bit has its stated value.
#[tactic(auto, using(tcl_exec::proofs::WordsOfValues::word_is))]
fn has_value(variables: &[Variable], bit: BitLit, values: &[i128]) -> bool
    requires { All (λ x. IsTy x.ty) variables.now }
    ensures { result ≡ holds.bit_holds (words_of variables.now values.now) bit }
{
    let is_set = bit_given(variables, values, bit.var, bit.bit);
    if bit.value { is_set } else { !is_set }
}

/// Whether a bit of a variable is 1; a bit that is not there is 0.
#[tactic(auto, using(tcl_enum::proofs::WordBits::no_bit))]
fn bit_given(variables: &[Variable], values: &[i128], variable: u32, bit: u32) -> bool
    requires { All (λ x. IsTy x.ty) variables.now }
    ensures { result ≡ holds.bit_of (given.word_given (slice_get variables.now variable) (slice_get values.now variable)) bit }
{
    match variables.get(variable as usize) {
        Some(found) => bit_with(found.ty, values, variable, bit),
        None => false,
    }
}

/// The same of a variable of this type.
#[tactic(auto, using(tcl_enum::proofs::WordBits::no_bit))]
fn bit_with(ty: Ty, values: &[i128], variable: u32, bit: u32) -> bool
    requires { IsTy ty }
    ensures { result ≡ holds.bit_of (given.word_with ty (slice_get values.now variable)) bit }
{
    match values.get(variable as usize) {
        Some(value) => bit_in(ty.width, *value, bit),
        None => false,
    }
}

/// The same of a value of this width.
#[tactic(auto, using(tcl_enum::proofs::WordBits::high_bit))]
fn bit_in(width: u32, value: i128, bit: u32) -> bool
    requires { width ≤ 64 }
    ensures { result ≡ (pattern_of width value / 2 ^ bit % 2 == 1) }
{
    let bits = pattern(value, width);
    if bit < width {
        is_set(bits, bit)
    } else {
        false
    }
}

/// Whether bit `k` of a number is 1.
fn is_set(n: u128, k: u32) -> bool
    requires { k < 64 }
    ensures { result ≡ (n / 2 ^ k % 2 == 1) }
{
    (n >> k) % 2 == 1
}

/// The two's-complement pattern of `n` at `width` bits.
fn pattern(n: i128, width: u32) -> u128
    requires { width ≤ 64 }
    ensures value { result ≡ pattern_of width n }
    ensures below { result < 2 ^ width }
{
    n.rem_euclid(power_of_two(width)).unsigned_abs()
}
