//! Whether values deny a fact: its hypotheses and its cube hold, and its claim does not.

ghost use Rattle.std.specs.Prelude.{◌≡◌, ◌<◌, ◌≤◌, ◌/◌, ◌%◌, ◌^◌, ◌==◌, All, true, option_copied, slice_get};
ghost use Rattle.std.specs.List.{list_all};
ghost use Rattle.tcl_lang.specs.Types.{IsTy};
ghost use Rattle.tcl_lang.specs.Store.{pattern_of};
ghost use Rattle.tcl_lang.specs.Values.{AreValues, truth_of, types_of, words_of};
ghost use Rattle.tcl_exec.specs.Given as given;
ghost use Rattle.tcl_goals.specs.LemmaList.{lemma_of};
ghost use Rattle.tcl_goals.specs.Holds as holds;
ghost use Rattle.tcl_goals.specs.Assignments as assignments;
ghost use Rattle.tcl_enum.specs.NarrowFact as narrow;
ghost use Rattle.tcl_enum.specs.Enumeration as enumeration;

use tcl_exec::holds;
use tcl_goals::{BitLit, Claim, Fact, Hyp, Lemma, Numbered, goal_place};
use tcl_lang::{Ssa, Truth, Ty, Variable};
use tcl_num::power_of_two;

/// Whether the hypotheses and the cube hold at these values, and the claim does not.
pub(crate) fn is_denied(ssa: &Ssa, fact: &Fact, lemmas: &[Numbered], values: &[i128]) -> bool
    requires values { AreValues ssa.now.variables values.now }
    requires narrow { narrow.is_narrow_fact ssa.now fact.now ≡ true }
    ensures { result ≡ enumeration.is_denied ssa.now lemmas.now fact.now values.now }
{
    are_met(ssa, fact.hyps.as_slice(), lemmas, values)
        && is_cube_met(ssa.variables().as_slice(), fact.cube.as_slice(), values)
        && !is_claim_met(ssa, &fact.claim, values)
}

/// Whether all hypotheses hold.
fn are_met(ssa: &Ssa, hyps: &[Hyp], lemmas: &[Numbered], values: &[i128]) -> bool
    requires values { AreValues ssa.now.variables values.now }
    requires narrow { list_all (narrow.is_narrow_hyp ssa.now) hyps.now ≡ true }
    ensures { result ≡ list_all (assignments.hyp_of ssa.now lemmas.now values.now) hyps.now }
{
    for k in 0..hyps.len() {
        if !is_met(ssa, &hyps[k], lemmas, values) {
            return false;
        }
    }
    true
}

/// Whether a hypothesis holds.
fn is_met(ssa: &Ssa, hyp: &Hyp, lemmas: &[Numbered], values: &[i128]) -> bool
    requires values { AreValues ssa.now.variables values.now }
    requires narrow { narrow.is_narrow_hyp ssa.now hyp.now ≡ true }
    ensures { result ≡ assignments.hyp_of ssa.now lemmas.now values.now hyp.now }
{
    match hyp {
        Hyp::Line(place) => is_true(ssa, *place, values),
        Hyp::Lemma(number) => { is_lemma_met(ssa.variables().as_slice(), lemmas, *number, values) }
    }
}

/// Whether the claim holds.
#[tactic(auto, using(tcl_goals::proofs::GoalPlaces::goal_place_bound))]
fn is_claim_met(ssa: &Ssa, claim: &Claim, values: &[i128]) -> bool
    requires values { AreValues ssa.now.variables values.now }
    requires narrow { narrow.is_narrow_claim ssa.now claim.now ≡ true }
    ensures { result ≡ assignments.claim_of ssa.now values.now claim.now }
{
    match claim {
        Claim::Goal(goal) => {
            is_true(
                ssa,
                goal_place(ssa.lines().as_slice(), *goal) as u32,
                values,
            )
        }
        Claim::Lemma(lemma) => {
            is_clause_met(ssa.variables().as_slice(), lemma.clause.as_slice(), values)
        }
    }
}

/// Whether the line at a place is true.
fn is_true(ssa: &Ssa, place: u32, values: &[i128]) -> bool
    requires values { AreValues ssa.now.variables values.now }
    requires narrow { narrow.is_narrow_in (types_of ssa.now.variables) (slice_get ssa.now.lines place) ≡ true }
    ensures { result ≡ truth_of ssa.now values.now place }
{
    match holds(ssa, values, place) {
        Truth::Yes => true,
        Truth::No => false,
        Truth::Wide => false,
    }
}

/// Whether all bits of a cube have their values.
fn is_cube_met(variables: &[Variable], cube: &[BitLit], values: &[i128]) -> bool
    requires { All (λ x. IsTy x.ty) variables.now }
    ensures { result ≡ holds.cube_holds (words_of variables.now values.now) cube.now }
{
    cube.iter().all(|bit| has_value(variables, bit, values))
}

/// Whether one of the bits of a clause has its value.
fn is_clause_met(variables: &[Variable], clause: &[BitLit], values: &[i128]) -> bool
    requires { All (λ x. IsTy x.ty) variables.now }
    ensures { result ≡ holds.clause_holds (words_of variables.now values.now) clause.now }
{
    clause.iter().any(|bit| has_value(variables, bit, values))
}

/// Whether the lemma of a number holds; one that is not there says nothing.
fn is_lemma_met(variables: &[Variable], lemmas: &[Numbered], number: u32, values: &[i128]) -> bool
    requires { All (λ x. IsTy x.ty) variables.now }
    ensures { result ≡ holds.lemma_holds (words_of variables.now values.now) (lemma_of lemmas.now number) }
{
    match lemma_of(lemmas, number) {
        Some(lemma) => is_clause_met(variables, lemma.clause.as_slice(), values),
        None => true,
    }
}

/// The lemma of a number.
#[tactic(auto, unfolding(tcl_goals::specs::LemmaList::lemma_of))]
fn lemma_of(lemmas: &[Numbered], number: u32) -> Option<&Lemma>
    ensures { option_copied result ≡ lemma_of lemmas.now number }
{
    for k in 0..lemmas.len() {
        if lemmas[k].number == number {
            return Some(&lemmas[k].lemma);
        }
    }
    None
}

/// Whether a bit has its stated value.
#[tactic(auto, using(tcl_exec::proofs::WordsOfValues::word_is))]
fn has_value(variables: &[Variable], bit: &BitLit, values: &[i128]) -> bool
    requires { All (λ x. IsTy x.ty) variables.now }
    ensures { result ≡ holds.bit_holds (words_of variables.now values.now) bit.now }
{
    let is_set = bit_given(variables, values, bit.var, bit.bit);
    if bit.value { is_set } else { !is_set }
}

/// Whether a bit of a variable is 1; a bit that is not there is 0.
#[tactic(auto, using(crate::proofs::WordBits::no_bit))]
fn bit_given(variables: &[Variable], values: &[i128], variable: u32, bit: u32) -> bool
    requires { All (λ x. IsTy x.ty) variables.now }
    ensures { result ≡ holds.bit_of (given.word_given (slice_get variables.now variable) (slice_get values.now variable)) bit }
{
    match variables.get(variable as usize) {
        Some(found) => bit_with(found.ty, values, variable, bit),
        None => false,
    }
}

/// The same of a variable of this type.
#[tactic(auto, using(crate::proofs::WordBits::no_bit))]
fn bit_with(ty: Ty, values: &[i128], variable: u32, bit: u32) -> bool
    requires { IsTy ty }
    ensures { result ≡ holds.bit_of (given.word_with ty (slice_get values.now variable)) bit }
{
    match values.get(variable as usize) {
        Some(value) => bit_in(ty.width, *value, bit),
        None => false,
    }
}

/// The same of a value of this width.
#[tactic(auto, using(crate::proofs::WordBits::high_bit))]
fn bit_in(width: u32, value: i128, bit: u32) -> bool
    requires { width ≤ 64 }
    ensures { result ≡ (pattern_of width value / 2 ^ bit % 2 == 1) }
{
    let bits = pattern(value, width);
    if bit < width {
        is_set(bits, bit)
    } else {
        false
    }
}

/// Whether bit `k` of a number is 1.
fn is_set(n: u128, k: u32) -> bool
    requires { k < 64 }
    ensures { result ≡ (n / 2 ^ k % 2 == 1) }
{
    (n >> k) % 2 == 1
}

/// The two's-complement pattern of `n` at `width` bits.
fn pattern(n: i128, width: u32) -> u128
    requires { width ≤ 64 }
    ensures value { result ≡ pattern_of width n }
    ensures below { result < 2 ^ width }
{
    n.rem_euclid(power_of_two(width)).unsigned_abs()
}
