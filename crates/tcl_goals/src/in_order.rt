//! Whether a fact is in order, question by question.

ghost use Rattle.std.specs.Prelude.{◌≡◌, ◌+◌, ◌<◌, ◌≤◌, ◌^◌, ◌-◌, nat_lt, ◌&&◌, Some, None, option_copied, length, drop, slice_get};
ghost use Rattle.std.specs.List.{list_all, list_any};
ghost use Rattle.tcl_lang.specs.Form.{IsWellFormed};
ghost use Rattle.tcl_lang.specs.Limit.{definitions_before};
ghost use Rattle.tcl_goals.specs.Numbers as numbers;
ghost use Rattle.tcl_goals.specs.LemmaList as lists;
ghost use Rattle.tcl_goals.specs.Places as places;
ghost use Rattle.tcl_goals.specs.Keys as keys;
ghost use Rattle.tcl_goals.specs.Order as orders;

use crate::fact::{BitLit, Claim, Cube, Hyp, Hyps, Key, Uses};
use crate::goals_of::goal_place;
use crate::lemma::{Lemmas, Numbered};
use crate::order_of::{key_in, lemma_of};
use tcl_lang::{Line, Ssa, Variable, definitions_before};

/// The key of a claim. Its number may be 2^32.
#[derive(Clone, Copy)]
struct ClaimKey {
    place: u32,
    kind: u32,
    number: u64,
}

/// Whether the goal of the claim exists, and the bits of its clause are of variables that are defined before it.
pub fn has_claim(ssa: &Ssa, claim: &Claim) -> bool
    ensures { result ≡ orders.has_claim ssa.now claim.now }
{
    let lines = ssa.lines().as_slice();
    match claim {
        Claim::Goal(goal) => has_goal(lines, *goal),
        Claim::Lemma(lemma) => {
            has_goal(lines, lemma.level)
                && are_bits_before(ssa, goal_place(lines, lemma.level), lemma.clause.as_slice())
        }
    }
}

/// Whether each hypothesis is a part of the precondition, an assumption, a goal, or one of the lemmas.
pub fn has_hyps(ssa: &Ssa, lemmas: &Lemmas, hyps: &Hyps) -> bool
    ensures { result ≡ orders.has_hyps ssa.now.lines lemmas.now.items hyps.now }
{
    let lines = ssa.lines().as_slice();
    let known = lemmas.items().as_slice();
    hyps.as_slice().iter().all(|hyp| has_hyp(lines, known, hyp))
}

/// Whether the hypotheses increase by their keys, and each is smaller than the claim.
pub fn are_ordered(ssa: &Ssa, lemmas: &Lemmas, claim: &Claim, hyps: &Hyps) -> bool
    ensures { result ≡ orders.are_ordered ssa.now.lines lemmas.now.items claim.now hyps.now }
{
    let lines = ssa.lines().as_slice();
    let known = lemmas.items().as_slice();
    let end = claim_key(lines, known, claim);
    hyps_rise(lines, known, hyps.as_slice()) && hyps_below(lines, known, end, hyps.as_slice())
}

/// Whether the uses increase, and each is an instruction before the claim.
pub fn are_uses(ssa: &Ssa, claim: &Claim, uses: &Uses) -> bool
    ensures { result ≡ orders.are_uses ssa.now.lines (keys.claim_place ssa.now.lines claim.now) uses.now }
{
    let lines = ssa.lines().as_slice();
    let place = claim_place(lines, claim);
    numbers_rise(uses.as_slice()) && are_steps_before(lines, place, uses.as_slice())
}

/// Whether no bit stands twice in the cube, and each is of a variable that is defined before the claim.
pub fn is_cube(ssa: &Ssa, claim: &Claim, cube: &Cube) -> bool
    ensures { result ≡ orders.is_cube ssa.now (keys.claim_place ssa.now.lines claim.now) cube.now }
{
    let place = claim_place(ssa.lines().as_slice(), claim);
    bits_differ(cube.as_slice()) && are_bits_before(ssa, place, cube.as_slice())
}

/// Whether the goal exists.
#[tactic(auto, using(crate::proofs::GoalPlaces::place_tells))]
pub fn has_goal(lines: &[Line], goal: u32) -> bool
    ensures { result ≡ places.has_goal lines.now goal }
{
    goal_place(lines, goal) < lines.len()
}

/// The place of a claim: that of its goal, or of the goal of its level.
#[tactic(auto, using(crate::proofs::GoalPlaces::goal_place_bound))]
pub fn claim_place(lines: &[Line], claim: &Claim) -> usize
    ensures place { result ≡ keys.claim_place lines.now claim.now }
    ensures within { result ≤ length lines.now }
{
    match claim {
        Claim::Goal(goal) => goal_place(lines, *goal),
        Claim::Lemma(lemma) => goal_place(lines, lemma.level),
    }
}

/// Whether the bits are of variables that are defined before the place.
#[tactic(auto, using(crate::proofs::FirstBits::first_bits))]
fn are_bits_before(ssa: &Ssa, place: usize, bits: &[BitLit]) -> bool
    requires { place ≤ length ssa.now.lines }
    ensures { result ≡ list_all (orders.is_bit_before ssa.now place) bits.now }
{
    let count = definitions_before(ssa.lines().as_slice(), place);
    are_first_bits(ssa.variables().as_slice(), count, bits)
}

/// Whether the bits are of the first `count` variables.
fn are_first_bits(variables: &[Variable], count: u32, bits: &[BitLit]) -> bool
    ensures { result ≡ list_all (orders.is_first_bit variables.now count) bits.now }
{
    bits.iter().all(|bit| is_first_bit(variables, count, bit))
}

/// Whether the bit is of one of the first `count` variables.
fn is_first_bit(variables: &[Variable], count: u32, bit: &BitLit) -> bool
    ensures { result ≡ orders.is_first_bit variables.now count bit.now }
{
    bit.var < count && has_bit(variables.get(bit.var as usize), bit.bit)
}

/// Whether there is a variable, and it has a bit of this number.
fn has_bit(variable: Option<&Variable>, bit: u32) -> bool
    ensures { result ≡ orders.has_bit (option_copied variable.entry) bit }
{
    match variable {
        Some(variable) => bit < variable.ty.width,
        None => false,
    }
}

/// Whether the hypothesis is a line that a fact may rest on, or one of the lemmas.
fn has_hyp(lines: &[Line], lemmas: &[Numbered], hyp: &Hyp) -> bool
    ensures { result ≡ orders.has_hyp lines.now lemmas.now hyp.now }
{
    match hyp {
        Hyp::Line(place) => match lines.get(*place as usize) {
            Some(line) => line.is_hypothesis(),
            None => false,
        },
        Hyp::Lemma(number) => lemma_of(lemmas, *number).is_some(),
    }
}

/// Whether there is an instruction at place `k`, and the place is before another.
fn is_step_before(lines: &[Line], place: usize, k: u32) -> bool
    ensures { result ≡ orders.is_step_before lines.now place k }
{
    match lines.get(k as usize) {
        Some(line) => line.instruction().is_some() && (k as usize) < place,
        None => false,
    }
}

/// Whether there is an instruction at each of these places, and each is before the place.
fn are_steps_before(lines: &[Line], place: usize, uses: &[u32]) -> bool
    ensures { result ≡ list_all (orders.is_step_before lines.now place) uses.now }
{
    uses.iter().all(|k| is_step_before(lines, place, *k))
}

/// Whether the number is greater than the one before it, if there is one.
fn is_above(last: Option<u32>, number: u32) -> bool
    ensures { result ≡ numbers.is_above last number }
{
    match last {
        Some(last) => last < number,
        None => true,
    }
}

/// Whether each number is greater than the one before it.
fn numbers_rise(items: &[u32]) -> bool
    ensures { result ≡ numbers.numbers_rise items.now }
{
    let mut last = None;
    for k in 0..items.len() {
        if !is_above(last, items[k]) {
            return false;
        }
        last = Some(items[k]);
    }
    true
}

/// Whether the one key is smaller than the other, from left to right.
fn key_less(a: Key, b: Key) -> bool
    ensures { result ≡ keys.key_less a b }
{
    a.place < b.place
        || a.place == b.place && (a.kind < b.kind || a.kind == b.kind && a.number < b.number)
}

/// Whether the key is greater than the one before it, if there is one.
fn is_key_above(last: Option<Key>, key: Key) -> bool
    ensures { result ≡ keys.is_key_above last key }
{
    match last {
        Some(last) => key_less(last, key),
        None => true,
    }
}

/// Whether the hypotheses increase by their keys.
fn hyps_rise(lines: &[Line], lemmas: &[Numbered], hyps: &[Hyp]) -> bool
    requires { length lines.now < 2 ^ 32 - 1 }
    ensures { result ≡ keys.hyps_rise lines.now lemmas.now hyps.now }
{
    let mut last = None;
    for k in 0..hyps.len() {
        let key = key_in(lines, &hyps[k], lemmas);
        if !is_key_above(last, key) {
            return false;
        }
        last = Some(key);
    }
    true
}

/// A number above those of all these lemmas.
#[tactic(auto, unfolding(crate::specs::LemmaList::next_number))]
fn next_number(lemmas: &[Numbered]) -> u64
    ensures next { result ≡ lists.next_number lemmas.now }
    ensures small { result ≤ 2 ^ 32 }
{
    let mut next = 0;
    let mut k = lemmas.len();
    while k > 0 {
        k -= 1;
        next = (lemmas[k].number as u64 + 1).max(next);
    }
    next
}

/// The key of a claim; a lemma without a number stands above all lemmas.
#[tactic(auto, using(crate::proofs::GoalPlaces::goal_place_bound))]
fn claim_key(lines: &[Line], lemmas: &[Numbered], claim: &Claim) -> ClaimKey
    requires { length lines.now < 2 ^ 32 - 1 }
    ensures { record { place = result.place; kind = result.kind; number = result.number } ≡ keys.claim_key lines.now lemmas.now claim.now }
{
    match claim {
        Claim::Goal(goal) => ClaimKey {
            place: goal_place(lines, *goal) as u32,
            kind: 1,
            number: 0,
        },
        Claim::Lemma(lemma) => ClaimKey {
            place: goal_place(lines, lemma.level) as u32,
            kind: 0,
            number: next_number(lemmas),
        },
    }
}

/// Whether the key is smaller than that of the claim.
fn is_below(key: Key, end: ClaimKey) -> bool
    ensures { result ≡ keys.key_less key (record { place = end.place; kind = end.kind; number = end.number }) }
{
    key.place < end.place
        || key.place == end.place
            && (key.kind < end.kind || key.kind == end.kind && (key.number as u64) < end.number)
}

/// Whether each hypothesis is smaller than the claim.
fn hyps_below(lines: &[Line], lemmas: &[Numbered], end: ClaimKey, hyps: &[Hyp]) -> bool
    requires { length lines.now < 2 ^ 32 - 1 }
    ensures { result ≡ list_all (λ h. keys.key_less (keys.hyp_key lines.now lemmas.now h) (record { place = end.place; kind = end.kind; number = end.number })) hyps.now }
{
    hyps.iter()
        .all(|hyp| is_below(key_in(lines, hyp, lemmas), end))
}

/// Whether this is the same bit of the same variable.
fn same_bit(a: &BitLit, b: &BitLit) -> bool
    ensures { result ≡ orders.same_bit a.now b.now }
{
    a.var == b.var && a.bit == b.bit
}

/// Whether the bit stands among these from `from` on.
fn stands_from(bits: &[BitLit], from: usize, bit: &BitLit) -> bool
    requires { from ≤ length bits.now }
    ensures { result ≡ list_any (orders.same_bit bit.now) (drop from bits.now) }
{
    for k in from..bits.len() {
        if same_bit(bit, &bits[k]) {
            return true;
        }
    }
    false
}

/// Whether no bit stands twice.
fn bits_differ(bits: &[BitLit]) -> bool
    ensures { result ≡ orders.bits_differ bits.now }
{
    for k in 0..bits.len() {
        if stands_from(bits, k + 1, &bits[k]) {
            return false;
        }
    }
    true
}
