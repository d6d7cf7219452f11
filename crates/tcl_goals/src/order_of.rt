//! The key of a hypothesis.

ghost use Rattle.std.specs.Prelude.{◌≡◌, ◌<◌, ◌^◌, ◌-◌, true, length, option_copied};
ghost use Rattle.tcl_goals.specs.Keys as keys;
ghost use Rattle.tcl_goals.specs.LemmaList as lists;
ghost use Rattle.tcl_goals.specs.Order as orders;

use crate::fact::{Hyp, Key};
use crate::goals_of::goal_place;
use crate::lemma::{Lemma, Lemmas, Numbered};
use tcl_lang::{Line, Ssa};

/// The lemma of a number.
#[tactic(auto, unfolding(crate::specs::LemmaList::lemma_of))]
pub(crate) fn lemma_of(lemmas: &[Numbered], number: u32) -> Option<&Lemma>
    ensures { option_copied result ≡ lists.lemma_of lemmas.now number }
{
    for k in 0..lemmas.len() {
        if lemmas[k].number == number {
            return Some(&lemmas[k].lemma);
        }
    }
    None
}

/// The key of a hypothesis: a line by its place, a lemma just before the goal of its level.
pub fn order(ssa: &Ssa, hyp: &Hyp, lemmas: &Lemmas) -> Key
    requires { orders.has_hyp ssa.now.lines lemmas.now.items hyp.now ≡ true }
    ensures { result ≡ keys.hyp_key ssa.now.lines lemmas.now.items hyp.now }
{
    key_in(ssa.lines().as_slice(), hyp, lemmas.items().as_slice())
}

/// The key of a hypothesis over lines; a lemma that is not there counts as of level 0.
#[tactic(auto, using(crate::proofs::GoalPlaces::goal_place_bound))]
pub(crate) fn key_in(lines: &[Line], hyp: &Hyp, lemmas: &[Numbered]) -> Key
    requires { length lines.now < 2 ^ 32 - 1 }
    ensures { result ≡ keys.hyp_key lines.now lemmas.now hyp.now }
{
    match hyp {
        Hyp::Line(place) => Key {
            place: *place,
            kind: 1,
            number: 0,
        },
        Hyp::Lemma(number) => {
            let level = match lemma_of(lemmas, *number) {
                Some(lemma) => lemma.level,
                None => 0,
            };
            Key {
                place: goal_place(lines, level) as u32,
                kind: 0,
                number: *number,
            }
        }
    }
}
