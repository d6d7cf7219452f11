//! Goals, facts and pieces: their types, their order, and what they say.
#![tactic(auto)]

mod cause;
mod cuts;
mod fact;
mod free;
mod goal;
mod goals_of;
mod in_order;
mod laws;
mod lemma;
mod marks;
mod order_of;
mod piece;
mod remainder;
mod variables;

pub use cause::{Cause, Note};
pub use cuts::{Starts, default_hyps, starts_at};
pub use fact::{Bit, BitLit, Claim, Cube, Fact, Hyp, Hyps, Key, Uses};
pub use free::{free_bits, free_variables};
pub use goal::{Goal, Goals, Kind};
pub use goals_of::{goal_place, goals, is_algebraic_goal};
pub use in_order::{are_ordered, are_uses, claim_place, has_claim, has_goal, has_hyps, is_cube};
pub use laws::{
    facts_give_correctness, longer_lists_keep_facts, pieces_are_in_order, runs_assign,
    slices_are_least, sound_goals_unbroken,
};
pub use lemma::{BitClause, Lemma, Lemmas, Numbered};
pub use order_of::order;
pub use piece::{Piece, Plan, Route, Shown, Verdict};
pub use remainder::{Name, Power, Remainder, Summand};
pub use tcl_port::{At, What};
pub use variables::fact_variables;
