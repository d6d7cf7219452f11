//! The board.

ghost use Rattle.std.specs.Prelude.{◌≡◌, ◌<◌, ◌^◌, ◌&&◌, nat_lt, false, None, IfOk};
ghost use Rattle.tcl_lang.specs.Goal.{goal_count};
ghost use Rattle.tcl_board.specs.State as states;
ghost use Rattle.tcl_board.specs.FactLaws.{FactLaws};
ghost use Rattle.tcl_board.specs.Kept.{IsBoard, IsPlan, ArePieces};
ghost use Rattle.tcl_board.specs.Answers as answers;
ghost use Rattle.tcl_board.specs.declared.event.Status.TheVariants as status;

mod admitting;
mod asking;
mod claiming;
mod finishing;
mod submitting;

use crate::event::{Event, LemmaMark, Status};
use crate::evidence::{Evidence, Outcome};
use crate::judging::count_goals;
use crate::reserve::Reserve;
use crate::span::{Span, spans_of};
use std::alloc::{AllocError, Global};
use std::marker::Model;
use tcl_goals::{
    Plan, facts_give_correctness, longer_lists_keep_facts, pieces_are_in_order,
    sound_goals_unbroken,
};
use tcl_lang::{Line, Ssa};
use tcl_list::Listing;

/// The board of a program: what every worker did, one event at a time. Nothing after `begin` takes memory but what hands out
/// copies.
#[derive(Drop)]
pub struct Board<E: Evidence> {
    ssa: Ssa,
    plan: Plan,
    budget: u32,
    events: Reserve<Event>,
    pieces: Plan,
    statuses: Listing<Status>,
    admitted: Listing<bool>,
    breaks: Listing<Option<u32>>,
    lemmas: Reserve<LemmaMark>,
    kept: Reserve<Outcome<E>>,
    spans: Listing<Span>,
    next: usize,
    holders: Listing<Option<u32>>,
}

impl<E: Evidence> Model for Board<E> {
    ghost use Rattle.std.specs.Prelude.{◌≡◌, map, length, All, List, ℕ};
    ghost use Rattle.std.specs.Coded.{codes};
    ghost use Rattle.tcl_lang.specs.contracts.term.Term as term;
    ghost use Rattle.tcl_lang.specs.contracts.range.RngTerm as range_term;
    ghost use Rattle.tcl_lang.specs.contracts.range.RngPred as range_pred;
    ghost use Rattle.tcl_board.specs.State.{BoardState};

    ghost Value = { BoardState };

    ghost coded = { Prim.hlevel (codes, term.the_row.coded, range_term.the_row.coded, range_pred.the_row.coded) };

    ghost use Rattle.tcl_lang.specs.Goal.{goal_count};
    ghost use Rattle.tcl_board.specs.Sight.{seen_of, state_of};
    ghost use Rattle.tcl_board.specs.Rooms.{event_room, kept_room};
    ghost use Rattle.tcl_board.specs.Judging.{OutcomeSpeaks};
    ghost use Rattle.tcl_board.specs.Kept.{IsBoard};
    ghost use Rattle.tcl_board.specs.Index.{IsIndex};

    ghost view = { λ b. state_of b.ssa b.plan b.budget b.events.0 b.pieces b.statuses b.admitted b.breaks b.lemmas.0 (length b.kept.0) (map (seen_of E.shows E.cited) b.kept.0) };

    ghost invariant = { λ b. IsBoard E.causes (state_of b.ssa b.plan b.budget b.events.0 b.pieces b.statuses b.admitted b.breaks b.lemmas.0 (length b.kept.0) (map (seen_of E.shows E.cited) b.kept.0))
        × (b.events.1 ≡ event_room (length b.plan) (goal_count b.ssa.lines))
        × (b.kept.1 ≡ kept_room (length b.plan)) × (b.lemmas.1 ≡ 512)
        × All (OutcomeSpeaks b.ssa E.program E.alone) b.kept.0
        × IsIndex (state_of b.ssa b.plan b.budget b.events.0 b.pieces b.statuses b.admitted b.breaks b.lemmas.0 (length b.kept.0) (map (seen_of E.shows E.cited) b.kept.0)).position b.spans b.next b.holders };
}

/// Whether there are few goals and few pieces.
fn is_small(lines: &[Line], pieces: usize) -> bool
    ensures { result ≡ (nat_lt (goal_count lines.now) (2 ^ 20) && nat_lt pieces (2 ^ 20)) }
{
    count_goals(lines) < 1 << 20 && pieces < 1 << 20
}

fn unclaimed(alloc: Global, len: usize) -> Result<Listing<Status>, AllocError>
    ensures { IfOk result (λ made. made ≡ answers.replicate len status.Unclaimed) }
{
    Ok(Listing::from_vec(vec![in alloc; Status::Unclaimed; len]?))
}

fn unset(alloc: Global, len: usize) -> Result<Listing<bool>, AllocError>
    ensures { IfOk result (λ made. made ≡ answers.replicate len false) }
{
    Ok(Listing::from_vec(vec![in alloc; false; len]?))
}

fn unbroken(alloc: Global, len: usize) -> Result<Listing<Option<u32>>, AllocError>
    ensures { IfOk result (λ made. made ≡ answers.replicate len None) }
{
    Ok(Listing::from_vec(vec![in alloc; None; len]?))
}

/// The laws of facts.
pub(crate) fn fact_laws()
    ensures { FactLaws }
{
    facts_give_correctness();
    longer_lists_keep_facts();
    sound_goals_unbroken();
}

impl<E: Evidence> Board<E> {
    /// A board on which nothing is claimed or settled. It has taken all its memory. A plan of 2^20 pieces or more, which the
    /// numbers of events have no room for, is want of memory.
    pub fn begin(alloc: Global, ssa: Ssa, plan: Plan, budget: u32) -> Result<Self, AllocError>
        requires plan { IsPlan ssa plan }
        requires budget { 0 < budget }
        ensures { IfOk result (λ board. board ≡ states.opening ssa plan budget) }
    {
        pieces_are_in_order();
        if !is_small(ssa.lines().as_slice(), plan.len()) {
            return Err(AllocError);
        }
        Board::opened(alloc, ssa, plan, budget)
    }

    /// The board of these pieces.
    fn opened(alloc: Global, ssa: Ssa, plan: Plan, budget: u32) -> Result<Self, AllocError>
        requires { ArePieces ssa plan }
        ensures { IfOk result (λ board. board ≡ states.opening ssa plan budget) }
    {
        let goals = count_goals(ssa.lines().as_slice());
        let pieces = plan.copy()?;
        let events = Reserve::with_room(alloc, 2 * plan.len() + goals + 1024)?;
        let kept = Reserve::with_room(alloc, plan.len() + 512)?;
        let lemmas = Reserve::with_room(alloc, 512)?;
        let statuses = unclaimed(alloc, plan.len())?;
        let admitted = unset(alloc, goals)?;
        let breaks = unbroken(alloc, goals)?;
        let spans = spans_of(alloc, plan.as_slice(), goals)?;
        let holders = unbroken(alloc, 64)?;
        Ok(Board {
            ssa,
            plan,
            budget,
            events,
            pieces,
            statuses,
            admitted,
            breaks,
            lemmas,
            kept,
            spans,
            next: 0,
            holders,
        })
    }

    /// The program.
    pub fn ssa(&self) -> &Ssa
        ensures { result.now ≡ self.now.program }
    {
        &self.ssa
    }

    /// The plan that the board began with.
    pub fn plan(&self) -> &Plan
        ensures { result.now ≡ self.now.plan }
    {
        &self.plan
    }

    /// All events in order.
    pub fn events(&self) -> &[Event]
        ensures { result.now ≡ self.now.events }
    {
        self.events.as_slice()
    }

    /// What every board keeps.
    pub fn known(&self)
        ensures { IsBoard E.causes self.now }
    {
        let _ = &self.ssa;
    }
}
