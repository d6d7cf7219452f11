//! Looking over pieces.

ghost use Rattle.std.specs.Prelude.{ℕ, false, ◌≡◌, ◌≤◌, ◌<◌, ◌^◌, length, slice_get, option_copied};
ghost use Rattle.tcl_board.specs.Moves as words;
ghost use Rattle.tcl_board.specs.Told as told;
ghost use Rattle.tcl_board.specs.Index as index;
ghost use Rattle.tcl_board.specs.Finished as finished;
ghost use Rattle.std.specs.Option.{is_none, is_some};
ghost use Rattle.std.specs.List.{list_all, list_any};

use crate::event::Status;
use crate::span::Span;
use tcl_goals::{Piece, Route};

pub(crate) fn settled(admitted: &[bool], breaks: &[Option<u32>], goal: u32) -> bool
    ensures { result ≡ words.is_settled admitted.now breaks.now goal }
{
    if is_on(admitted, goal) {
        return true;
    }
    recorded(breaks, goal)
}

pub(crate) fn is_on(marks: &[bool], k: u32) -> bool
    ensures { result ≡ words.is_on (slice_get marks.now k) }
{
    match marks.get(k as usize) {
        Some(mark) => *mark,
        None => false,
    }
}

pub(crate) fn recorded(breaks: &[Option<u32>], goal: u32) -> bool
    ensures { result ≡ words.is_recorded (slice_get breaks.now goal) }
{
    match breaks.get(goal as usize) {
        Some(Some(_)) => true,
        _ => false,
    }
}

/// The entry of a table.
pub(crate) fn listed(table: &[Option<u32>], k: u32) -> Option<u32>
    ensures { result ≡ index.flat (slice_get table.now k) }
{
    match table.get(k as usize) {
        Some(entry) => *entry,
        None => None,
    }
}

/// Whether a break is recorded.
pub(crate) fn any_recorded(breaks: &[Option<u32>]) -> bool
    ensures { result ≡ list_any is_some breaks.now }
{
    breaks.iter().any(|number| number.is_some())
}

/// Whether all marks are set.
pub(crate) fn all_on(marks: &[bool]) -> bool
    ensures { result ≡ list_all (λ mark. mark) marks.now }
{
    marks.iter().all(|mark| *mark)
}

fn may_claim(
    pieces: &[Piece],
    statuses: &[Status],
    admitted: &[bool],
    breaks: &[Option<u32>],
    k: usize,
) -> bool
    ensures { result ≡ words.may_claim pieces.now statuses.now admitted.now breaks.now k }
{
    match statuses.get(k) {
        Some(Status::Unclaimed) => match pieces.get(k) {
            Some(piece) => !settled(admitted, breaks, piece.goal),
            None => false,
        },
        _ => false,
    }
}

/// The least piece that may be claimed; none before `from` may.
#[tactic(auto, using(crate::proofs::Firsts::first_found), unfolding(crate::specs::Moves::first_below))]
pub(crate) fn next(
    pieces: &[Piece],
    statuses: &[Status],
    admitted: &[bool],
    breaks: &[Option<u32>],
    from: usize,
) -> Option<u32>
    requires few { length pieces.now < 2 ^ 32 }
    requires within { from ≤ length pieces.now }
    requires before { (k : ℕ) → k < from → words.may_claim pieces.now statuses.now admitted.now breaks.now k ≡ false }
    ensures { result ≡ words.first_below (words.may_claim pieces.now statuses.now admitted.now breaks.now) (length pieces.now) }
{
    for k in from..pieces.len() {
        if may_claim(pieces, statuses, admitted, breaks, k) {
            return Some(k as u32);
        }
    }
    None
}

fn unproved_at(pieces: &[Piece], statuses: &[Status], goal: u32, route: Route, k: usize) -> bool
    ensures { result ≡ words.unproved_at pieces.now statuses.now goal route k }
{
    match pieces.get(k) {
        Some(piece) => piece.goal == goal
            && (same_route(piece.route, route) && is_unproved(statuses, k)),
        None => false,
    }
}

fn same_route(one: Route, other: Route) -> bool
    ensures { result ≡ words.same_route one other }
{
    match (one, other) {
        (Route::Cut, Route::Cut) => true,
        (Route::Whole, Route::Whole) => true,
        _ => false,
    }
}

fn is_unproved(statuses: &[Status], k: usize) -> bool
    ensures { result ≡ words.is_unproved (slice_get statuses.now k) }
{
    match statuses.get(k) {
        Some(Status::Proved(_)) => false,
        _ => true,
    }
}

/// Whether all pieces of a route of the goal, which lie in this span, are proved.
#[tactic(auto, using(crate::proofs::Firsts::first_found), unfolding(crate::specs::Moves::first_below))]
pub(crate) fn route_proved(
    pieces: &[Piece],
    statuses: &[Status],
    span: Span,
    goal: u32,
    route: Route,
) -> bool
    requires { index.HasSpan pieces.now (length pieces.now) goal span }
    ensures { result ≡ words.route_proved pieces.now statuses.now goal route }
{
    for k in span.first..span.end {
        if unproved_at(pieces, statuses, goal, route, k as usize) {
            return false;
        }
    }
    true
}

/// Whether the piece of number `k` is of the goal and ended with a cause.
fn ends_with_cause(pieces: &[Piece], statuses: &[Status], goal: u32, k: usize) -> bool
    ensures { result ≡ told.ends_with_cause pieces.now statuses.now goal k }
{
    match pieces.get(k) {
        Some(piece) => piece.goal == goal && has_cause(statuses.get(k)),
        None => false,
    }
}

/// Whether a piece ended with a cause.
fn has_cause(status: Option<&Status>) -> bool
    ensures { result ≡ told.has_cause (option_copied status.entry) }
{
    match status {
        Some(Status::Ended(_)) => true,
        Some(Status::Strayed(_, _)) => true,
        _ => false,
    }
}

/// The last piece of the goal that ended with a cause. The pieces of the goal lie in this span.
#[tactic(auto, using(crate::proofs::Knowing::last_here, crate::proofs::Knowing::last_lower))]
pub(crate) fn last_cause(
    pieces: &[Piece],
    statuses: &[Status],
    span: Span,
    goal: u32,
) -> Option<u32>
    requires { index.HasSpan pieces.now (length pieces.now) goal span }
    ensures { result ≡ told.last_below (told.ends_with_cause pieces.now statuses.now goal) (length pieces.now) }
{
    let mut k = span.end;
    while k > span.first {
        k -= 1;
        if ends_with_cause(pieces, statuses, goal, k as usize) {
            return Some(k);
        }
    }
    None
}

/// Whether the worker of a piece is still at it.
fn is_held(status: Option<&Status>) -> bool
    ensures { result ≡ finished.is_held (option_copied status.entry) }
{
    match status {
        Some(Status::Held(_)) => true,
        _ => false,
    }
}

/// Whether a piece was worked on to its end.
fn has_ended(status: Option<&Status>) -> bool
    ensures { result ≡ finished.has_ended (option_copied status.entry) }
{
    match status {
        Some(Status::Proved(_)) => true,
        Some(Status::Ended(_)) => true,
        Some(Status::Broken) => true,
        Some(Status::Strayed(_, _)) => true,
        _ => false,
    }
}

/// Whether the piece of number `k` is held, or of an unsettled goal and without an end.
fn is_open(
    pieces: &[Piece],
    statuses: &[Status],
    admitted: &[bool],
    breaks: &[Option<u32>],
    k: usize,
) -> bool
    ensures { result ≡ finished.is_open pieces.now statuses.now admitted.now breaks.now k }
{
    if is_held(statuses.get(k)) {
        return true;
    }
    match pieces.get(k) {
        Some(piece) => !settled(admitted, breaks, piece.goal) && !has_ended(statuses.get(k)),
        None => false,
    }
}

/// Whether no piece is.
#[tactic(auto, using(crate::proofs::Firsts::first_found), unfolding(crate::specs::Moves::first_below))]
pub(crate) fn none_open(
    pieces: &[Piece],
    statuses: &[Status],
    admitted: &[bool],
    breaks: &[Option<u32>],
) -> bool
    ensures { result ≡ is_none (words.first_below (finished.is_open pieces.now statuses.now admitted.now breaks.now) (length pieces.now)) }
{
    for k in 0..pieces.len() {
        if is_open(pieces, statuses, admitted, breaks, k) {
            return false;
        }
    }
    true
}
