//! Where the pieces of a goal lie.

ghost use Rattle.std.specs.Prelude.{◌≡◌, ◌<◌, ◌^◌, ◌-◌, IfOk, length, slice_get};
ghost use Rattle.tcl_board.specs.Index as index;

use std::alloc::{AllocError, Global};
use tcl_goals::Piece;
use tcl_list::Listing;

/// The pieces of a goal are among those from `first` on, below `end`.
#[derive(Clone, Copy)]
pub struct Span {
    pub first: u32,
    pub end: u32,
}

/// The span with piece `k`, which is behind it.
fn extended(span: Span, k: u32) -> Span
    requires { k < 2 ^ 32 - 1 }
    ensures { result ≡ index.extended span k }
{
    Span {
        first: if span.end == 0 { k } else { span.first },
        end: k + 1,
    }
}

/// Adds piece `k` to the span of its goal.
fn extend(spans: &mut Listing<Span>, goal: u32, k: u32)
    requires { k < 2 ^ 32 - 1 }
    ensures { spans.new ≡ index.extend_in spans.old goal k (slice_get spans.old goal) }
{
    match spans.as_slice().get(goal as usize) {
        Some(span) => {
            let longer = extended(*span, k);
            spans.set(goal as usize, longer);
        }
        None => (),
    }
}

/// The spans of this many goals.
pub(crate) fn spans_of(
    alloc: Global,
    pieces: &[Piece],
    goals: usize,
) -> Result<Listing<Span>, AllocError>
    requires { length pieces.now < 2 ^ 20 }
    ensures spans { IfOk result (λ spans. index.HaveSpans pieces.now (length pieces.now) spans) }
    ensures goals { IfOk result (λ spans. length spans ≡ goals) }
{
    let none = Span { first: 0, end: 0 };
    let mut spans = Listing::from_vec(vec![in alloc; none; goals]?);
    for k in 0..pieces.len() {
        extend(&mut spans, pieces[k].goal, k as u32);
    }
    Ok(spans)
}
