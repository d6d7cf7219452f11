//! The board: who works on which piece, and what was shown.
#![tactic(auto)]

mod board;
mod event;
mod evidence;
mod judging;
mod reserve;
mod scans;
mod span;
mod telling;
mod told;

pub use board::Board;
pub use event::{Admitted, Event, Judged, LemmaMark, Status, Submitted, Word};
pub use evidence::{Evidence, Outcome, Seen};
pub use reserve::Reserve;
pub use span::Span;
pub use told::GoalAnswer;
