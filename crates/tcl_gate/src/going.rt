//! The port of a worker that is alone.

use tcl_port::{Poll, Port};

/// A port that counts the polls, and never cancels: while one worker alone is at a board, the goal of its piece is settled by
/// nobody else.
#[derive(Drop)]
pub(crate) struct Going {
    polls: u64,
}

impl Going {
    /// No poll was made yet.
    pub(crate) fn new() -> Self {
        Going { polls: 0 }
    }
}

impl Port for Going {
    ghost polls = { λ p. p.polls };

    ghost cancels = { λ _. 0 };

    fn poll(&mut self) -> Poll {
        self.polls = self.polls.saturating_add(1);
        Poll::Go
    }
}
