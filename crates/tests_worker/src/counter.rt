//! A port that counts polls, and cancels at one of them.

use tcl_port::{Poll, Port};

/// The polls so far, and which one cancels.
#[derive(Drop)]
pub struct Counter {
    pub polls: u64,
    cancels: u64,
    cancel_at: u64,
}

impl Counter {
    /// Cancels at the poll of that number, counted from 1; never where it is 0.
    pub fn new(cancel_at: u64) -> Counter {
        Counter {
            polls: 0,
            cancels: 0,
            cancel_at,
        }
    }
}

impl Port for Counter {
    ghost polls = { λ p. p.polls };

    ghost cancels = { λ p. p.cancels };

    fn poll(&mut self) -> Poll {
        self.polls = self.polls.saturating_add(1);
        if self.polls == self.cancel_at {
            self.cancels = self.cancels.saturating_add(1);
            Poll::Cancelled
        } else {
            Poll::Go
        }
    }
}
