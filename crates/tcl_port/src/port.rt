//! The port by which a search asks whether it is still wanted.

/// The answer to a poll.
#[derive(Clone, Copy, PartialEq, Eq)]
pub enum Poll {
    Go,
    Cancelled,
}

/// Where a search asks whether to go on.
///
/// Contracts count the polls and the answers `Cancelled`. Both counts stand still at the greatest `u64`.
pub trait Port {
    ghost use Rattle.std.specs.Prelude.{ℕ, ◌≡◌};
    ghost use Rattle.tcl_port.specs.Polling.{counted, cancelled_after};
    ghost use Rattle.tcl_port.specs.declared.port.Poll.{Poll};

    ghost polls: { Self → ℕ };

    ghost cancels: { Self → ℕ };

    fn poll(&mut self) -> Poll
        ensures polls { polls self.new ≡ counted (polls self.old) }
        ensures cancels { cancels self.new ≡ cancelled_after (cancels self.old) result };
}
