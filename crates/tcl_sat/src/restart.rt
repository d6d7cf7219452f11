// When a search starts again with no literal assumed: where the last learnt clauses are longer than those before. The lengths
// are averaged by exponential moving averages (Biere, Fröhlich, POS 2015), which take the place of the averages of Glucose
// (Audemard, Simon, CP 2012).

/// The unit of the averages: so many stand for one literal.
const LITERAL: u64 = 1 << 20;

/// How many clauses the average of the last ones is of.
const RECENT: u64 = 32;

/// How many clauses the average of those before is of.
const PAST: u64 = 8192;

/// How many clauses are learnt at least from one restart to the next.
const LEAST: u64 = 10;

/// The average length of the clauses that were learnt last, and of those learnt before, too.
#[derive(Clone, Copy)]
pub(crate) struct Restarts {
    learnt: u64,
    // how many were learnt since the last restart
    since: u64,
    recent: u64,
    past: u64,
}

impl Restarts {
    /// Nothing is learnt yet.
    pub(crate) fn new() -> Restarts {
        Restarts {
            learnt: 0,
            since: 0,
            recent: 0,
            past: 0,
        }
    }

    /// Takes in that a clause of so many literals was learnt.
    pub(crate) fn take_in(&mut self, literals: usize) {
        self.learnt = self.learnt.saturating_add(1);
        self.since = self.since.saturating_add(1);
        let length = (literals as u64).saturating_mul(LITERAL);
        self.recent = moved(self.recent, length, self.learnt.min(RECENT));
        self.past = moved(self.past, length, self.learnt.min(PAST));
    }

    /// Whether the search is to start again: the last clauses are longer by three twentieths than those before.
    pub(crate) fn is_due(&mut self) -> bool {
        if self.since < LEAST || self.recent.saturating_mul(20) <= self.past.saturating_mul(23) {
            return false;
        }
        self.since = 0;
        true
    }
}

/// An average, moved to a value by one of so many parts of the way.
fn moved(average: u64, value: u64, parts: u64) -> u64 {
    let parts = parts.max(1);
    average
        .saturating_sub(average / parts)
        .saturating_add(value / parts)
}
