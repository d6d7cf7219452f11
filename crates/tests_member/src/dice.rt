// Numbers that look random and are the same in each run, by the multiplier and increment of Knuth's MMIX.

/// The state of the generator.
#[derive(Drop)]
pub(crate) struct Dice {
    state: u64,
}

impl Dice {
    /// Begins with that state.
    pub(crate) fn new(seed: u64) -> Dice {
        Dice { state: seed }
    }

    /// A number below the bound, or 0 where the bound is 0.
    pub(crate) fn below(&mut self, bound: u32) -> u32 {
        self.state = self
            .state
            .wrapping_mul(6364136223846793005)
            .wrapping_add(1442695040888963407);
        ((self.state >> 33) as u32).checked_rem(bound).unwrap_or(0)
    }
}
