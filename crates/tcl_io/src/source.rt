// What gives bytes, as contracts see it.
ghost use Rattle.std.specs.Prelude.{◌≡◌, ℕ, ◌+◌, ◌≤◌, Option, List, length, take};
ghost use Rattle.tcl_io.specs.Faults.{Rose};
ghost use Rattle.tcl_io.specs.Source.{given_by, SaysEnd, then_left, IsEmptied, total_of};

/// The answer of a read.
#[derive(Clone, Copy, Debug, PartialEq, Eq)]
pub enum Taken {
    /// So many bytes stand at the front of the slice. None, into a slice that is not empty, means the end.
    Bytes(usize),
    /// No byte is left.
    End,
    /// The source failed, and no byte was taken.
    Failed,
}

/// A source of bytes.
///
/// Contracts see what it has left, where it tells that, how many bytes it has given, and how often it has failed.
/// The count of bytes may begin anywhere: only its steps mean something.
pub trait Source {
    /// The bytes that reads will give from here on, where they are told.
    ghost left: { Self → Option (List ℕ) };

    /// How many bytes reads have given, told or not.
    ghost given: { Self → ℕ };

    /// How often the source has failed, standing still at the greatest value of 64 bits.
    ghost faults: { Self → ℕ };

    /// Puts the next bytes at the front of the slice. What it leaves behind them is not said.
    fn read(&mut self, into: &mut [u8]) -> Taken
        // The bytes come in order, and each is counted once.
        ensures within { given_by result ≤ length into.old }
        ensures bytes { left self.old ≡ then_left (take (given_by result) into.new) (left self.new) }
        ensures given { given self.new ≡ given self.old + given_by result }
        ensures total { total_of (left self.old) (given self.old) ≡ total_of (left self.new) (given self.new) }

        // The end and a failure each have a cause.
        ensures end { SaysEnd result (length into.old) → IsEmptied (left self.new) }
        ensures failed { result ≡ Taken.Failed → Rose (faults self.old) (faults self.new) }
        ensures faults { faults self.old ≤ faults self.new };
}
