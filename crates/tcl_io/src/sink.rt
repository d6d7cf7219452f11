// What takes bytes, as contracts see it.
ghost use Rattle.std.specs.Prelude.{◌≡◌, ℕ, ◌+◌, ◌≤◌, IfSome, Option, List, length, take};
ghost use Rattle.tcl_io.specs.Faults.{Rose};
ghost use Rattle.tcl_io.specs.Sink.{taken_by, SaysFault, and_then};

/// The answer of a write.
#[derive(Clone, Copy, Debug, PartialEq, Eq)]
pub enum Put {
    /// The sink took so many bytes from the front of the piece. None, of a piece that is not empty, is a fault.
    Bytes(usize),
    /// The sink failed, and took no byte.
    Failed,
}

/// A sink of bytes.
///
/// Contracts see what it has taken, where it tells that, how many bytes it has taken, and how often it has failed.
pub trait Sink {
    /// The bytes that writes have left in it, where they are told.
    ghost taken: { Self → Option (List ℕ) };

    /// How many bytes writes have left in it, told or not.
    ghost held: { Self → ℕ };

    /// How often the sink has failed, standing still at the greatest value of 64 bits.
    ghost faults: { Self → ℕ };

    /// Takes bytes from the front of the piece.
    fn write(&mut self, bytes: &[u8]) -> Put
        // The bytes go in order, and each is counted once.
        ensures within { taken_by result ≤ length bytes.now }
        ensures bytes { taken self.new ≡ and_then (taken self.old) (take (taken_by result) bytes.now) }
        ensures held { held self.new ≡ held self.old + taken_by result }

        // A failure has a cause, and so has a write that takes nothing of something.
        ensures failed { SaysFault result (length bytes.now) → Rose (faults self.old) (faults self.new) }
        ensures faults { faults self.old ≤ faults self.new };

    /// Where the bytes are told, so many are counted.
    ghost counted: { (sink : Self) → IfSome (taken sink) (λ bytes. held sink ≡ length bytes) };
}
