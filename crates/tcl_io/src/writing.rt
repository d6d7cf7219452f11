// Writing a piece whole to a sink.
ghost use Rattle.std.specs.Prelude.{◌≡◌, ℕ, ◌+◌, ◌<◌, ◌≤◌, length, take, OnOk, OnErr, IfErr};
ghost use Rattle.tcl_io.specs.Faults.{Rose};
ghost use Rattle.tcl_io.specs.Sink.{and_then};

use crate::sink::{Put, Sink};

/// A piece was not written whole.
#[derive(Clone, Copy, Debug, PartialEq, Eq)]
pub struct WriteFault {
    /// How many bytes of the piece the sink took before it failed.
    pub written: u64,
}

/// Writes all bytes to a sink, in order. It takes no memory.
///
/// It writes on after a partial write, and gives up at the first write that fails or takes nothing.
pub fn write_all<K: Sink>(sink: &mut K, bytes: &[u8]) -> Result<(), WriteFault>
    // All bytes were taken.
    ensures all { OnOk result (K.taken sink.new ≡ and_then (K.taken sink.old) bytes.now) }
    ensures held { OnOk result (K.held sink.new ≡ K.held sink.old + length bytes.now) }

    // A part was taken, because the sink failed.
    ensures part { IfErr result (λ fault.
        K.taken sink.new ≡ and_then (K.taken sink.old) (take fault.written bytes.now)) }
    ensures part_held { IfErr result (λ fault. K.held sink.new ≡ K.held sink.old + fault.written) }
    ensures short { IfErr result (λ fault. fault.written < length bytes.now) }
    ensures fault { OnErr result (Rose (K.faults sink.old) (K.faults sink.new)) }

    ensures faults { K.faults sink.old ≤ K.faults sink.new }
{
    let mut written = 0;
    while written < bytes.len() {
        match sink.write(&bytes[written..]) {
            Put::Bytes(0) | Put::Failed => {
                return Err(WriteFault {
                    written: written as u64,
                });
            }
            Put::Bytes(n) => written += n,
        }
    }
    Ok(())
}
