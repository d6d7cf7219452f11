// Reading a source to its end.
ghost use Rattle.std.specs.Prelude.{◌≡◌, ◌↔◌, ℕ, ◌+◌, ◌-◌, ◌<◌, ◌≤◌, IfOk, OnOk, IsErrOf, length};
ghost use Rattle.tcl_io.specs.declared.reading.ReadEnd.TheVariants.{Memory};
ghost use Rattle.tcl_io.specs.Faults.{Rose};
ghost use Rattle.tcl_io.specs.Source.{then_left, left_after, IsEmptied, total_of};

use crate::source::{Source, Taken};
use std::alloc::{AllocError, Global};

/// The most bytes that one call of a source is asked for.
const PIECE: usize = 8192;

/// Why a source was not read to its end.
#[derive(Clone, Copy, Debug, PartialEq, Eq)]
pub enum ReadEnd {
    /// The source failed.
    Fault,
    /// The source gave more bytes than the limit.
    TooLong,
    /// Memory ran out.
    Memory,
}

impl From<AllocError> for ReadEnd {
    ghost from_gives = { λ _ end. end ≡ Memory };

    fn from(_: AllocError) -> ReadEnd {
        ReadEnd::Memory
    }
}

/// All bytes of a source, up to its end, where they are at most `limit`.
///
/// It asks again until the source says that it has no more, so a short read is no end. It stops as soon as more than
/// `limit` bytes came; the bytes read before an error are lost, and the source stands behind them.
pub fn read_all<S: Source>(alloc: Global, source: &mut S, limit: u64) -> Result<Vec<u8>, ReadEnd>
    // The result is all that was left, and nothing is left.
    ensures all { IfOk result (λ all. S.left source.old ≡ then_left all.items (S.left source.new)) }
    ensures end { OnOk result (IsEmptied (S.left source.new)) }
    ensures given { IfOk result (λ all. S.given source.new ≡ S.given source.old + length all.items) }
    ensures within { IfOk result (λ all. length all.items ≤ limit) }

    // When each error comes.
    ensures fault { IsErrOf result ReadEnd.Fault → Rose (S.faults source.old) (S.faults source.new) }
    ensures too_long { IsErrOf result ReadEnd.TooLong ↔ (S.given source.old + limit < S.given source.new) }

    // What is true of the source after every answer.
    ensures moved { S.given source.old ≤ S.given source.new }
    ensures rest { S.left source.new
        ≡ left_after (S.given source.new - S.given source.old) (S.left source.old) }
    ensures total { total_of (S.left source.old) (S.given source.old)
        ≡ total_of (S.left source.new) (S.given source.new) }
    ensures faults { S.faults source.old ≤ S.faults source.new }
{
    let mut all = Vec::new(alloc);
    let mut piece = [0; PIECE];
    loop {
        match source.read(&mut piece) {
            Taken::Bytes(0) | Taken::End => return Ok(all),
            Taken::Failed => return Err(ReadEnd::Fault),
            Taken::Bytes(n) => {
                if limit - (all.len() as u64) < n as u64 {
                    return Err(ReadEnd::TooLong);
                }
                all.extend_from_slice(&piece[..n])?;
            }
        }
    }
}
