// A source and a sink in memory, which move a set number of bytes a call and fail at set calls.
ghost use Rattle.std.specs.Prelude.{◌≡◌, ℕ, ◌+◌, ◌-◌, ◌≤◌, Option, Some, refl, List, [], length, take, drop, ◌++◌, IfOk, ◌==◌, vec_len, vec_capacity};
ghost use Rattle.std.specs.List.{list_any};
ghost use Rattle.tcl_io.specs.Faults.{Rose, count_up};
ghost use Rattle.tcl_io.specs.Source.{given_by, SaysEnd, then_left, IsEmptied, total_of};
ghost use Rattle.tcl_io.specs.Sink.{taken_by, SaysFault, faults_after_write, and_then};
ghost use Rattle.tcl_io.specs.Memory.{fails_at, failures_below, read_answer, write_answer, given_count};

use crate::sink::{Put, Sink};
use crate::source::{Source, Taken};
use std::alloc::{AllocError, Global};

/// A source that gives bytes from memory and fails where it is told to.
///
/// Calls are numbered from 0, and a call whose number is the greatest u64 does not fail.
#[derive(Drop)]
pub struct MemorySource {
    /// What is left.
    pub bytes: Vec<u8>,
    /// The most bytes that one call gives, 0 counting as 1.
    pub cut: usize,
    /// The numbers of the calls that fail.
    pub failing: Vec<u64>,
    /// The number of the next call, which stands still at the greatest u64.
    pub calls: u64,
}

/// A sink that keeps bytes in memory made beforehand and fails where it is told to.
///
/// Calls are numbered from 0, and a call whose number is the greatest u64 does not fail because of its number.
#[derive(Drop)]
pub struct MemorySink {
    /// What was taken.
    pub bytes: Vec<u8>,
    /// The most bytes that it holds.
    pub room: usize,
    /// The most bytes that one call takes, 0 counting as 1.
    pub cut: usize,
    /// The numbers of the calls that fail.
    pub failing: Vec<u64>,
    /// The number of the next call, which stands still at the greatest u64.
    pub calls: u64,
    /// How often a call has failed, which stands still at the greatest u64.
    pub faults: u64,
    pub ghost in_room: { vec_len bytes ≤ room },
    pub ghost made: { room ≤ vec_capacity bytes },
}

/// Whether the number stands in the list.
fn is_listed(failing: &[u64], call: u64) -> bool
    ensures { result ≡ list_any (λ k. k == call) failing.now }
{
    failing.iter().any(|k| *k == call)
}

/// Whether the call of this number is to fail.
fn is_failing(failing: &[u64], call: u64) -> bool
    ensures { result ≡ fails_at failing.now call }
{
    call < u64::MAX && is_listed(failing, call)
}

impl MemorySource {
    /// A source of these bytes, before its first call.
    pub fn new(bytes: Vec<u8>, cut: usize, failing: Vec<u64>) -> MemorySource
        ensures bytes { result.bytes.items ≡ bytes.items }
        ensures cut { result.cut ≡ cut }
        ensures failing { result.failing.items ≡ failing.items }
        ensures calls { result.calls ≡ 0 }
    {
        MemorySource {
            bytes,
            cut,
            failing,
            calls: 0,
        }
    }
}

impl Source for MemorySource {
    ghost left = { λ s. Some s.bytes.items };

    ghost given = { λ s. given_count s.bytes.items };

    ghost faults = { λ s. failures_below s.failing.items s.calls };

    fn read(&mut self, into: &mut [u8]) -> Taken
        // What every source promises.
        ensures within { given_by result ≤ length into.old }
        ensures bytes { Some self.old.bytes.items
            ≡ then_left (take (given_by result) into.new) (Some self.new.bytes.items) }
        ensures given { given_count self.new.bytes.items
            ≡ given_count self.old.bytes.items + given_by result }
        ensures total { total_of (Some self.old.bytes.items) (given_count self.old.bytes.items)
            ≡ total_of (Some self.new.bytes.items) (given_count self.new.bytes.items) }
        ensures end { SaysEnd result (length into.old) → IsEmptied (Some self.new.bytes.items) }
        ensures failed { result ≡ Taken.Failed →
            Rose (failures_below self.old.failing.items self.old.calls)
            (failures_below self.new.failing.items self.new.calls) }
        ensures faults { failures_below self.old.failing.items self.old.calls
            ≤ failures_below self.new.failing.items self.new.calls }

        // What this one promises beyond that.
        ensures answer { result
            ≡ read_answer self.old.bytes.items self.old.cut self.old.failing.items
            self.old.calls (length into.old) }
        ensures calls { self.new.calls ≡ count_up self.old.calls }
        ensures cut { self.new.cut ≡ self.old.cut }
        ensures failing { self.new.failing.items ≡ self.old.failing.items }
    {
        let call = self.calls;
        self.calls = call.saturating_add(1);
        if is_failing(&self.failing, call) {
            return Taken::Failed;
        }
        if self.bytes.is_empty() {
            return Taken::End;
        }
        let n = self.cut.max(1).min(into.len()).min(self.bytes.len());
        let rest = self.bytes.len() - n;
        into[..n].copy_from_slice(&self.bytes[..n]);
        self.bytes.rotate_left(n);
        self.bytes.truncate(rest);
        Taken::Bytes(n)
    }
}

impl MemorySink {
    /// An empty sink before its first call. It makes the room for `room` bytes, so that no write takes memory.
    pub fn new(
        alloc: Global,
        room: usize,
        cut: usize,
        failing: Vec<u64>,
    ) -> Result<MemorySink, AllocError>
        ensures bytes { IfOk result (λ sink. sink.bytes.items ≡ []) }
        ensures room { IfOk result (λ sink. sink.room ≡ room) }
        ensures cut { IfOk result (λ sink. sink.cut ≡ cut) }
        ensures failing { IfOk result (λ sink. sink.failing.items ≡ failing.items) }
        ensures calls { IfOk result (λ sink. sink.calls ≡ 0) }
        ensures faults { IfOk result (λ sink. sink.faults ≡ 0) }
    {
        Ok(MemorySink {
            bytes: Vec::with_capacity(alloc, room)?,
            room,
            cut,
            failing,
            calls: 0,
            faults: 0,
        })
    }

    /// The bytes that it has taken.
    pub fn bytes(&self) -> &[u8]
        ensures { result.now ≡ self.now.bytes.items }
    {
        &self.bytes
    }
}

impl Sink for MemorySink {
    ghost taken = { λ s. Some s.bytes.items };

    ghost held = { λ s. length s.bytes.items };

    ghost faults = { λ s. s.faults };

    ghost counted = { λ s. refl };

    fn write(&mut self, bytes: &[u8]) -> Put
        // What every sink promises.
        ensures within { taken_by result ≤ length bytes.now }
        ensures bytes { Some self.new.bytes.items
            ≡ and_then (Some self.old.bytes.items) (take (taken_by result) bytes.now) }
        ensures held { length self.new.bytes.items ≡ length self.old.bytes.items + taken_by result }
        ensures failed { SaysFault result (length bytes.now) → Rose self.old.faults self.new.faults }
        ensures faults { self.old.faults ≤ self.new.faults }

        // What this one promises beyond that.
        ensures answer { result
            ≡ write_answer (self.old.room - length self.old.bytes.items) self.old.cut
            self.old.failing.items self.old.calls (length bytes.now) }
        ensures raised { self.new.faults ≡ faults_after_write result self.old.faults }
        ensures calls { self.new.calls ≡ count_up self.old.calls }
        ensures room { self.new.room ≡ self.old.room }
        ensures cut { self.new.cut ≡ self.old.cut }
        ensures failing { self.new.failing.items ≡ self.old.failing.items }
    {
        let call = self.calls;
        let room = self.room - self.bytes.len();
        self.calls = call.saturating_add(1);
        if is_failing(&self.failing, call) || (room == 0 && !bytes.is_empty()) {
            self.faults = self.faults.saturating_add(1);
            return Put::Failed;
        }
        let n = self.cut.max(1).min(bytes.len()).min(room);
        self.bytes.extend_from_slice(&bytes[..n]).unwrap();
        Put::Bytes(n)
    }
}
