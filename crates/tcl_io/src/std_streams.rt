// The trusted edge: std's reader and writer as a source and a sink. What they give and take is not told.
ghost use Rattle.std.specs.Prelude.{◌≡◌, ◌+◌, ◌≤◌, None, length, take};
ghost use Rattle.std.specs.Io.KnownBytes.{Consumes, Appends, IsAtEnd};
ghost use Rattle.tcl_io.specs.Faults.{Rose, count_up};
ghost use Rattle.tcl_io.specs.Source.{given_by, SaysEnd, faults_after_read};
ghost use Rattle.tcl_io.specs.Sink.{taken_by, SaysFault, faults_after_write};

use crate::sink::{Put, Sink};
use crate::source::{Source, Taken};
use std::io::{Read, Write};

/// A source over std's reader, as `StdSource::new(rt.stdin())`.
///
/// It counts what it gives in 128 bits and fails before it could pass their end.
#[derive(Drop)]
pub struct StdSource<R: Read> {
    /// Where the bytes come from.
    pub reader: R,
    /// How many bytes it has given.
    pub given: u128,
    /// How often it has failed, which stands still at the greatest u64.
    pub faults: u64,
}

/// A sink over std's writer, as `StdSink::new(io::writer(&rt))`.
///
/// It counts what it takes in 128 bits and fails before it could pass their end.
#[derive(Drop)]
pub struct StdSink<W: Write> {
    /// Where the bytes go.
    pub writer: W,
    /// How many bytes it has taken.
    pub held: u128,
    /// How often it has failed, which stands still at the greatest u64.
    pub faults: u64,
}

impl<R: Read> StdSource<R> {
    /// A source over this reader that has not failed.
    pub fn new(reader: R) -> StdSource<R>
        ensures reader { result.reader ≡ reader }
        ensures given { result.given ≡ 0 }
        ensures faults { result.faults ≡ 0 }
    {
        StdSource {
            reader,
            given: 0,
            faults: 0,
        }
    }

    fn fail(&mut self) -> Taken
        ensures result { result ≡ Taken.Failed }
        ensures reader { self.new.reader ≡ self.old.reader }
        ensures given { self.new.given ≡ self.old.given }
        ensures faults { self.new.faults ≡ count_up self.old.faults }
    {
        self.faults = self.faults.saturating_add(1);
        Taken::Failed
    }
}

impl<R: Read> Source for StdSource<R> {
    ghost left = { λ _. None };

    ghost given = { λ s. s.given };

    ghost faults = { λ s. s.faults };

    fn read(&mut self, into: &mut [u8]) -> Taken
        // The bytes are the reader's, where the reader tells them.
        ensures through { Consumes (R.remaining self.old.reader) (R.remaining self.new.reader)
            (take (given_by result) into.new) }
        ensures end { SaysEnd result (length into.old) → IsAtEnd (R.remaining self.new.reader) }

        // Each byte and each failure is counted once.
        ensures within { given_by result ≤ length into.old }
        ensures given { self.new.given ≡ self.old.given + given_by result }
        ensures raised { self.new.faults ≡ faults_after_read result self.old.faults }
        ensures failed { result ≡ Taken.Failed → Rose self.old.faults self.new.faults }
        ensures faults { self.old.faults ≤ self.new.faults }
    {
        if u128::MAX - self.given < into.len() as u128 {
            return self.fail();
        }
        match self.reader.read(into) {
            Ok(n) => {
                self.given += n as u128;
                Taken::Bytes(n)
            }
            Err(_) => self.fail(),
        }
    }
}

impl<W: Write> StdSink<W> {
    /// A sink over this writer that has not failed.
    pub fn new(writer: W) -> StdSink<W>
        ensures writer { result.writer ≡ writer }
        ensures held { result.held ≡ 0 }
        ensures faults { result.faults ≡ 0 }
    {
        StdSink {
            writer,
            held: 0,
            faults: 0,
        }
    }

    fn fail(&mut self) -> Put
        ensures result { result ≡ Put.Failed }
        ensures writer { self.new.writer ≡ self.old.writer }
        ensures held { self.new.held ≡ self.old.held }
        ensures faults { self.new.faults ≡ count_up self.old.faults }
    {
        self.faults = self.faults.saturating_add(1);
        Put::Failed
    }
}

impl<W: Write> Sink for StdSink<W> {
    ghost taken = { λ _. None };

    ghost held = { λ s. s.held };

    ghost faults = { λ s. s.faults };

    ghost counted = { λ _. tt };

    fn write(&mut self, bytes: &[u8]) -> Put
        // The bytes go to the writer, where the writer tells them.
        ensures through { Appends (W.contents self.old.writer) (W.contents self.new.writer)
            (take (taken_by result) bytes.now) }

        // Each byte is counted once, and each failure, a write that takes nothing of something among them.
        ensures within { taken_by result ≤ length bytes.now }
        ensures held { self.new.held ≡ self.old.held + taken_by result }
        ensures raised { self.new.faults ≡ faults_after_write result self.old.faults }
        ensures failed { SaysFault result (length bytes.now) → Rose self.old.faults self.new.faults }
        ensures faults { self.old.faults ≤ self.new.faults }
    {
        if u128::MAX - self.held < bytes.len() as u128 {
            return self.fail();
        }
        match self.writer.write(bytes) {
            Ok(0) if !bytes.is_empty() => self.fail(),
            Ok(n) => {
                self.held += n as u128;
                Put::Bytes(n)
            }
            Err(_) => self.fail(),
        }
    }
}
