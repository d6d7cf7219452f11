// Sources and sinks. Expected counts of calls are by hand: a cut of c gives a text of n bytes in n / c calls, rounded up,
// and one more.

use crate::expected::holds;
use std::alloc::{AllocError, Global};
use std::io;
use std::io::{Read, Write};
use std::process::Abort;
use std::test::Fail;
use tcl_io::{
    MemorySink, MemorySource, ReadEnd, Sink, Source, StdSink, StdSource, Taken, WriteFault,
    read_all, write_all,
};

const TEXT: &[u8; 18] = b"read me to the end";

// The cut, the calls that fail, the limit, the error, how many calls were made, how many bytes are left.
const READS: &[(usize, &[u64], u64, Option<ReadEnd>, u64, usize)] = &[
    (0, &[], 18, None, 19, 0),
    (1, &[], 18, None, 19, 0),
    (7, &[], 18, None, 4, 0),
    (64, &[], u64::MAX, None, 2, 0),
    (7, &[], 17, Some(ReadEnd::TooLong), 3, 0),
    (7, &[], 6, Some(ReadEnd::TooLong), 1, 11),
    (7, &[1], 18, Some(ReadEnd::Fault), 2, 11),
    (1, &[1], 18, Some(ReadEnd::Fault), 2, 17),
];

// The error of a reading, or none where all of the text was read.
fn end_of<S: Source>(alloc: Global, source: &mut S, limit: u64) -> Result<bool, ReadEnd> {
    let all = read_all(alloc, source, limit)?;
    Ok(all.as_slice() == TEXT.as_slice())
}

// The error, how many calls were made, how many bytes are left.
fn reading(
    alloc: Global,
    cut: usize,
    failing: &[u64],
    limit: u64,
) -> Result<(Result<bool, ReadEnd>, u64, usize), AllocError> {
    let mut source = MemorySource::new(TEXT.to_vec(alloc)?, cut, failing.to_vec(alloc)?);
    let end = end_of(alloc, &mut source, limit);
    Ok((end, source.calls, source.bytes.len()))
}

fn is_end(end: Result<bool, ReadEnd>, error: Option<ReadEnd>) -> bool {
    match error {
        None => end == Ok(true),
        Some(error) => end == Err(error),
    }
}

fn expect(rt: &impl Abort, what: &str, cut: usize, size: u64, is_so: bool) {
    assert!(rt; is_so, "{what} at cut {cut} and {size}");
}

#[test]
fn a_source_is_read_to_its_end(rt: HostRuntime) -> Result<(), Fail> {
    for (cut, failing, limit, error, calls, left) in READS {
        let found = reading(rt.alloc(), *cut, failing, *limit)?;
        expect(&rt, "the end", *cut, *limit, is_end(found.0, *error));
        expect(&rt, "the calls", *cut, *limit, found.1 == *calls);
        expect(&rt, "what is left", *cut, *limit, found.2 == *left);
    }
    Ok(())
}

// The cut, the calls that fail, the size of the piece, how much was written, how many calls, how many faults.
const WRITES: &[(usize, &[u64], usize, u64, u64, u64)] = &[
    (0, &[], 10, 10, 10, 0),
    (1, &[], 10, 10, 10, 0),
    (7, &[], 10, 10, 2, 0),
    (7, &[], 0, 0, 0, 0),
    (7, &[], 12, 10, 3, 1),
    (7, &[1], 10, 7, 2, 1),
    (1, &[1], 10, 1, 2, 1),
];

// How many bytes of a piece of this size a sink says that it took.
fn written_of<K: Sink>(sink: &mut K, piece: &[u8]) -> u64 {
    match write_all(sink, piece) {
        Ok(()) => piece.len() as u64,
        Err(fault) => fault.written,
    }
}

// What a piece of the text left in a sink.
#[derive(Drop)]
struct Filling {
    written: u64,
    held: u64,
    is_start: bool,
    calls: u64,
    faults: u64,
}

fn filled(alloc: Global, cut: usize, failing: &[u64], size: usize) -> Result<Filling, AllocError> {
    let mut sink = MemorySink::new(alloc, 10, cut, failing.to_vec(alloc)?)?;
    let written = written_of(&mut sink, &TEXT[..size.min(TEXT.len())]);
    Ok(Filling {
        written,
        held: sink.bytes().len() as u64,
        is_start: TEXT.starts_with(sink.bytes()),
        calls: sink.calls,
        faults: sink.faults,
    })
}

#[test]
fn a_sink_of_ten_bytes_is_filled(rt: HostRuntime) -> Result<(), Fail> {
    for (cut, failing, size, written, calls, faults) in WRITES {
        let found = filled(rt.alloc(), *cut, failing, *size)?;
        let size = *size as u64;
        let counts = found.written == *written && found.held == *written;
        expect(&rt, "what was written", *cut, size, counts);
        expect(&rt, "the start of the text", *cut, size, found.is_start);
        expect(&rt, "the calls", *cut, size, found.calls == *calls);
        expect(&rt, "the faults", *cut, size, found.faults == *faults);
    }
    Ok(())
}

// A stream whose every call is an error.
#[derive(Drop)]
struct Broken;

impl Read for Broken {
    fn read(&mut self, _: &mut [u8]) -> io::Result<usize> {
        Err(io::Error::other("no reading"))
    }
}

impl Write for Broken {
    fn write(&mut self, _: &[u8]) -> io::Result<usize> {
        Err(io::Error::other("no writing"))
    }

    fn flush(&mut self) -> io::Result<()> {
        Ok(())
    }
}

// A stream that takes nothing.
#[derive(Drop)]
struct Stuck;

impl Write for Stuck {
    fn write(&mut self, _: &[u8]) -> io::Result<usize> {
        Ok(0)
    }

    fn flush(&mut self) -> io::Result<()> {
        Ok(())
    }
}

#[test]
fn standard_input_is_a_source(rt: HostRuntime) {
    let mut input = StdSource::new(rt.stdin());
    let none = input.read(&mut []);
    holds(&rt, "no byte", none == Taken::Bytes(0));
}

#[test]
fn a_reader_is_a_source(rt: HostRuntime) {
    let mut text = StdSource::new(TEXT.as_slice());
    let end = end_of(rt.alloc(), &mut text, 18);
    holds(&rt, "a text", end == Ok(true));
    holds(&rt, "18 bytes", text.given == 18);
    holds(&rt, "no fault", text.faults == 0);
}

#[test]
fn a_broken_reader_fails(rt: HostRuntime) {
    let mut broken = StdSource::new(Broken);
    let end = end_of(rt.alloc(), &mut broken, 18);
    holds(&rt, "a fault", end == Err(ReadEnd::Fault));
    holds(&rt, "one fault", broken.faults == 1);
}

#[test]
fn standard_output_is_a_sink(rt: HostRuntime) {
    let mut output = StdSink::new(io::writer(&rt));
    let end = write_all(&mut output, b"written through a sink\n");
    holds(&rt, "a line", end == Ok(()));
    holds(&rt, "23 bytes", output.held == 23);
}

#[test]
fn a_vector_is_a_sink(rt: HostRuntime) {
    let mut kept = Vec::new(rt.alloc());
    let mut sink = StdSink::new(&mut kept);
    let end = write_all(&mut sink, TEXT);
    holds(&rt, "a text", end == Ok(()));
    holds(&rt, "all of it", kept.as_slice() == TEXT.as_slice());
}

// The sink fails at once.
fn expect_failing<W: Write>(rt: &impl Abort, sink: &mut StdSink<W>) {
    let end = write_all(sink, TEXT);
    holds(rt, "a fault", end == Err(WriteFault { written: 0 }));
    holds(rt, "one fault", sink.faults == 1);
}

#[test]
fn broken_and_stuck_writers_fail(rt: HostRuntime) {
    expect_failing(&rt, &mut StdSink::new(Broken));
    expect_failing(&rt, &mut StdSink::new(Stuck));
}
