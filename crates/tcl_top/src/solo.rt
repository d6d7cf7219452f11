//! The call that reads a program, works on its goals, and writes the report.

ghost use Rattle.std.specs.Prelude.{◌≡◌, ◌⊎◌, ◌<◌, ◌≤◌, ◌+◌, [], true, IfOk, IfSome, IfNone, OnOk, OnErr, length};
ghost use Rattle.tcl_io.specs.Faults.{Rose};
ghost use Rattle.tcl_parse.specs.TextRefusals.{Says};
ghost use Rattle.tcl_types.specs.Fault.{IsTyped};
ghost use Rattle.tcl_top.specs.Headline as headline;

use crate::refusal::{limit_text, shape_text, text_text, type_text};
use crate::worked::worked;
use std::alloc::{AllocError, Global};
use tcl_board::Event;
use tcl_goals::Verdict;
use tcl_io::{ReadEnd, Sink, Source, WriteFault, read_all, write_all};
use tcl_lang::{Parsed, Typed};
use tcl_list::Listing;
use tcl_parse::{ParseFault, parse};
use tcl_report::report_text;
use tcl_types::{TypeFault, check};

/// The greatest number of bytes of a text.
const BYTE_LIMIT: u64 = 1_048_576;

/// How a top call ended.
#[derive(Drop)]
pub struct Done {
    /// 0 verified, 1 refuted, 2 unproved, 3 outside the grammar, 4 ill-typed, 5 read fault, 6 write fault, 7 out of memory,
    /// 8 usage, 9 limit.
    pub status: u8,
    /// The number of bytes that the sink took in this call.
    pub written: u64,
    /// The steps of the board of this call; none at a status above 2.
    pub events: Listing<Event>,
}

/// A status, its text, and the steps of the board.
#[derive(Drop)]
struct Reply {
    status: u8,
    text: Vec<u8>,
    events: Listing<Event>,
}

/// The status of a verdict.
fn verdict_status(verdict: Verdict) -> u8
    ensures { result ≡ headline.verdict_status verdict }
{
    match verdict {
        Verdict::Verified => 0,
        Verdict::Refuted => 1,
        Verdict::Unproved => 2,
    }
}

/// The report on a well typed program.
fn report_on(alloc: Global, bytes: &[u8], typed: &Typed) -> Result<Reply, AllocError>
    requires accepted { headline.IsAccepted bytes.now typed.now }
    requires typed { IsTyped typed.now }
    ensures { IfOk result (λ reply. headline.IsReported bytes.now reply.status reply.text.items reply.events) }
{
    let board = worked(alloc, typed)?;
    let text = report_text(alloc, typed, &board)?;
    let events = Listing::from_vec(board.events().to_vec(alloc)?);
    let status = verdict_status(board.verdict());
    Ok(Reply {
        status,
        text,
        events,
    })
}

/// A refusal, which comes without events.
fn refused(alloc: Global, status: u8, text: Vec<u8>) -> Reply
    ensures status { result.status ≡ status }
    ensures text { result.text ≡ text }
    ensures events { result.events ≡ [] }
{
    Reply {
        status,
        text,
        events: Listing::new(alloc),
    }
}

/// The reply to a text that is accepted.
fn reply_to_accepted(alloc: Global, bytes: &[u8], parsed: Parsed) -> Result<Reply, AllocError>
    requires { headline.IsAccepted bytes.now parsed }
    ensures { IfOk result (λ reply. headline.IsAnswered bytes.now reply.status reply.text.items reply.events) }
{
    match check(alloc, parsed) {
        Ok(typed) => {
            let reply = report_on(alloc, bytes, &typed)?;
            Ok(reply)
        }
        Err(TypeFault::Ill(number, reason)) => {
            let text = type_text(alloc, number, reason)?;
            Ok(refused(alloc, 4, text))
        }
        Err(TypeFault::Memory) => Err(AllocError),
    }
}

/// The reply to a text that is refused.
fn reply_to_fault(alloc: Global, bytes: &[u8], fault: ParseFault) -> Result<Reply, AllocError>
    requires { Says bytes.now fault }
    ensures { IfOk result (λ reply. headline.IsAnswered bytes.now reply.status reply.text.items reply.events) }
{
    match fault {
        ParseFault::Text(number) => {
            let text = text_text(alloc, number)?;
            Ok(refused(alloc, 3, text))
        }
        ParseFault::Shape(number) => {
            let text = shape_text(alloc, number)?;
            Ok(refused(alloc, 3, text))
        }
        ParseFault::Limit(which) => {
            let text = limit_text(alloc, which)?;
            Ok(refused(alloc, 9, text))
        }
        ParseFault::Memory => Err(AllocError),
    }
}

/// The reply to a whole text.
fn reply_to(alloc: Global, bytes: &[u8]) -> Result<Reply, AllocError>
    ensures { IfOk result (λ reply. headline.IsAnswered bytes.now reply.status reply.text.items reply.events) }
{
    match parse(alloc, bytes) {
        Ok(parsed) => {
            let reply = reply_to_accepted(alloc, bytes, parsed)?;
            Ok(reply)
        }
        Err(fault) => {
            let reply = reply_to_fault(alloc, bytes, fault)?;
            Ok(reply)
        }
    }
}

/// Hands a text to the sink, and the events to the caller where all of it was taken.
fn deliver<K: Sink>(
    alloc: Global,
    sink: &mut K,
    status: u8,
    text: &[u8],
    events: Listing<Event>,
) -> Done
    ensures delivered { headline.IsDelivered (K.taken sink.old) (K.taken sink.new) status text.now events result.status result.written result.events }
    ensures total { K.held sink.new ≡ K.held sink.old + result.written }
    ensures status { (result.status ≡ status) ⊎ (result.status ≡ 6) }
    ensures kept { (result.status ≡ 6 → ⊥) → result.status ≡ status }
    ensures fault { result.status ≡ 6 → (status ≡ 6) ⊎ Rose (K.faults sink.old) (K.faults sink.new) }
{
    match write_all(sink, text) {
        Ok(()) => Done {
            status,
            written: text.len() as u64,
            events,
        },
        Err(WriteFault { written }) => Done {
            status: 6,
            written,
            events: Listing::new(alloc),
        },
    }
}

/// Hands the text of a refusal to the sink.
fn refuse<K: Sink>(alloc: Global, sink: &mut K, status: u8, text: &[u8]) -> Done
    ensures delivered { headline.IsDelivered (K.taken sink.old) (K.taken sink.new) status text.now [] result.status result.written result.events }
    ensures total { K.held sink.new ≡ K.held sink.old + result.written }
    ensures status { (result.status ≡ status) ⊎ (result.status ≡ 6) }
    ensures kept { (result.status ≡ 6 → ⊥) → result.status ≡ status }
    ensures fault { result.status ≡ 6 → (status ≡ 6) ⊎ Rose (K.faults sink.old) (K.faults sink.new) }
{
    deliver(alloc, sink, status, text, Listing::new(alloc))
}

/// Hands a reply to the sink.
fn answer<K: Sink>(alloc: Global, sink: &mut K, reply: Reply) -> Done
    ensures delivered { headline.IsDelivered (K.taken sink.old) (K.taken sink.new) reply.status reply.text.items reply.events result.status result.written result.events }
    ensures total { K.held sink.new ≡ K.held sink.old + result.written }
    ensures status { (result.status ≡ reply.status) ⊎ (result.status ≡ 6) }
    ensures kept { (result.status ≡ 6 → ⊥) → result.status ≡ reply.status }
    ensures fault { result.status ≡ 6 → (reply.status ≡ 6) ⊎ Rose (K.faults sink.old) (K.faults sink.new) }
{
    let Reply {
        status,
        text,
        events,
    } = reply;
    deliver(alloc, sink, status, &text, events)
}

/// An end that writes nothing.
fn nothing(alloc: Global, status: u8) -> Done
    ensures status { result.status ≡ status }
    ensures written { result.written ≡ 0 }
    ensures events { result.events ≡ [] }
{
    Done {
        status,
        written: 0,
        events: Listing::new(alloc),
    }
}

/// Reads a program to its end, works on each of its goals, and writes the report.
///
/// The goals are cut into pieces on a board, at which one worker works: each goal has a piece by its slice after the last cut,
/// and one with all that stands before it as hypotheses. A piece is proved by the intervals of the variables, or all assignments
/// of its free bits are walked where these are at most 17 and no equation is too wide to be computed; else its clauses are
/// searched, or the claim of an algebraic goal is reduced. An input that refutes a goal is that of the first assignment of the
/// walk that denies it, that of a model of the clauses, or one of 256 that are tried. What was read has one row, whose text is
/// made whole before the first write.
pub fn solo_run<S: Source, K: Sink>(
    alloc: Global,
    words: &[String],
    source: &mut S,
    sink: &mut K,
) -> Done
    // The text of the one row that the words and the bytes have is written, or cut off at status 6.
    ensures row { headline.HasText result.status → headline.DeliversRow (length words.now) (S.left source.old) (S.left source.new) (S.given source.old) (S.given source.new) (K.taken sink.old) (K.taken sink.new) result.status result.written result.events }

    // Status 0: the program that was read is correct.
    ensures verified { result.status ≡ 0 → headline.IsVerified (S.left source.old) (S.left source.new) (S.given source.old) (S.given source.new) }

    // Words are refused before anything is read.
    ensures unread { 0 < length words.now → source.new ≡ source.old }
    ensures usage { 0 < length words.now → (result.status ≡ 8) ⊎ (result.status ≡ 6) }
    ensures beyond { (length words.now ≡ 0) → S.given source.old + headline.byte_limit < S.given source.new → (result.status ≡ 9) ⊎ (result.status ≡ 6) }

    // A fault has its cause, and out of memory writes nothing.
    ensures read_fault { result.status ≡ 5 → Rose (S.faults source.old) (S.faults source.new) }
    ensures write_fault { result.status ≡ 6 → Rose (K.faults sink.old) (K.faults sink.new) }
    ensures silent { headline.IsSilent result.status → (sink.new ≡ sink.old) × (result.written ≡ 0) × (result.events ≡ []) }

    ensures total { K.held sink.new ≡ K.held sink.old + result.written }
    ensures known { headline.is_status result.status ≡ true }
{
    if !words.is_empty() {
        return refuse(alloc, sink, 8, b"refused usage\n");
    }
    match read_all(alloc, source, BYTE_LIMIT) {
        Ok(bytes) => match reply_to(alloc, &bytes) {
            Ok(reply) => answer(alloc, sink, reply),
            Err(_) => nothing(alloc, 7),
        },
        Err(ReadEnd::TooLong) => refuse(alloc, sink, 9, b"refused limit bytes\n"),
        Err(ReadEnd::Fault) => nothing(alloc, 5),
        Err(ReadEnd::Memory) => nothing(alloc, 7),
    }
}
