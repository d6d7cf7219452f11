// The call that reads a text.

ghost use Rattle.std.specs.Prelude.{◌≡◌, ◌≢◌, length, IfErr, IfOk, MatchResult, None, Some};
ghost use Rattle.tcl_lang.specs.Limit.{KeepsLimits};
ghost use Rattle.tcl_lang.specs.Program.{ReadProgram};
ghost use Rattle.tcl_lang.specs.Shape.{HasShape};
ghost use Rattle.tcl_text.specs.Reading.{Reads, program_of};
ghost use Rattle.tcl_parse.specs.TextLimits as limits;
ghost use Rattle.tcl_parse.specs.TextProgress.{progress_of};
ghost use Rattle.tcl_parse.specs.TextRefusals.{Says, IsAnswer, IsOrMemory, refusal_of as refusal_spec};

use crate::fault::ParseFault;
use crate::text::limits::exceeded_limit;
use crate::text::progress::Progress;
use crate::text::reading::read;
use std::alloc::Global;
use tcl_lang::Parsed;
use tcl_text::{LineFault, TextFault};

/// Reads the text of a program.
///
/// Each refusal is that of the first faulty line, numbered from 1. Within a line bytes and tokens are looked at first, then
/// brackets, operators, the grammar, exponents and the line's place. The numbers of instructions, definitions and goals are
/// counted, in this order, behind the last line. The time is linear in the length of the text.
pub fn parse(alloc: Global, bytes: &[u8]) -> Result<Parsed, ParseFault>
    ensures reads { IfOk result (λ p. Reads bytes.now p) }
    ensures limits { IfOk result (λ p. KeepsLimits p.program.lines) }
    ensures fault { IfErr result (λ fault. Says bytes.now fault) }
    ensures accepts { (p : ReadProgram) → Reads bytes.now p → KeepsLimits p.program.lines →
        MatchResult result (λ q. q ≡ p) (λ fault. fault ≡ ParseFault.Memory) }
    ensures refuses { (fault : ParseFault) → fault ≢ ParseFault.Memory → Says bytes.now fault →
        MatchResult result (λ _. ⊥) (λ answer. IsOrMemory answer fault) }
{
    let mut progress = Progress::start(alloc);
    match read(&mut progress, alloc, bytes) {
        Ok(Ok(())) => {
            let answer = program_of_text(&mut progress, alloc);
            drop(progress);
            answer
        }
        Ok(Err(fault)) => {
            drop(progress);
            Err(refusal_of(fault))
        }
        Err(_) => {
            drop(progress);
            Err(ParseFault::Memory)
        }
    }
}

/// The refusal of a text by the fault of its first faulty line.
fn refusal_of(fault: TextFault) -> ParseFault
    ensures { result ≡ refusal_spec fault }
{
    match fault {
        TextFault::Line(number, LineFault::Text) => ParseFault::Text(number),
        TextFault::Line(_, LineFault::Limit(limit)) => ParseFault::Limit(limit),
        TextFault::Shape(number) => ParseFault::Shape(number),
    }
}

/// The program that was read, or the first limit that it exceeds. Afterwards the progress means nothing.
fn program_of_text(progress: &mut Progress, alloc: Global) -> Result<Parsed, ParseFault>
    requires shape { HasShape progress.old.names progress.old.lines }
    requires numbers { length progress.old.places ≡ length progress.old.lines }
    ensures { MatchResult result
        (λ p. (p ≡ program_of (progress_of progress.old)) × (limits.exceeded_limit progress.old.lines ≡ None))
        (IsAnswer (limits.exceeded_limit progress.old.lines)) }
{
    match exceeded_limit(progress.lines.as_slice()) {
        Some(limit) => Err(ParseFault::Limit(limit)),
        None => match progress.program(alloc) {
            Ok(parsed) => Ok(parsed),
            Err(_) => Err(ParseFault::Memory),
        },
    }
}
