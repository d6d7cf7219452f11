// The check of a whole program, line by line with one table of names.

ghost use Rattle.std.specs.Prelude.{◌≡◌, ℕ, length, IfOk, IsOk, MatchOption, MatchResult};
ghost use Rattle.tcl_lang.specs.Typing.{IsWellTyped, IsFirstIllTyped};
ghost use Rattle.tcl_types.specs.Fault.{IsTyped, IsIll, Says, Names};

use crate::fault::TypeFault;
use crate::reasons::reason_at;
use crate::table::Types;
use std::alloc::{AllocError, Global};
use tcl_lang::{Line, Parsed, Reason, Typed};

/// Finds that the program is well typed, or its first ill-typed line with the first reason of that line.
///
/// A line is judged by itself and the lines before it, whose definitions are in a table of the names: the time is linear
/// in the length of the program.
pub fn check(alloc: Global, parsed: Parsed) -> Result<Typed, TypeFault>
    ensures same { IfOk result (λ typed. typed ≡ parsed) }
    ensures well_typed { IsOk result → IsTyped parsed }
    ensures fault { MatchResult result (λ _. Unit {0}) (λ fault. Says parsed fault) }
    ensures accepts { IsTyped parsed → MatchResult result (λ _. Unit {0}) (λ fault. fault ≡ TypeFault.Memory) }
    ensures refuses { (n : ℕ) (reason : Reason) → IsIll parsed n reason → MatchResult result (λ _. ⊥) (λ fault. Names fault n reason) }
{
    let program = parsed.program();
    match first_ill_typed(alloc, program.names().len(), program.lines().as_slice()) {
        Err(_) => Err(TypeFault::Memory),
        Ok(None) => Ok(Typed::of(parsed)),
        Ok(Some(line)) => Err(TypeFault::Ill(*parsed.places().at(line.place), line.reason)),
    }
}

// An ill-typed line by its place, with its first reason.
#[derive(Clone, Copy)]
struct IllTyped {
    place: usize,
    reason: Reason,
}

fn first_ill_typed(
    alloc: Global,
    names: usize,
    lines: &[Line],
) -> Result<Option<IllTyped>, AllocError>
    ensures { IfOk result (λ found. MatchOption found (IsWellTyped names lines.now) (λ line. IsFirstIllTyped names lines.now line.place line.reason)) }
{
    let mut types = Types::new(alloc, names)?;
    for k in 0..lines.len() {
        let line = &lines[k];
        match reason_at(&types, line) {
            Some(reason) => return Ok(Some(IllTyped { place: k, reason })),
            None => types.define(line),
        }
    }
    Ok(None)
}
