// A whole text, line by line.

ghost use Rattle.std.specs.Prelude.{◌≡◌, IfOk, MatchResult};
ghost use Rattle.tcl_text.specs.Reading as text;
ghost use Rattle.tcl_parse.specs.TextProgress.{progress_of, IsWhole};

use crate::text::lines::split_line;
use crate::text::progress::Progress;
use std::alloc::{AllocError, Global};
use tcl_text::TextFault;

/// Reads the lines of a text, from nothing read, or finds its first fault.
pub(crate) fn read(
    progress: &mut Progress,
    alloc: Global,
    bytes: &[u8],
) -> Result<Result<(), TextFault>, AllocError>
    requires { progress_of progress.old ≡ text.start }
    ensures { IfOk result (λ verdict. MatchResult verdict (λ _. IsWhole bytes.now progress.new) (text.FirstFault bytes.now)) }
{
    let mut rest = bytes;
    while let Some((line, behind)) = split_line(rest) {
        if let Err(fault) = progress.step(alloc, line)? {
            return Ok(Err(fault));
        }
        rest = behind;
    }
    if progress.is_open() {
        return Ok(Err(TextFault::Shape(progress.number)));
    }
    Ok(Ok(()))
}
