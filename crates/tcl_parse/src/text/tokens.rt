// The tokens of a line by their bytes.

ghost use Rattle.std.specs.Prelude.{◌≡◌, IfOk};
ghost use Rattle.tcl_text.specs.Tokens as tokens;

use crate::text::cutting::cut_of;
use crate::text::pieces::{behind, first_of};
use std::alloc::{AllocError, Global};
use tcl_list::Listing;
use tcl_text::Raw;

/// A space or a tab.
fn is_blank(byte: u8) -> bool
    ensures { result ≡ tokens.is_blank byte }
{
    byte == b' ' || byte == b'\t'
}

/// None where a byte or a token is not allowed.
pub(crate) fn raws_of(alloc: Global, line: &[u8]) -> Result<Option<Listing<Raw>>, AllocError>
    ensures { IfOk result (λ raws. raws ≡ tokens.raws_of line.now) }
{
    let mut raws = Listing::new(alloc);
    let mut rest = line;
    while let Some((first, others)) = first_of(rest) {
        if is_blank(first) {
            rest = others;
            continue;
        }
        if first == b'#' {
            return Ok(Some(raws));
        }
        let Some(cut) = cut_of(alloc, first, others)? else {
            return Ok(None);
        };
        raws.push(cut.token)?;
        rest = behind(others, cut.more);
    }
    Ok(Some(raws))
}
