// The lines of a text.

ghost use Rattle.std.specs.Prelude.{◌≡◌, ◌<◌, ◌≤◌, [], ◌∷◌, length, IfSome, MatchOption};
ghost use Rattle.tcl_text.specs.Lines as lines;

use crate::text::pieces::{behind, front};

/// The first line, without its end, and what stands behind it.
pub(crate) fn split_line(bytes: &[u8]) -> Option<(&[u8], &[u8])>
    ensures pieces { MatchOption result (lines.lines_of bytes.now ≡ [])
        (λ r. lines.lines_of bytes.now ≡ r.0.now ∷ lines.lines_of r.1.now) }
    ensures shorter { IfSome result (λ r. length r.1.now < length bytes.now) }
{
    if bytes.is_empty() {
        return None;
    }
    let length = line_length(bytes);
    if length == bytes.len() {
        return Some((bytes, behind(bytes, length)));
    }
    Some((
        without_return(front(bytes, length)),
        behind(bytes, length + 1),
    ))
}

/// How many bytes stand before the end of the first line.
fn line_length(bytes: &[u8]) -> usize
    ensures length { result ≡ lines.line_length bytes.now }
    ensures within { result ≤ length bytes.now }
{
    let mut length = 0;
    for byte in bytes {
        if *byte == b'\n' {
            return length;
        }
        length += 1;
    }
    length
}

/// A line without the carriage return that ends it.
fn without_return(line: &[u8]) -> &[u8]
    ensures { result.now ≡ lines.without_return line.now }
{
    match line.split_last() {
        Some((b'\r', before)) => before,
        _ => line,
    }
}
