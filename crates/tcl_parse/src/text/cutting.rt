// The longest token at the front of bytes.

ghost use Rattle.std.specs.Prelude.{◌≡◌, ◌≤◌, length, IfOk};
ghost use Rattle.std.specs.List.{prefix_len};
ghost use Rattle.tcl_text.specs.Tokens as tokens;

use crate::text::digits::{digit_count, is_digit, number_of};
use crate::text::pieces::front;
use crate::text::symbols::symbol_cut;
use std::alloc::{AllocError, Global};
use tcl_list::Listing;
use tcl_text::{Cut, Raw};

/// Bytes of a word behind its first one.
const MORE_WORD_BYTES: usize = 63;

/// A byte that a word may begin with.
fn is_word_start(byte: u8) -> bool
    ensures { result ≡ tokens.is_word_start byte }
{
    byte.is_ascii_alphabetic() || byte == b'_'
}

/// A byte that a word may go on with.
fn is_word_byte(byte: u8) -> bool
    ensures { result ≡ tokens.is_word_byte byte }
{
    byte.is_ascii_alphabetic() || byte == b'_' || is_digit(byte)
}

/// How many bytes at the front may stand in a word.
fn word_length(bytes: &[u8]) -> usize
    ensures length { result ≡ prefix_len tokens.is_word_byte bytes.now }
    ensures within { result ≤ length bytes.now }
{
    let mut length = 0;
    for byte in bytes {
        if !is_word_byte(*byte) {
            return length;
        }
        length += 1;
    }
    length
}

/// A word of at most 64 bytes.
#[tactic(auto, unfolding(tcl_text::specs::Tokens::word_cut))]
fn word_cut(alloc: Global, first: u8, others: &[u8]) -> Result<Option<Cut>, AllocError>
    ensures cut { IfOk result (λ cut. cut ≡ tokens.word_cut first others.now) }
    ensures within { IfOk result (λ cut. tokens.more_of cut ≤ length others.now) }
{
    let more = word_length(others);
    if MORE_WORD_BYTES < more {
        return Ok(None);
    }
    let mut word = Vec::new(alloc);
    word.push(first)?;
    word.extend_from_slice(front(others, more))?;
    Ok(Some(Cut {
        token: Raw::Word(Listing::from_vec(word)),
        more,
    }))
}

/// A number up to `2^127 - 1`.
#[tactic(auto, unfolding(tcl_text::specs::Tokens::number_cut))]
fn number_cut(first: u8, others: &[u8]) -> Option<Cut>
    ensures cut { result ≡ tokens.number_cut first others.now }
    ensures within { tokens.more_of result ≤ length others.now }
{
    let more = digit_count(others);
    match number_of(first, front(others, more)) {
        Some(number) => Some(Cut {
            token: Raw::Number(number),
            more,
        }),
        None => None,
    }
}

/// The token that begins with the byte `first`, if it is allowed.
#[tactic(auto, unfolding(tcl_text::specs::Tokens::cut_of))]
pub(crate) fn cut_of(alloc: Global, first: u8, others: &[u8]) -> Result<Option<Cut>, AllocError>
    ensures cut { IfOk result (λ cut. cut ≡ tokens.cut_of first others.now) }
    ensures within { IfOk result (λ cut. tokens.more_of cut ≤ length others.now) }
{
    if is_word_start(first) {
        word_cut(alloc, first, others)
    } else if is_digit(first) {
        Ok(number_cut(first, others))
    } else {
        Ok(symbol_cut(first, others))
    }
}
