//! The texts of refusals.

ghost use Rattle.std.specs.Prelude.{◌≡◌, ◌++◌, [], ◌∷◌, IfOk, codes};
ghost use Rattle.std.specs.Fmt.{decimal};
ghost use Rattle.tcl_top.specs.Headline as headline;
ghost use Rattle.tcl_top.specs.Words as words;

use std::alloc::{AllocError, Global};
use tcl_lang::Reason;
use tcl_report::{add, add_number};
use tcl_text::Limit;

/// The word of a limit.
fn word_of_limit(which: Limit) -> &'static str
    ensures { result.now ≡ words.word_of_limit which }
{
    match which {
        Limit::Nesting => "nesting",
        Limit::Operators => "operators",
        Limit::Exponent => "exponent",
        Limit::Instructions => "instructions",
        Limit::Variables => "variables",
        Limit::Goals => "goals",
    }
}

/// The word of a reason.
fn word_of_reason(reason: Reason) -> &'static str
    ensures { result.now ≡ words.word_of_reason reason }
{
    match reason {
        Reason::Kind => "kind",
        Reason::Amount => "amount",
        Reason::Undefined => "undefined",
        Reason::Literal => "literal",
        Reason::Mismatch => "mismatch",
        Reason::Repeated => "repeated",
        Reason::Modulus => "modulus",
    }
}

/// Words, a line number and a line feed.
fn numbered(alloc: Global, words: &str, number: u64) -> Result<Vec<u8>, AllocError>
    ensures { IfOk result (λ text. text.items ≡ words.now ++ (decimal number ++ 10 ∷ [])) }
{
    let mut text = Vec::new(alloc);
    add(&mut text, words.as_bytes())?;
    add_number(alloc, &mut text, number)?;
    add(&mut text, b"\n")?;
    Ok(text)
}

/// The refusal of a line outside the grammar.
pub(crate) fn text_text(alloc: Global, number: u64) -> Result<Vec<u8>, AllocError>
    ensures { IfOk result (λ text. text.items ≡ headline.text_text number) }
{
    numbered(alloc, "refused text line ", number)
}

/// The refusal of a line out of its place.
pub(crate) fn shape_text(alloc: Global, number: u64) -> Result<Vec<u8>, AllocError>
    ensures { IfOk result (λ text. text.items ≡ headline.shape_text number) }
{
    numbered(alloc, "refused shape line ", number)
}

/// The refusal by a limit other than that of bytes.
#[tactic(auto, using(crate::proofs::TextLemmas::joined))]
pub(crate) fn limit_text(alloc: Global, which: Limit) -> Result<Vec<u8>, AllocError>
    ensures { IfOk result (λ text. text.items ≡ headline.limit_text (words.word_of_limit which)) }
{
    let mut text = Vec::new(alloc);
    add(&mut text, b"refused limit ")?;
    add(&mut text, word_of_limit(which).as_bytes())?;
    add(&mut text, b"\n")?;
    Ok(text)
}

/// The refusal of an ill-typed line.
#[tactic(auto, using(crate::proofs::TextLemmas::joined))]
pub(crate) fn type_text(alloc: Global, number: u64, reason: Reason) -> Result<Vec<u8>, AllocError>
    ensures { IfOk result (λ text. text.items ≡ headline.type_text number reason) }
{
    let mut text = Vec::new(alloc);
    add(&mut text, b"refused type line ")?;
    add_number(alloc, &mut text, number)?;
    add(&mut text, b" ")?;
    add(&mut text, word_of_reason(reason).as_bytes())?;
    add(&mut text, b"\n")?;
    Ok(text)
}
