//! The lemmas that a fact cites.

ghost use Rattle.std.specs.Prelude.{◌≡◌, IfOk};
ghost use Rattle.tcl_board.specs.Shows as shows;
ghost use Rattle.tcl_kernel.specs.Cited as cited;

use std::alloc::{AllocError, Global};
use tcl_goals::{Hyp, Numbered};
use tcl_list::{Copies, Listing};

/// Copies of those lemmas that the hypotheses cite. The only error is that memory has run out.
#[tactic(auto, unfolding(crate::specs::Cited::cited_lemmas))]
pub(crate) fn cited_lemmas(
    alloc: Global,
    hyps: &[Hyp],
    lemmas: &[Numbered],
) -> Result<Listing<Numbered>, AllocError>
    ensures { IfOk result (λ found. found ≡ cited.cited_lemmas hyps.now lemmas.now) }
{
    let mut found = Listing::new(alloc);
    for k in 0..lemmas.len() {
        if cites(hyps, lemmas[k].number) {
            found.push(lemmas[k].copy_in(alloc)?)?;
        }
    }
    Ok(found)
}

/// Whether one of the hypotheses is the lemma of this number.
fn cites(hyps: &[Hyp], number: u32) -> bool
    ensures { result ≡ cited.cites hyps.now number }
{
    hyps.iter().any(|hyp| is_lemma(number, hyp))
}

/// Whether the hypothesis is the lemma of this number.
fn is_lemma(number: u32, hyp: &Hyp) -> bool
    ensures { result ≡ shows.is_lemma number hyp.now }
{
    match hyp {
        Hyp::Line(_) => false,
        Hyp::Lemma(other) => *other == number,
    }
}
