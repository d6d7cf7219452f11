//! The evidence of the tests.

ghost use Rattle.std.specs.Prelude.{◌≡◌, IfSome, option_copied};
ghost use Rattle.std.specs.List.{list_all, list_any};
ghost use Rattle.tcl_goals.specs.LemmaList.{lemma_of};
ghost use Rattle.tcl_board.specs.Shows as shows;

use std::marker::Model;
use tcl_board::Evidence;
use tcl_goals::{Hyp, Lemma, Numbered, Shown};
use tcl_kernel::Proof;

/// A proof of the kernel that keeps no lemma but those that its fact cites.
#[derive(Drop)]
pub struct Witness {
    proof: Proof,
}

impl Model for Witness {
    ghost use Rattle.tcl_lang.specs.contracts.term.Term as term;
    ghost use Rattle.tcl_lang.specs.contracts.range.RngTerm as range_term;
    ghost use Rattle.tcl_lang.specs.contracts.range.RngPred as range_pred;
    ghost use Rattle.std.specs.Coded.{codes};
    ghost use Rattle.tcl_kernel.specs.Shown.{ProofContent};
    ghost use Rattle.tcl_board.specs.Shows.{AreCited};

    ghost Value = { ProofContent };

    ghost coded = { Prim.hlevel (codes, term.the_row.coded, range_term.the_row.coded, range_pred.the_row.coded) };

    ghost view = { λ w. w.proof };

    ghost invariant = { λ w. AreCited w.proof.cited w.proof.shown };
}

/// Whether the hypothesis is the lemma of this number.
fn is_lemma(number: u32, hyp: &Hyp) -> bool
    ensures { result ≡ shows.is_lemma number hyp.now }
{
    match hyp {
        Hyp::Line(_) => false,
        Hyp::Lemma(cited) => *cited == number,
    }
}

/// Whether one of the hypotheses is the lemma of this number.
fn has_lemma(hyps: &[Hyp], number: u32) -> bool
    ensures { result ≡ list_any (shows.is_lemma number) hyps.now }
{
    hyps.iter().any(|hyp| is_lemma(number, hyp))
}

/// Whether the lemma of this number is cited.
fn cites(shown: &Shown, number: u32) -> bool
    ensures { result ≡ shows.cites shown.now number }
{
    match shown {
        Shown::Fact(fact) => has_lemma(fact.hyps.as_slice(), number),
        Shown::Breaks(_, _) => false,
    }
}

/// Whether each of the lemmas is cited.
fn are_cited(cited: &[Numbered], shown: &Shown) -> bool
    ensures { result ≡ list_all (λ m. shows.cites shown.now m.number) cited.now }
{
    cited.iter().all(|lemma| cites(shown, lemma.number))
}

/// The lemma of a number.
#[tactic(auto, unfolding(tcl_goals::specs::LemmaList::lemma_of))]
fn lemma_in(lemmas: &[Numbered], number: u32) -> Option<&Lemma>
    ensures { option_copied result ≡ lemma_of lemmas.now number }
{
    for k in 0..lemmas.len() {
        if lemmas[k].number == number {
            return Some(&lemmas[k].lemma);
        }
    }
    None
}

impl Witness {
    /// The proof as evidence, where it keeps no lemma but those that its fact cites.
    pub fn of(proof: Proof) -> Option<Self>
        ensures { IfSome result (λ w. w ≡ proof) }
    {
        if !are_cited(proof.cited().as_slice(), proof.shown()) {
            return None;
        }
        Some(Witness { proof })
    }
}

impl Evidence for Witness {
    ghost use Rattle.std.specs.Prelude.{true};
    ghost use Rattle.tests_board.specs.TestCauses.{test_causes, no_model, names_own, strays_fit};

    ghost program = { λ w. w.program };

    ghost shows = { λ w. w.shown };

    ghost cited = { λ w. w.cited };

    ghost alone = { λ w. true };

    ghost causes = { test_causes };

    fn shown(&self) -> &Shown {
        self.proof.shown()
    }

    fn cites(&self, number: u32) -> Option<&Lemma> {
        lemma_in(self.proof.cited().as_slice(), number)
    }

    ghost whole = { no_model };

    ghost names = { names_own };

    ghost strays = { strays_fit };
}
