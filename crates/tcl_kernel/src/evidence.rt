//! Proofs as the evidence of a board.

ghost use Rattle.std.specs.Prelude.{◌≡◌, option_copied};
ghost use Rattle.tcl_goals.specs.LemmaList.{lemma_of};

use crate::proof::Proof;
use tcl_board::Evidence;
use tcl_goals::{Lemma, Numbered, Shown};

impl Evidence for Proof {
    ghost use Rattle.tcl_kernel.specs.Causes.{IsTrueCause};
    ghost use Rattle.tcl_kernel.specs.CauseNames.{no_model, names_own, strays_fit};

    ghost program = { λ p. p.program };

    ghost shows = { λ p. p.shown };

    ghost cited = { λ p. p.cited };

    ghost alone = { λ p. p.alone };

    ghost causes = { IsTrueCause };

    fn shown(&self) -> &Shown {
        Proof::shown(self)
    }

    fn cites(&self, number: u32) -> Option<&Lemma> {
        lemma_in(self.cited().as_slice(), number)
    }

    ghost whole = { no_model };

    ghost names = { names_own };

    ghost strays = { strays_fit };
}

/// The lemma of a number.
#[tactic(auto, unfolding(tcl_goals::specs::LemmaList::lemma_of))]
fn lemma_in(lemmas: &[Numbered], number: u32) -> Option<&Lemma>
    ensures { option_copied result ≡ lemma_of lemmas.now number }
{
    for k in 0..lemmas.len() {
        if lemmas[k].number == number {
            return Some(&lemmas[k].lemma);
        }
    }
    None
}
