//! Evidence, and what a worker gives.

use tcl_goals::{Cause, Lemma, Numbered, Shown};
use tcl_list::Listing;

/// Evidence of a fact or of a counterexample. It cannot be copied.
///
/// For contracts it tells of which program it speaks, whether it stands alone, that is rests on no other evidence but the
/// lemmas that it cites, and which causes are true of a piece by a budget.
pub trait Evidence: Drop {
    ghost use Rattle.std.specs.Prelude.{◌≡◌, ℕ, Bool, List, Option, option_copied};
    ghost use Rattle.tcl_lang.specs.Program.{VersionedProgram};
    ghost use Rattle.tcl_goals.specs.declared.lemma.Numbered.{Numbered};
    ghost use Rattle.tcl_goals.specs.declared.piece.Shown.{Shown};
    ghost use Rattle.tcl_goals.specs.declared.piece.Piece.{Piece};
    ghost use Rattle.tcl_goals.specs.declared.cause.Cause.{Cause};
    ghost use Rattle.tcl_goals.specs.LemmaList.{lemma_of};
    ghost use Rattle.tcl_board.specs.Shows.{ShownHolds, AreCited, NoModel, NamesOwn, StraysFit};

    ghost program: { Self → VersionedProgram };

    ghost shows: { Self → Shown };

    ghost cited: { Self → List Numbered };

    ghost alone: { Self → Bool };

    ghost causes: { VersionedProgram → ℕ → Piece → Cause → Type 0 };

    /// What is shown.
    fn shown(&self) -> &Shown
        ensures shown { result.now ≡ shows self.now }
        ensures holds { ShownHolds (program self.now) (cited self.now) (shows self.now) }
        ensures cited { AreCited (cited self.now) (shows self.now) };

    /// The lemma of this number that the shown fact cites.
    fn cites(&self, number: u32) -> Option<&Lemma>
        ensures { option_copied result ≡ lemma_of (cited self.now) number };

    ghost whole: { NoModel causes };

    ghost names: { NamesOwn causes };

    ghost strays: { StraysFit causes };
}

/// What a worker gives.
pub enum Outcome<E: Evidence> {
    Shown(E),
    Lemma(E),
    Ended(Cause),
}

impl<E: Evidence> Drop for Outcome<E> {
    fn drop(self) {
        match self {
            Outcome::Shown(evidence) => drop(evidence),
            Outcome::Lemma(evidence) => drop(evidence),
            Outcome::Ended(cause) => drop(cause),
        }
    }
}

/// What contracts see of it: evidence is what it shows and the lemmas that it cites.
#[derive(Drop)]
pub enum Seen {
    Shown(Shown, Listing<Numbered>),
    Lemma(Shown, Listing<Numbered>),
    Ended(Cause),
}
