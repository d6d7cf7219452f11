//! The work on a piece.

ghost use Rattle.std.specs.Prelude.{◌≡◌, ◌≤◌, ◌<◌, ◌^◌, ◌-◌, ◌*◌, [], None, IfOk, IfSome};
ghost use Rattle.tcl_port.specs.Polling.{Rose};
ghost use Rattle.tcl_lang.specs.Form.{IsWellFormed};
ghost use Rattle.tcl_goals.specs.Plans.{IsPiece, piece_fact};
ghost use Rattle.tcl_board.specs.Own.{AreGiven};
ghost use Rattle.tcl_board.specs.Judging.{OutcomeSpeaks};
ghost use Rattle.tcl_board.specs.Sight.{seen_of};
ghost use Rattle.tcl_gate.specs.Fits.{FitsPiece};
ghost use Rattle.tcl_kernel.specs.Causes.{IsTrueCause};
ghost use Rattle.tcl_worker.specs.Outcomes.{IsComplete, IsOutcome, IsPieceFact, ObeysRules, seen_in, steps_of};
ghost use Rattle.tcl_worker.specs.Worked.{IsWorked, KeepsRules, steps_told};
ghost use Rattle.tcl_worker.specs.declared.worked.Worked.TheVariants.{Stopped};

use crate::facts::{fact_of, nothing_shown};
use crate::models::modelled;
use crate::outcomes::{ended, failed};
use crate::walking::worked;
use crate::worked::Worked;
use std::alloc::{AllocError, Global};
use tcl_board::{Evidence, Outcome};
use tcl_goals::{Fact, Lemmas, Piece};
use tcl_kernel::{Facts, Proof};
use tcl_lang::Ssa;
use tcl_port::Port;

/// What comes of a piece by these lemmas: the kernel's proof of its fact, of a lemma, or of an input that breaks a goal, or the
/// cause with which it ends. There is an answer unless the port cancels.
///
/// First the intervals are tried, then the assignments of at most 20 free bits are walked, as many as the budget allows. An
/// algebraic claim is reduced. The clauses of a range or exactness claim are searched, where they are not too many. Where more
/// lemmas are wanted, the highest bits of the claim's variables are tried before that, each with the value 0 and then 1, by at
/// most `budget` and at most 256 derived clauses: the first that is shown, and is no lemma yet, is the answer. One that a run
/// from a trial input denies, in which the hypotheses hold, is not searched. Else the clauses are searched by at most `budget`
/// derived clauses, with all the lemmas among the hypotheses where there are some and the clauses are not too many with them,
/// and where this gives no proof without them. The port is polled before each 1,000 derived clauses, and before a reduction.
/// The only error is that memory has run out.
pub fn work<P: Port>(
    alloc: Global,
    ssa: &Ssa,
    piece: &Piece,
    lemmas: &Lemmas,
    port: &mut P,
    budget: u32,
) -> Result<Option<Outcome<Proof>>, AllocError>
    requires piece { IsPiece ssa.now piece.now }
    requires lemmas { AreGiven ssa.now piece.now.goal lemmas.now.items }
    requires budget { 0 < budget }
    ensures speaks { IfOk result (λ given. IfSome given (λ outcome. OutcomeSpeaks ssa.now ⟦<Proof as Evidence>⟧.program ⟦<Proof as Evidence>⟧.alone outcome)) }
    ensures fits { IfOk result (λ given. IfSome given (λ outcome. FitsPiece ⟦<Proof as Evidence>⟧.causes ssa.now budget piece.now lemmas.now (seen_of ⟦<Proof as Evidence>⟧.shows ⟦<Proof as Evidence>⟧.cited outcome))) }
    ensures none { IfOk result (λ given. given ≡ None → Rose (P.cancels port.old) (P.cancels port.new)) }
    ensures complete { IfOk result (λ given. IfSome given (λ outcome. IsComplete ssa.now budget piece.now (seen_of ⟦<Proof as Evidence>⟧.shows ⟦<Proof as Evidence>⟧.cited outcome))) }
    // The fact that is shown is that of the piece, or that with all the lemmas among its hypotheses.
    ensures fact { IfOk result (λ given. IfSome given (λ outcome. IsPieceFact ssa.now piece.now lemmas.now (seen_of ⟦<Proof as Evidence>⟧.shows ⟦<Proof as Evidence>⟧.cited outcome))) }
    // A lemma comes by the rules, and no other outcome comes where one is to be made.
    ensures rules { IfOk result (λ given. IfSome given (λ outcome. ObeysRules ssa.now budget piece.now lemmas.now (seen_of ⟦<Proof as Evidence>⟧.shows ⟦<Proof as Evidence>⟧.cited outcome))) }
    // As long as the count of polls does not reach its end, a spent budget has at most 1,000 steps for each poll.
    ensures polled { IfOk result (λ given. IfSome given (λ outcome. P.polls port.new < 2 ^ 64 - 1 → steps_of (seen_of ⟦<Proof as Evidence>⟧.shows ⟦<Proof as Evidence>⟧.cited outcome) ≤ 1000 * (P.polls port.new - P.polls port.old))) }
{
    let _form = ssa.lines();
    let fact = fact_of(alloc, ssa, piece)?;
    let earlier = nothing_shown(alloc, ssa)?;
    let worked = worked(alloc, ssa, &earlier, lemmas, &fact, port, budget)?;
    let outcome = outcome_of(alloc, ssa, &earlier, piece, lemmas, &fact, budget, worked)?;
    Ok(outcome)
}

/// The outcome of a piece that the work on its fact left with this end; none where that was stopped.
fn outcome_of(
    alloc: Global,
    ssa: &Ssa,
    earlier: &Facts,
    piece: &Piece,
    _lemmas: &Lemmas,
    fact: &Fact,
    budget: u32,
    worked: Worked,
) -> Result<Option<Outcome<Proof>>, AllocError>
    requires earlier { earlier.now ≡ record { program = ssa.now; lemmas = []; facts = [] } }
    requires formed { IsWellFormed ssa.now }
    requires piece { IsPiece ssa.now piece.now }
    requires fact { fact.now ≡ piece_fact ssa.now piece.now }
    requires worked { IsWorked ssa.now budget _lemmas.now.items (piece_fact ssa.now piece.now) worked }
    requires rules { KeepsRules ssa.now budget _lemmas.now (piece_fact ssa.now piece.now) worked }
    ensures outcome { IfOk result (λ given. IfSome given (λ outcome. IsOutcome ssa.now budget piece.now _lemmas.now outcome)) }
    ensures rules { IfOk result (λ given. IfSome given (λ outcome. ObeysRules ssa.now budget piece.now _lemmas.now (seen_in outcome))) }
    ensures none { IfOk result (λ given. given ≡ None → worked ≡ Stopped) }
    ensures steps { IfOk result (λ given. IfSome given (λ outcome. steps_of (seen_in outcome) ≤ steps_told worked)) }
{
    match worked {
        Worked::Proved(proof) => Ok(Some(Outcome::Shown(proof))),
        Worked::Lemma(proof) => Ok(Some(Outcome::Lemma(proof))),
        Worked::Fails(input) => {
            let outcome = failed(alloc, ssa, piece, budget, input)?;
            Ok(Some(outcome))
        }
        Worked::Model(bits) => {
            let outcome = modelled(alloc, ssa, earlier, piece, fact, budget, &bits)?;
            Ok(Some(outcome))
        }
        Worked::Open(cause) => {
            let outcome = ended(alloc, ssa, piece, budget, cause)?;
            Ok(Some(outcome))
        }
        Worked::Stopped => Ok(None),
    }
}
