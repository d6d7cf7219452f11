//! What a worker does for a piece.

use std::alloc::{AllocError, Global};
use tcl_board::{Evidence, Outcome};
use tcl_goals::{Lemmas, Piece};
use tcl_lang::Ssa;
use tcl_port::Port;

/// The work on the pieces of one program by one budget.
pub trait Job<E: Evidence> {
    ghost use Rattle.std.specs.Prelude.{◌≡◌, ℕ, None, IfOk, IfSome};
    ghost use Rattle.tcl_lang.specs.Program.{VersionedProgram};
    ghost use Rattle.tcl_goals.specs.Plans.{IsPiece};
    ghost use Rattle.tcl_port.specs.Polling.{Rose};
    ghost use Rattle.tcl_board.specs.Own.{AreGiven};
    ghost use Rattle.tcl_board.specs.Judging.{OutcomeSpeaks};
    ghost use Rattle.tcl_board.specs.Sight.{seen_of};
    ghost use Rattle.tcl_gate.specs.Fits.{FitsPiece};

    ghost program: { Self → VersionedProgram };

    ghost limit: { Self → ℕ };

    /// The program.
    fn ssa(&self) -> &Ssa
        ensures { result.now ≡ program self.now };

    /// How many steps a search may take.
    fn budget(&self) -> u32
        ensures { result ≡ limit self.now };

    /// What comes of a piece by these lemmas. There is an answer unless the port cancels. The only error is that memory has run
    /// out.
    fn work<P: Port>(
        &self,
        alloc: Global,
        piece: &Piece,
        lemmas: &Lemmas,
        port: &mut P,
    ) -> Result<Option<Outcome<E>>, AllocError>
        requires piece { IsPiece (program self.now) piece.now }
        requires lemmas { AreGiven (program self.now) piece.now.goal lemmas.now.items }
        ensures speaks { IfOk result (λ given. IfSome given (λ outcome. OutcomeSpeaks (program self.now) E.program E.alone outcome)) }
        ensures fits { IfOk result (λ given. IfSome given (λ outcome. FitsPiece E.causes (program self.now) (limit self.now) piece.now lemmas.now (seen_of E.shows E.cited outcome))) }
        ensures none { IfOk result (λ given. given ≡ None → Rose (P.cancels port.old) (P.cancels port.new)) };
}
