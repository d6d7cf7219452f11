//! The fact of a piece.

ghost use Rattle.std.specs.Prelude.{◌≡◌, [], IfOk};
ghost use Rattle.tcl_goals.specs.Order.{InOrder};
ghost use Rattle.tcl_goals.specs.Plans.{IsPiece, piece_fact};
ghost use Rattle.tcl_goals.specs.Slices.{route_fact};

use std::alloc::{AllocError, Global};
use tcl_goals::{Fact, Lemmas, Piece, Route};
use tcl_kernel::Facts;
use tcl_lang::Ssa;
use tcl_slice::{slice, whole};

/// The fact of a piece: that of its route, under its cube. The only error is that memory has run out.
#[tactic(auto, unfolding(tcl_goals::specs::Plans::piece_fact))]
pub(crate) fn fact_of(alloc: Global, ssa: &Ssa, piece: &Piece) -> Result<Fact, AllocError>
    requires { IsPiece ssa.now piece.now }
    ensures fact { IfOk result (λ fact. fact ≡ piece_fact ssa.now piece.now) }
    ensures order { IfOk result (λ fact. InOrder ssa.now [] fact) }
{
    let _form = ssa.lines();
    let Fact {
        claim,
        hyps,
        uses,
        ..
    } = route_fact(alloc, ssa, piece)?;
    Ok(Fact {
        claim,
        hyps,
        cube: piece.cube.copy()?,
        uses,
    })
}

/// The fact of the route of a piece.
fn route_fact(alloc: Global, ssa: &Ssa, piece: &Piece) -> Result<Fact, AllocError>
    requires { IsPiece ssa.now piece.now }
    ensures { IfOk result (λ fact. fact ≡ route_fact ssa.now piece.now.goal piece.now.route) }
{
    match piece.route {
        Route::Cut => slice(alloc, ssa, piece.goal),
        Route::Whole => whole(alloc, ssa, piece.goal),
    }
}

/// What is shown where nothing was shown before, and no lemma is cited. The only error is that memory has run out.
pub(crate) fn nothing_shown(alloc: Global, ssa: &Ssa) -> Result<Facts, AllocError>
    ensures { IfOk result (λ facts. facts ≡ record { program = ssa.now; lemmas = []; facts = [] }) }
{
    let none = Lemmas::new(alloc);
    Facts::of(alloc, ssa, &none)
}
