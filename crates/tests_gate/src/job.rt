//! A job that does for each piece what a list says.

ghost use Rattle.std.specs.Prelude.{◌≡◌, true, IfOk};
ghost use Rattle.tcl_goals.specs.Places.{has_goal};
ghost use Rattle.tests_gate.specs.Gifts.{IsGift};

use crate::giving::{broken, lemma, proved, spent};
use std::alloc::{AllocError, Global};
use tcl_board::Outcome;
use tcl_gate::Job;
use tcl_goals::{Lemmas, Piece};
use tcl_lang::Ssa;
use tcl_list::Listing;
use tcl_port::{Poll, Port};
use tests_board::{BUDGET, Witness};

/// The end of the work on a piece.
#[derive(Clone, Copy, PartialEq, Eq)]
pub enum Then {
    /// Its goal is proved by all lemmas that are given.
    Prove,
    /// The goal of this number is broken by an input of this one value.
    Break(u32, i128),
    /// The budget is spent.
    End,
    /// Memory has run out.
    Fail,
}

/// What is done for a piece: as long as fewer lemmas than this are given and more are wanted, one of the level is made; then
/// the work ends.
#[derive(Clone, Copy, PartialEq, Eq)]
pub struct Deed {
    pub lemmas: u32,
    pub level: u32,
    pub then: Then,
}

/// A program, and what is done for each of its pieces by their numbers; for a piece without a deed the budget is spent.
#[derive(Drop)]
pub struct Script {
    ssa: Ssa,
    deeds: Listing<Deed>,
}

impl Script {
    /// The job by these deeds.
    pub fn new(ssa: Ssa, deeds: Listing<Deed>) -> Self
        ensures { result.ssa ≡ ssa }
    {
        Script { ssa, deeds }
    }

    /// What is done for the piece.
    fn deed_of(&self, piece: &Piece) -> Deed {
        match self.deeds.as_slice().get(piece.number as usize) {
            Some(deed) => *deed,
            None => Deed {
                lemmas: 0,
                level: 0,
                then: Then::End,
            },
        }
    }

    /// The end of the work on the piece.
    fn ended(
        &self,
        alloc: Global,
        piece: &Piece,
        lemmas: &Lemmas,
        then: Then,
    ) -> Result<Outcome<Witness>, AllocError>
        requires { has_goal self.now.ssa.lines piece.now.goal ≡ true }
        ensures { IfOk result (λ given. IsGift self.now.ssa piece.now lemmas.now given) }
    {
        match then {
            Then::Prove => proved(alloc, &self.ssa, piece, lemmas),
            Then::Break(goal, value) => broken(alloc, &self.ssa, piece, lemmas, goal, value),
            Then::End => Ok(spent()),
            Then::Fail => Err(AllocError),
        }
    }

    /// What comes of the piece.
    fn given(
        &self,
        alloc: Global,
        piece: &Piece,
        lemmas: &Lemmas,
    ) -> Result<Outcome<Witness>, AllocError>
        requires { has_goal self.now.ssa.lines piece.now.goal ≡ true }
        ensures { IfOk result (λ given. IsGift self.now.ssa piece.now lemmas.now given) }
    {
        let deed = self.deed_of(piece);
        if lemmas.more() && lemmas.items().len() < deed.lemmas as usize {
            return lemma(alloc, &self.ssa, piece, lemmas, deed.level);
        }
        self.ended(alloc, piece, lemmas, deed.then)
    }
}

impl Job<Witness> for Script {
    ghost program = { λ s. s.ssa };

    ghost limit = { λ _. 7 };

    fn ssa(&self) -> &Ssa {
        &self.ssa
    }

    fn budget(&self) -> u32 {
        BUDGET
    }

    fn work<P: Port>(
        &self,
        alloc: Global,
        piece: &Piece,
        lemmas: &Lemmas,
        port: &mut P,
    ) -> Result<Option<Outcome<Witness>>, AllocError> {
        match port.poll() {
            Poll::Cancelled => Ok(None),
            Poll::Go => {
                let outcome = self.given(alloc, piece, lemmas)?;
                Ok(Some(outcome))
            }
        }
    }
}
