// The kept rows of a search, and the notes of what was left out.

ghost use Rattle.std.specs.Prelude.{◌≡◌, [], ◌∷◌, ◌++◌, OnOk};

use crate::Pivot;
use std::alloc::{AllocError, Global};
use std::marker::Model;
use tcl_list::Listing;
use tcl_ring::Ring;

/// Why a row was left out, or a step on the claim not made.
#[derive(Clone, Copy, PartialEq, Eq)]
pub enum Note {
    /// This leading coefficient has no inverse.
    NoInverse(i128),
    /// A step was wide, for the line of this place.
    Wide(u32),
}

/// The rows that are kept, in the order in which they were found, and the notes in order.
#[derive(Drop)]
pub struct Rows<R: Ring> {
    pub(crate) kept: Listing<Pivot<R>>,
    pub(crate) order: Vec<usize>,
    pub(crate) notes: Listing<Note>,
}

impl<R: Ring> Model for Rows<R> {
    ghost use Rattle.tcl_pivots.specs.Held.{Held};

    ghost Value = { Held R R.Elem };

    ghost view = { λ h. record { kept = h.kept; order = h.order.items; notes = h.notes } };
}

impl<R: Ring> Rows<R> {
    /// No rows and no notes, which takes no memory.
    pub fn new(alloc: Global) -> Self
        ensures { result ≡ record { kept = []; order = []; notes = [] } }
    {
        Rows {
            kept: Listing::new(alloc),
            order: Vec::new(alloc),
            notes: Listing::new(alloc),
        }
    }

    /// The rows in the order in which they were found.
    pub fn kept(&self) -> &[Pivot<R>]
        ensures { result.now ≡ self.now.kept }
    {
        self.kept.as_slice()
    }

    /// The notes in order.
    pub fn notes(&self) -> &[Note]
        ensures { result.now ≡ self.now.notes }
    {
        self.notes.as_slice()
    }

    /// Adds a note at the end.
    pub fn push_note(&mut self, note: Note) -> Result<(), AllocError>
        ensures { OnOk result (self.new ≡ record { kept = self.old.kept; order = self.old.order; notes = self.old.notes ++ note ∷ [] }) }
    {
        self.notes.push(note)
    }
}
