//! Lemmas, and lists of them by number.

ghost use Rattle.std.specs.Prelude.{◌≡◌, ◌≤◌, ◌++◌, ◌∷◌, [], false, true, ◌↔◌, IsTrue, IfOk, OnOk, OnErr};
ghost use Rattle.tcl_goals.specs.LemmaList as lists;

use crate::fact::BitLit;
use std::alloc::{AllocError, Global};
use std::marker::Model;
use tcl_list::{Copies, Listing, Same};

/// Bits of which one has its value.
pub type BitClause = Listing<BitLit>;

/// A clause that holds where all that stands before the goal `level` holds.
#[derive(Drop)]
pub struct Lemma {
    pub level: u32,
    pub clause: BitClause,
}

/// A lemma with its number.
#[derive(Drop)]
pub struct Numbered {
    pub number: u32,
    pub lemma: Lemma,
}

/// Lemmas by rising numbers. The mark says whether more of them are wanted.
#[derive(Drop)]
pub struct Lemmas {
    items: Listing<Numbered>,
    more: bool,
}

impl Model for Lemmas {
    ghost use Rattle.std.specs.Prelude.{◌≡◌, true};
    ghost use Rattle.tcl_goals.specs.LemmaList.{LemmaList, are_numbered};

    ghost Value = { LemmaList };

    ghost view = { λ l. record { items = l.items; more = l.more } };

    ghost invariant = { λ l. are_numbered l.items ≡ true };
}

impl Lemmas {
    /// No lemma, and the mark unset; takes no memory.
    pub fn new(alloc: Global) -> Self
        ensures { result ≡ record { items = []; more = false } }
    {
        Lemmas {
            items: Listing::new(alloc),
            more: false,
        }
    }

    /// The lemmas, by rising numbers.
    pub fn items(&self) -> &Listing<Numbered>
        ensures items { result.now ≡ self.now.items }
        ensures numbered { lists.are_numbered self.now.items ≡ true }
    {
        &self.items
    }

    /// Whether more lemmas are wanted.
    pub fn more(&self) -> bool
        ensures { result ≡ self.now.more }
    {
        self.more
    }

    /// Sets the mark; the lemmas stay.
    pub fn set_more(&mut self, more: bool)
        ensures { self.new ≡ record { items = self.old.items; more = more } }
    {
        self.more = more;
    }

    /// Adds a lemma under a number that is above all before it.
    #[tactic(auto, using(crate::proofs::LemmaNumbers::pushed_numbered))]
    pub fn push(&mut self, number: u32, lemma: Lemma) -> Result<(), AllocError>
        requires above { lists.next_number self.old.items ≤ number }
        ensures pushed { OnOk result (self.new ≡ record { items = self.old.items ++ record { number = number; lemma = lemma } ∷ []; more = self.old.more }) }
        ensures unchanged { OnErr result (self.new ≡ self.old) }
    {
        self.items.push(Numbered { number, lemma })?;
        Ok(())
    }

    /// An equal list with the same allocators. The only error is that memory has run out.
    pub fn copy(&self) -> Result<Self, AllocError>
        ensures copy { IfOk result (λ copy. copy ≡ self.now) }
    {
        Ok(Lemmas {
            items: self.items.copy()?,
            more: self.more,
        })
    }
}

impl Lemma {
    /// An equal lemma with the same allocators. The only error is that memory has run out.
    pub fn copy(&self) -> Result<Self, AllocError>
        ensures copy { IfOk result (λ copy. copy ≡ self.now) }
    {
        Ok(Lemma {
            level: self.level,
            clause: self.clause.copy()?,
        })
    }
}

impl Copies for Lemma {
    fn copy_in(&self, _alloc: Global) -> Result<Self, AllocError> {
        self.copy()
    }
}

impl Same for Lemma {
    fn same(&self, other: &Self) -> bool {
        self.level == other.level && self.clause.same(&other.clause)
    }
}

impl Copies for Numbered {
    fn copy_in(&self, _alloc: Global) -> Result<Self, AllocError> {
        Ok(Numbered {
            number: self.number,
            lemma: self.lemma.copy()?,
        })
    }
}

impl Same for Numbered {
    fn same(&self, other: &Self) -> bool {
        self.number == other.number && self.lemma.same(&other.lemma)
    }
}

impl Copies for Lemmas {
    fn copy_in(&self, _alloc: Global) -> Result<Self, AllocError> {
        self.copy()
    }
}
