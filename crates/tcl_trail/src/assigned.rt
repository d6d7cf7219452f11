// The true literals in their order, with tables by which the value, the level and the reason of each are read at once.

ghost use Rattle.std.specs.Prelude.{◌≡◌, ℕ, ◌+◌, ◌*◌, ◌/◌, ◌^◌, ◌<◌, ◌≤◌, max, IfOk, OnOk, OnErr, MatchOption, Bool, true, false, Some, None, length, take, slice_get, List, [], ◌∷◌, ◌++◌, if◌then◌else◌, is_none, vec_capacity, vec_len};
ghost use Rattle.tcl_cnf.specs.Clause.{has};
ghost use Rattle.tcl_trail.specs.Assignment.{lits_of, level_of, reason_of, up_to};
ghost use Rattle.tcl_trail.specs.Kept.{AreMarks};
ghost use Rattle.tcl_trail.specs.Assigned.{AssignedState, AreApart, opened};

use crate::counting::{widen, widen_facts};
use crate::entry::Entry;
use crate::fact::Fact;
use std::alloc::{AllocError, Global};
use std::marker::Model;
use tcl_cnf::Lit;

#[derive(Drop)]
pub(crate) struct Assigned {
    entries: Vec<Entry>,
    // whether each literal is true, by its number
    trues: Vec<bool>,
    // what is kept of each true literal, by its number; what stands at another literal means nothing
    facts: Vec<Fact>,
    // the places of the assumed literals
    starts: Vec<u32>,
    variables: u32,
}

impl Model for Assigned {
    ghost use Rattle.tcl_trail.specs.Assigned.{AssignedState};

    ghost Value = { AssignedState };

    ghost use Rattle.tcl_trail.specs.Assigned.{IsAssigned};
    ghost use Rattle.std.specs.Prelude.{vec_capacity};

    ghost view = { λ a. record { entries = a.entries.items; variables = a.variables } };

    ghost invariant = { λ a. IsAssigned a.entries.items a.trues.items a.facts.items a.starts.items a.variables (vec_capacity a.entries) (vec_capacity a.starts) };
}

impl Assigned {
    /// No true literal, and room for no variable.
    pub(crate) fn new(alloc: Global) -> Assigned
        ensures { result ≡ record { entries = []; variables = 0 } }
    {
        Assigned {
            entries: Vec::new(alloc),
            trues: Vec::new(alloc),
            facts: Vec::new(alloc),
            starts: Vec::new(alloc),
            variables: 0,
        }
    }

    /// Makes room for so many variables.
    pub(crate) fn widen(&mut self, variables: u32) -> Result<(), AllocError>
        requires { variables ≤ 2 ^ 31 }
        ensures ok { OnOk result (self.new ≡ record self.old { variables = max self.old.variables variables }) }
        ensures err { OnErr result (self.new ≡ self.old) }
    {
        let wide = self.variables.max(variables);
        widen(&mut self.trues, 2 * wide as usize)?;
        widen_facts(&mut self.facts, 2 * wide as usize)?;
        self.entries.reserve(wide as usize)?;
        self.starts.reserve(wide as usize)?;
        self.variables = wide;
        Ok(())
    }

    /// Makes a literal true.
    pub(crate) fn push(&mut self, entry: Entry)
        requires fresh { has entry.lit (lits_of self.old.entries) ≡ false }
        requires below { entry.lit / 2 < self.old.variables }
        requires room { length self.old.entries < self.old.variables }
        ensures { self.new ≡ record self.old { entries = self.old.entries ++ entry ∷ [] } }
    {
        let number = entry.lit.number() as usize;
        let reason = entry.reason;
        let place = self.entries.len() as u32;
        open_level(&mut self.starts, reason, place);
        let level = self.starts.len() as u32;
        self.trues[number] = true;
        self.facts[number] = Fact {
            place,
            level,
            reason,
        };
        self.entries.push_reserved(entry);
    }

    pub(crate) fn is_true(&self, lit: Lit) -> bool
        ensures { result ≡ has lit (lits_of self.now.entries) }
    {
        let place = lit.number() as usize;
        place < self.trues.len() && self.trues[place]
    }

    /// The level of a true literal, and of another one how many literals are assumed.
    pub(crate) fn level_of(&self, lit: Lit) -> u32
        ensures { result ≡ level_of lit self.now.entries }
    {
        if self.is_true(lit) {
            self.facts[lit.number() as usize].level
        } else {
            self.starts.len() as u32
        }
    }

    pub(crate) fn reason(&self, lit: Lit) -> Option<u32>
        ensures { result ≡ reason_of lit self.now.entries }
    {
        if self.is_true(lit) {
            self.facts[lit.number() as usize].reason
        } else {
            None
        }
    }

    /// The place of a true literal.
    pub(crate) fn place(&self, lit: Lit) -> Option<u32>
        ensures { MatchOption result (has lit (lits_of self.now.entries) ≡ false) (λ place. slice_get (lits_of self.now.entries) place ≡ Some lit) }
    {
        if self.is_true(lit) {
            Some(self.facts[lit.number() as usize].place)
        } else {
            None
        }
    }

    /// So many entries do not have the literal among them.
    pub(crate) fn clear_to(&self, lit: Lit) -> usize
        ensures { has lit (take result (lits_of self.now.entries)) ≡ false }
    {
        let _ = &self.entries;
        match self.place(lit) {
            Some(place) => place as usize,
            None => usize::MAX,
        }
    }

    pub(crate) fn len(&self) -> usize
        ensures len { result ≡ length self.now.entries }
        ensures few { result ≤ self.now.variables }
        ensures narrow { self.now.variables ≤ 2 ^ 31 }
    {
        self.entries.len()
    }

    pub(crate) fn at(&self, k: usize) -> Entry
        requires { k < length self.now.entries }
        ensures { slice_get self.now.entries k ≡ Some result }
    {
        self.entries[k]
    }

    /// Leaves the literals up to the level.
    pub(crate) fn back_to(&mut self, level: u32)
        ensures { self.new ≡ record self.old { entries = up_to level self.old.entries } }
    {
        if (level as usize) < self.starts.len() {
            let kept = self.starts[level as usize] as usize;
            unmark(&mut self.trues, &self.entries, kept);
            self.entries.truncate(kept);
            self.starts.truncate(level as usize);
        }
    }
}

/// Puts the place of an assumed literal behind those before it.
fn open_level(starts: &mut Vec<u32>, reason: Option<u32>, place: u32)
    requires { vec_len starts.old < vec_capacity starts.old }
    ensures items { starts.new.items ≡ opened starts.old.items reason place }
    ensures capacity { vec_capacity starts.new ≡ vec_capacity starts.old }
{
    if reason.is_none() {
        starts.push_reserved(place);
    }
}

/// Takes the marks of the entries from this place on away.
fn unmark(trues: &mut Vec<bool>, entries: &[Entry], kept: usize)
    requires apart { AreApart entries.now }
    requires marks { AreMarks trues.old.items (lits_of entries.now) }
    requires wide { (l : ℕ) → has l (lits_of entries.now) ≡ true → l < length trues.old.items }
    requires within { kept ≤ length entries.now }
    ensures marks { AreMarks trues.new.items (lits_of (take kept entries.now)) }
    ensures len { length trues.new.items ≡ length trues.old.items }
{
    let mut count = entries.len();
    while count > kept {
        count -= 1;
        let entry = entries[count];
        let number = entry.lit.number() as usize;
        trues[number] = false;
    }
}
