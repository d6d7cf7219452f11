// The trail: its clauses, the literals that are true, and propagation over watched literals.

ghost use Rattle.std.specs.Prelude.{◌≡◌, ℕ, ◌+◌, ◌-◌, ◌/◌, ◌^◌, ◌↔◌, IsTrue, ◌<◌, ◌≤◌, IfOk, OnOk, OnErr, IfSome, Bool, true, false, Some, None, Option, length, take, slice_get, List, [], ◌∷◌, ◌++◌};
ghost use Rattle.tcl_cnf.specs.Literal.{neg};
ghost use Rattle.tcl_cnf.specs.Clause.{has, AreClauses};
ghost use Rattle.tcl_trail.specs.declared.entry.Entry.{Entry};
ghost use Rattle.tcl_trail.specs.Assignment.{lits_of, value_in, level_of, reason_of, up_to};
ghost use Rattle.tcl_trail.specs.Trail.{TrailState, IsTrail, HasGrown, IsStep, variable_count};

use crate::assigned::Assigned;
use crate::choosing::watch;
use crate::counting::variables_in;
use crate::entry::Entry;
use crate::scanning::append;
use crate::step::Step;
use crate::visiting;
use crate::watching::Watching;
use std::alloc::{AllocError, Global};
use std::marker::Model;
use tcl_cnf::{Clause, Cnf, Lit};

/// Clauses, and the literals that are true: those assumed, and those propagated from the clauses. No literal is true
/// together with its negation.
#[derive(Drop)]
pub struct Trail {
    clauses: Vec<Clause>,
    assigned: Assigned,
    watching: Watching,
    variables: u32,
}

impl Model for Trail {
    ghost use Rattle.tcl_trail.specs.Trail.{TrailState};

    ghost Value = { TrailState };

    ghost use Rattle.tcl_trail.specs.Watching.{IsKept};

    ghost view = { λ t. record { clauses = t.clauses.items; entries = t.assigned.entries } };

    ghost invariant = { λ t. IsKept t.clauses.items t.assigned t.watching t.variables };
}

impl Trail {
    /// No clauses and no true literals.
    fn empty(alloc: Global) -> Trail
        ensures { result ≡ record { clauses = []; entries = [] } }
    {
        Trail {
            clauses: Vec::new(alloc),
            assigned: Assigned::new(alloc),
            watching: Watching::new(alloc),
            variables: 0,
        }
    }

    /// A trail of these clauses, with no true literal.
    pub fn new(alloc: Global, cnf: &Cnf) -> Result<Trail, AllocError>
        ensures { IfOk result (λ trail. trail ≡ record { clauses = cnf.now; entries = [] }) }
    {
        let mut trail = Trail::empty(alloc);
        for k in 0..cnf.len() {
            trail.add(cnf.at(k))?;
        }
        Ok(trail)
    }

    /// Appends a clause, which may be false or unit. The only error is that memory has run out.
    pub fn add(&mut self, clause: &Clause) -> Result<(), AllocError>
        ensures added { OnOk result (self.new ≡ record self.old { clauses = self.old.clauses ++ clause.now ∷ [] }) }
        ensures unchanged { OnErr result (self.new ≡ self.old) }
    {
        if self.clauses.len() >= u32::MAX as usize {
            return Err(AllocError);
        }
        let number = self.clauses.len() as u32;
        let alloc = *self.clauses.allocator();
        let variables = self.variables.max(variables_in(clause));
        self.assigned.widen(variables)?;
        self.watching.widen(alloc, 2 * variables as usize)?;
        self.watching.reserve_for(clause.lits())?;
        clause.known();
        let copy = clause.copy()?;
        self.clauses.reserve(1)?;
        let clauses = &self.clauses;
        let assigned = &self.assigned;
        watch(clauses, assigned, &mut self.watching, clause.lits(), number)?;
        self.clauses.push_reserved(copy);
        self.variables = variables;
        Ok(())
    }

    /// The value of a literal, or none where neither it nor its negation is true.
    pub fn value(&self, lit: Lit) -> Option<bool>
        ensures { result ≡ value_in (lits_of self.now.entries) lit }
    {
        if self.assigned.is_true(lit) {
            Some(true)
        } else if self.assigned.is_true(lit.negation()) {
            Some(false)
        } else {
            None
        }
    }

    /// Makes literals true, each by a clause that is unit, until no clause is unit or one is false. Takes no memory.
    pub fn propagate(&mut self) -> Step
        ensures clauses { self.new.clauses ≡ self.old.clauses }
        ensures grown { HasGrown self.old.entries self.new.entries }
        ensures step { IsStep self.new.clauses (lits_of self.new.entries) result }
    {
        let clauses = &self.clauses;
        visiting::propagate(clauses, &mut self.assigned, &mut self.watching)
    }

    /// Assumes a literal that has no value, at a new level. Takes no memory.
    pub fn assume(&mut self, lit: Lit)
        requires known { lit / 2 < variable_count self.old.clauses }
        requires unvalued { value_in (lits_of self.old.entries) lit ≡ None }
        ensures { self.new ≡ record self.old { entries = self.old.entries ++ record { lit = lit; reason = None } ∷ [] } }
    {
        let clauses = &self.clauses;
        append(clauses, &mut self.assigned, Entry { lit, reason: None });
    }

    /// How many variables may be assumed: one more than the greatest that a clause names, or 0.
    pub fn variables(&self) -> u32
        ensures { result ≡ variable_count self.now.clauses }
    {
        self.variables
    }

    /// How many literals are true.
    pub fn len(&self) -> u32
        ensures { result ≡ length self.now.entries }
    {
        self.assigned.len() as u32
    }

    /// Whether no literal is true.
    pub fn is_empty(&self) -> bool
        ensures { IsTrue result ↔ (self.now.entries ≡ []) }
    {
        self.assigned.len() == 0
    }

    /// The true literal of this number, counted from 0 in the order in which they became true.
    pub fn at(&self, k: u32) -> Lit
        requires { k < length self.now.entries }
        ensures { slice_get (lits_of self.now.entries) k ≡ Some result }
    {
        self.assigned.at(k as usize).lit
    }

    /// The number of the clause that made the true literal of this number true, or none where it was assumed.
    pub fn reason_at(&self, k: u32) -> Option<u32>
        requires { k < length self.now.entries }
        ensures { (e : Entry) → slice_get self.now.entries k ≡ Some e → result ≡ e.reason }
    {
        self.assigned.at(k as usize).reason
    }

    /// The number of the clause that made the literal true, or none for an assumed literal and for one that is not true.
    pub fn reason(&self, lit: Lit) -> Option<u32>
        ensures { result ≡ reason_of lit self.now.entries }
    {
        self.assigned.reason(lit)
    }

    /// The level of a true literal: how many literals are assumed up to it. Of a literal that is not true, how many are
    /// assumed.
    pub fn level_of(&self, lit: Lit) -> u32
        ensures { result ≡ level_of lit self.now.entries }
    {
        self.assigned.level_of(lit)
    }

    /// Leaves the literals up to the level, and takes away all later ones. Takes no memory.
    pub fn back_to(&mut self, level: u32)
        ensures { self.new ≡ record self.old { entries = up_to level self.old.entries } }
    {
        self.assigned.back_to(level);
        self.watching.lower(self.assigned.len());
    }

    /// Tells the caller what every trail keeps.
    pub fn known(&self)
        ensures trail { IsTrail self.now.clauses self.now.entries }
        ensures are_clauses { AreClauses self.now.clauses }
        ensures few { length self.now.entries ≤ variable_count self.now.clauses }
        ensures narrow { variable_count self.now.clauses ≤ 2 ^ 31 }
        ensures numbered { length self.now.clauses < 2 ^ 32 }
    {
        let _variables = self.variables;
    }
}
