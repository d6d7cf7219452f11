//! Facts that were shown before.

ghost use Rattle.std.specs.Prelude.{◌≡◌, [], All, IfOk, OnOk, OnErr};
ghost use Rattle.tcl_kernel.specs.Shown.{Stands};
ghost use Rattle.tcl_kernel.specs.Evidence as evidence;

use crate::proof::Proof;
use std::alloc::{AllocError, Global};
use std::marker::Model;
use std::snapshot::Snapshot;
use tcl_goals::{Claim, Fact, Lemma, Lemmas, Shown};
use tcl_lang::Ssa;
use tcl_list::Listing;

/// A fact with its number.
#[derive(Drop)]
pub struct NumberedFact {
    pub number: u32,
    pub fact: Fact,
}

/// Numbered lemmas and numbered facts of a program. It keeps that each of the facts is in order and holds of the program
/// under these lemmas; whether the lemmas are sound it does not say. The program is there for contracts alone.
#[derive(Drop)]
pub struct Facts {
    program: Snapshot<Ssa>,
    lemmas: Lemmas,
    facts: Listing<NumberedFact>,
}

impl Model for Facts {
    ghost use Rattle.std.specs.Prelude.{All};
    ghost use Rattle.tcl_lang.specs.contracts.term.Term as term;
    ghost use Rattle.tcl_lang.specs.contracts.range.RngTerm as range_term;
    ghost use Rattle.tcl_lang.specs.contracts.range.RngPred as range_pred;
    ghost use Rattle.std.specs.Coded.{codes};
    ghost use Rattle.tcl_kernel.specs.Shown.{Stands};
    ghost use Rattle.tcl_kernel.specs.Earlier.{Earlier};

    ghost Value = { Earlier };

    ghost coded = { Prim.hlevel (codes, term.the_row.coded, range_term.the_row.coded, range_pred.the_row.coded) };

    ghost view = { λ f. record { program = f.program.value; lemmas = f.lemmas.items; facts = f.facts } };

    ghost invariant = { λ f. All (λ n. Stands f.program.value f.lemmas.items n.fact) f.facts };
}

impl Facts {
    /// The facts of a program under these lemmas, of which there is none yet. The only error is that memory has run out.
    pub fn of(alloc: Global, ssa: &Ssa, lemmas: &Lemmas) -> Result<Self, AllocError>
        ensures { IfOk result (λ facts. facts ≡ record { program = ssa.now; lemmas = lemmas.now.items; facts = [] }) }
    {
        Ok(Facts {
            program: Snapshot::of(ssa),
            lemmas: lemmas.copy()?,
            facts: Listing::new(alloc),
        })
    }

    /// The lemmas.
    pub fn lemmas(&self) -> &Lemmas
        ensures { result.now.items ≡ self.now.lemmas }
    {
        &self.lemmas
    }

    /// The facts, each of which is in order and holds under the lemmas.
    pub fn facts(&self) -> &Listing<NumberedFact>
        ensures facts { result.now ≡ self.now.facts }
        ensures stand { All (λ n. Stands self.now.program self.now.lemmas n.fact) self.now.facts }
    {
        &self.facts
    }

    /// Adds the fact of a proof under a number, and its lemma where it claims one under no cube. The number is above all
    /// before it, the proof is of a fact of this program, and each lemma that it cites is among these under its number.
    ///
    /// The only error is that memory has run out; then all stays as it was.
    pub fn add(&mut self, number: u32, proof: &Proof) -> Result<(), AllocError>
        requires { evidence.MayAdd self.old number proof.now }
        ensures added { OnOk result (self.new ≡ evidence.with_shown self.old number proof.now.shown) }
        ensures unchanged { OnErr result (self.new ≡ self.old) }
    {
        match proof.shown() {
            Shown::Fact(fact) => self.add_fact(number, fact.copy()?),
            Shown::Breaks(_, _) => Ok(()),
        }
    }

    /// The same for a fact that stands.
    fn add_fact(&mut self, number: u32, fact: Fact) -> Result<(), AllocError>
        requires { evidence.MayAddFact self.old number fact }
        ensures added { OnOk result (self.new ≡ evidence.with_fact self.old number fact) }
        ensures unchanged { OnErr result (self.new ≡ self.old) }
    {
        let lemma = claimed_lemma(&fact)?;
        let count = self.facts.len();
        self.facts.push(NumberedFact { number, fact })?;
        match lemma {
            None => Ok(()),
            Some(lemma) => match self.lemmas.push(number, lemma) {
                Ok(()) => Ok(()),
                Err(_) => {
                    self.facts.truncate(count);
                    Err(AllocError)
                }
            },
        }
    }
}

/// The lemma that a fact claims under no cube. The only error is that memory has run out.
fn claimed_lemma(fact: &Fact) -> Result<Option<Lemma>, AllocError>
    ensures { IfOk result (λ lemma. lemma ≡ evidence.claimed_lemma fact.now.claim fact.now.cube) }
{
    match &fact.claim {
        Claim::Lemma(lemma) => match fact.cube.as_slice() {
            [] => Ok(Some(lemma.copy()?)),
            _ => Ok(None),
        },
        Claim::Goal(_) => Ok(None),
    }
}
