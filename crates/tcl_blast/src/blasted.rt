// What is made while the parts of a fact become clauses.

ghost use Rattle.std.specs.Prelude.{◌≡◌, ◌++◌, IfOk, OnOk};
ghost use Rattle.std.specs.Option.{option_to_list};
ghost use Rattle.tcl_cnf.specs.Clause.{clause_of};
ghost use Rattle.tcl_blast.specs.Blasted.{blank, with_clause, with_unit};

use std::alloc::{AllocError, Global};
use tcl_cnf::{Clause, Cnf, Lit};
use tcl_gates::Gates;
use tcl_words::Words;

/// Gates, and the literals of each variable of the program by number; none where it has none yet.
#[derive(Drop)]
pub(crate) struct Begun {
    pub(crate) gates: Gates,
    pub(crate) words: Words,
}

/// Gates, the literals of each variable, and the clauses so far. The clauses of gates stand where the gates were made, with
/// the clauses of hypotheses and bits between them.
#[derive(Drop)]
pub(crate) struct Blasted {
    pub(crate) gates: Gates,
    pub(crate) words: Words,
    pub(crate) clauses: Cnf,
}

impl Blasted {
    /// The free bits, with clause 0.
    #[tactic(auto, unfolding(tcl_cnf::specs::Clause::clause_of))]
    pub(crate) fn blank(alloc: Global, begun: Begun) -> Result<Blasted, AllocError>
        ensures { IfOk result (λ blasted. blasted ≡ blank begun) }
    {
        let Begun { gates, words } = begun;
        let mut clauses = Cnf::new(alloc);
        append_clause(alloc, &mut clauses, &[Lit::of(0)])?;
        Ok(Blasted {
            gates,
            words,
            clauses,
        })
    }

    /// Appends the clause of these literals, if there is one.
    pub(crate) fn add_clause(&mut self, alloc: Global, lits: &[Lit]) -> Result<(), AllocError>
        ensures { OnOk result (self.new ≡ with_clause self.old lits.now) }
    {
        append_clause(alloc, &mut self.clauses, lits)
    }

    /// Appends the clause of a single literal.
    pub(crate) fn add_unit(&mut self, alloc: Global, lit: Lit) -> Result<(), AllocError>
        ensures { OnOk result (self.new ≡ with_unit self.old lit) }
    {
        self.add_clause(alloc, &[lit])
    }
}

/// Appends the clause of these literals, unless it is always true.
fn append_clause(alloc: Global, clauses: &mut Cnf, lits: &[Lit]) -> Result<(), AllocError>
    ensures { OnOk result (clauses.new ≡ clauses.old ++ option_to_list (clause_of lits.now)) }
{
    if let Some(clause) = Clause::from_lits(alloc, lits)? {
        clauses.push(clause)?;
    }
    Ok(())
}
