// Which literals a new clause watches.

ghost use Rattle.std.specs.Prelude.{◌≡◌, ℕ, ◌<◌, IfSome, OnOk, OnErr, true, false, Some, List, [], ◌∷◌, ◌++◌, length};
ghost use Rattle.tcl_cnf.specs.Clause.{has};
ghost use Rattle.tcl_trail.specs.Assignment.{lits_of};
ghost use Rattle.tcl_trail.specs.Watching.{IsWatching, IsChosen};

use crate::assigned::Assigned;
use crate::pair::{Chosen, Pair};
use crate::watching::Watching;
use std::alloc::AllocError;
use tcl_cnf::{Clause, Lit};

/// A literal of these, another one than that of this number: where possible one that is not false, and else the one that
/// became false last.
fn best_of(assigned: &Assigned, lits: &[Lit], skip: u32) -> Option<Lit>
    ensures { IfSome result (λ l. (has l lits.now ≡ true) × (l ≡ skip → ⊥)) }
{
    let mut best: Option<Lit> = None;
    let mut rank = 0;
    for lit in lits {
        let place = assigned.clear_to(lit.negation());
        if lit.number() != skip && rank <= place {
            best = Some(*lit);
            rank = place;
        }
    }
    best
}

/// Two literals of these to be watched, if there are two.
fn choose(assigned: &Assigned, lits: &[Lit]) -> Option<Chosen>
    ensures { IfSome result (λ c. IsChosen (lits_of assigned.now.entries) lits.now c.pair c.limit) }
{
    let first = best_of(assigned, lits, u32::MAX)?;
    let second = best_of(assigned, lits, first.number())?;
    let limit = assigned
        .clear_to(first.negation())
        .min(assigned.clear_to(second.negation()));
    Some(Chosen {
        pair: Pair {
            first,
            second,
            from: 0,
        },
        limit,
    })
}

/// Lets a new clause of these literals be watched. An error leaves what is kept of the clauses before.
pub(crate) fn watch(
    _clauses: &[Clause],
    assigned: &Assigned,
    watching: &mut Watching,
    lits: &[Lit],
    number: u32,
) -> Result<(), AllocError>
    requires watching { IsWatching _clauses.now assigned.now.entries watching.old }
    requires wide { (l : ℕ) → has l lits.now ≡ true → l < length watching.old.lists }
    requires next { number ≡ length _clauses.now }
    ensures ok { OnOk result (IsWatching (_clauses.now ++ lits.now ∷ []) assigned.now.entries watching.new) }
    ensures err { OnErr result (IsWatching _clauses.now assigned.now.entries watching.new) }
{
    match choose(assigned, lits) {
        Some(chosen) => {
            watching.lower(chosen.limit);
            match watching.add_pair(number, chosen.pair) {
                Ok(()) => Ok(()),
                Err(error) => Err(error),
            }
        }
        None => {
            let none = Lit::from_number(0);
            watching.add_short(
                number,
                Pair {
                    first: none,
                    second: none,
                    from: 0,
                },
            )?;
            Ok(())
        }
    }
}
