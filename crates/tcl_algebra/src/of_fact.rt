//! The equations of a fact.

ghost use Rattle.std.specs.Prelude.{◌≡◌, ◌+◌, true, false, [], is_some, Some, IfOk};
ghost use Rattle.tcl_ring.specs.Reduction as r;
ghost use Rattle.tcl_reduce.specs.Answer.{definitions_of};
ghost use Rattle.tcl_lang.specs.Bound as bound;
ghost use Rattle.tcl_lang.specs.declared.term.AlgPred as declared;
ghost use Rattle.tcl_goals.specs.Keys.{claim_place};
ghost use Rattle.tcl_goals.specs.Order.{are_uses};
ghost use Rattle.tcl_algebra.specs.Equations as equations;
ghost use Rattle.tcl_algebra.specs.Defined.{triples_of};
ghost use Rattle.tcl_algebra.specs.Held.{IsAdded};
ghost use Rattle.tcl_algebra.specs.Ends as ends;
ghost use Rattle.tcl_algebra.specs.Ends.{IsBegun, AreEquationsOf};

use crate::AlgebraEnd;
use crate::claim::{begin, claim_equation, sides};
use crate::definitions::add_definitions;
use crate::hypotheses::add_hyps;
use crate::rows::Rows;
use crate::squares::add_squares;
use std::alloc::{AllocError, Global};
use tcl_goals::{Fact, Lemmas, claim_place};
use tcl_lang::{AlgPred, Ssa};
use tcl_list::Listing;
use tcl_reduce::{Definition, Defs, Equations};
use tcl_ring::Ring;

/// The equations of a fact whose claim is an equation and whose uses are instructions before it, over the ring of the claim:
/// those of the used instructions by place, of the hypotheses in order, and the squares of the variables of one bit by number.
///
/// `Wide` and `Large` exactly where the claim itself is so. The only other error is that memory has run out.
pub fn equations<R: Ring + Copy>(
    alloc: Global,
    ring: &R,
    ssa: &Ssa,
    lemmas: &Lemmas,
    fact: &Fact,
) -> Result<Equations<R>, AlgebraEnd>
    requires claim { is_some (ends.claim_equation ssa.now fact.now.claim) ≡ true }
    requires ring { ends.IsRingOf (R.modulus_of ring.now) (ends.claim_equation ssa.now fact.now.claim) }
    requires uses { are_uses ssa.now.lines (claim_place ssa.now.lines fact.now.claim) fact.now.uses ≡ true }
    ensures begins { (f : declared.AlgPred) → ends.claim_equation ssa.now fact.now.claim ≡ Some f → IsBegun result (equations.claim_begins f) }
    ensures equations { (f : declared.AlgPred) → ends.claim_equation ssa.now fact.now.claim ≡ Some f → IfOk result (λ q. AreEquationsOf (R.modulus_of ring.now) (R.amount ring.now) ssa.now lemmas.now.items fact.now f q) }
    ensures ring { IfOk result (λ q. q.ring ≡ ring.now) }
{
    let claim = match claim_equation(ssa, &fact.claim) {
        Some(claim) => claim,
        None => unreachable!(),
    };
    begin(claim)?;
    let equations = of_claim(alloc, ring, ssa, lemmas, fact, claim)?;
    Ok(equations)
}

/// The equations of a fact whose claim is neither wide nor large.
fn of_claim<R: Ring + Copy>(
    alloc: Global,
    ring: &R,
    ssa: &Ssa,
    lemmas: &Lemmas,
    fact: &Fact,
    claim: &AlgPred,
) -> Result<Equations<R>, AllocError>
    requires uses { are_uses ssa.now.lines (claim_place ssa.now.lines fact.now.claim) fact.now.uses ≡ true }
    requires degree { equations.is_deep claim.now ≡ false }
    requires fits { r.is_wide (R.modulus_of ring.now) (bound.norm_of claim.now.left + bound.norm_of claim.now.right) ≡ false }
    ensures equations { IfOk result (λ q. AreEquationsOf (R.modulus_of ring.now) (R.amount ring.now) ssa.now lemmas.now.items fact.now claim.now q) }
    ensures ring { IfOk result (λ q. q.ring ≡ ring.now) }
{
    let polynomial = sides(alloc, ring, claim)?;
    let Parts { definitions, rows } = gather(alloc, ring, ssa, lemmas, fact)?;
    let place = claim_place(ssa.lines().as_slice(), &fact.claim) as u32;
    let defs = Defs::of(definitions);
    Ok(Equations::of(*ring, rows.list, rows.places, defs, polynomial, place))
}

/// The definitions and the equations of a fact.
#[derive(Drop)]
struct Parts<R: Ring> {
    definitions: Listing<Definition<R>>,
    rows: Rows<R>,
}

/// Those of the used instructions, of the hypotheses and of the squares, one after another.
fn gather<R: Ring>(
    alloc: Global,
    ring: &R,
    ssa: &Ssa,
    lemmas: &Lemmas,
    fact: &Fact,
) -> Result<Parts<R>, AllocError>
    ensures definitions { IfOk result (λ made. definitions_of (R.amount ring.now) (triples_of made.definitions) ≡ equations.definitions_of (R.modulus_of ring.now) ssa.now fact.now) }
    ensures rows { IfOk result (λ made. IsAdded (R.amount ring.now) [] made.rows.list [] made.rows.places (equations.equations_of (R.modulus_of ring.now) ssa.now lemmas.now.items fact.now)) }
{
    let mut rows = Rows::new(alloc);
    let definitions = add_definitions(alloc, ring, ssa, fact, &mut rows)?;
    add_hyps(alloc, ring, ssa, fact.hyps.as_slice(), &mut rows)?;
    add_squares(alloc, ring, ssa, lemmas, fact, &mut rows)?;
    Ok(Parts { definitions, rows })
}
