// The plain reduction of a claim in the ring of its modulus.

ghost use Rattle.std.specs.Prelude.{◌≡◌, true, is_some, Some, IfOk};
ghost use Rattle.tcl_poly.specs.Polynomial as p;
ghost use Rattle.tcl_lang.specs.declared.term.AlgPred as declared;
ghost use Rattle.tcl_goals.specs.Keys.{claim_place};
ghost use Rattle.tcl_goals.specs.Order.{are_uses};
ghost use Rattle.tcl_reduce.specs.Answer.{definitions_of};
ghost use Rattle.tcl_reduce.specs.Reduction as s;
ghost use Rattle.tcl_algebra.specs.Ends as ends;
ghost use Rattle.tcl_algebra.specs.Equations as equations;
ghost use Rattle.tcl_plain.specs.Named.{IsReadable};
ghost use Rattle.tcl_plain.specs.Plain as words;

use crate::Outcome;
use std::alloc::{AllocError, Global};
use tcl_algebra::{
    AlgebraEnd, Equations, claim_equation, claim_modulus, equations, has_wide_modulus,
};
use tcl_goals::{Fact, Lemmas};
use tcl_lang::Ssa;
use tcl_port::At;
use tcl_reduce::{Plain, plain};
use tcl_remainder::{lines_of, remainder_of};
use tcl_ring::{Residue, Ring, Whole};

/// Reduces the claim of a fact, which is to be an equation, by the definitions that its used instructions give.
///
/// The ring is that of the claim: the residues of its modulus, or the whole numbers where it has none. The only error is that
/// memory has run out.
pub fn reduce(alloc: Global, ssa: &Ssa, lemmas: &Lemmas, fact: &Fact) -> Result<Outcome, AllocError>
    requires claim { is_some (ends.claim_equation ssa.now fact.now.claim) ≡ true }
    requires uses { are_uses ssa.now.lines (claim_place ssa.now.lines fact.now.claim) fact.now.uses ≡ true }
    ensures outcome { IfOk result (λ o. (f : declared.AlgPred) → ends.claim_equation ssa.now fact.now.claim ≡ Some f →
        o ≡ words.outcome_of (equations.claim_begins f) (words.plain_end ssa.now fact.now f)) }
    ensures proof { IfOk result (λ o. (f : declared.AlgPred) → ends.claim_equation ssa.now fact.now.claim ≡ Some f →
        words.IsProof ssa.now lemmas.now.items fact.now f o) }
{
    let claim = match claim_equation(ssa, &fact.claim) {
        Some(claim) => claim,
        None => unreachable!(),
    };
    if has_wide_modulus(&claim.modulus) {
        return Ok(Outcome::Wide(At::Claim));
    }
    match claim_modulus(claim) {
        None => reduce_in(alloc, &Whole, ssa, lemmas, fact),
        Some(modulus) => reduce_in(alloc, &Residue { modulus }, ssa, lemmas, fact),
    }
}

/// The same in the ring of the claim.
fn reduce_in<R: Ring + Copy>(
    alloc: Global,
    ring: &R,
    ssa: &Ssa,
    lemmas: &Lemmas,
    fact: &Fact,
) -> Result<Outcome, AllocError>
    requires claim { is_some (ends.claim_equation ssa.now fact.now.claim) ≡ true }
    requires uses { are_uses ssa.now.lines (claim_place ssa.now.lines fact.now.claim) fact.now.uses ≡ true }
    requires ring { (f : declared.AlgPred) → ends.claim_equation ssa.now fact.now.claim ≡ Some f →
        R.modulus_of ring.now ≡ equations.modulus_of f.modulus }
    ensures outcome { IfOk result (λ o. (f : declared.AlgPred) → ends.claim_equation ssa.now fact.now.claim ≡ Some f →
        o ≡ words.outcome_of (equations.claim_begins f) (words.plain_end ssa.now fact.now f)) }
    ensures proof { IfOk result (λ o. (f : declared.AlgPred) → ends.claim_equation ssa.now fact.now.claim ≡ Some f →
        words.IsProof ssa.now lemmas.now.items fact.now f o) }
{
    let _form = ssa.lines();
    match equations(alloc, ring, ssa, lemmas, fact) {
        Ok(equations) => reduced(alloc, &equations),
        Err(AlgebraEnd::Wide) => Ok(Outcome::Wide(At::Claim)),
        Err(AlgebraEnd::Large(what, n)) => Ok(Outcome::Large(what, n)),
        Err(AlgebraEnd::Memory) => Err(AllocError),
    }
}

/// What the reduction makes of the claim of these equations.
fn reduced<R: Ring + Copy>(alloc: Global, equations: &Equations<R>) -> Result<Outcome, AllocError>
    requires { IsReadable (R.modulus_of equations.now.ring) (definitions_of (R.amount equations.now.ring) equations.now.defs)
        (p.terms_of (R.amount equations.now.ring) equations.now.claim) }
    ensures { IfOk result (λ o. o ≡ words.outcome_by (s.reduced_of (R.modulus_of equations.now.ring)
        (definitions_of (R.amount equations.now.ring) equations.now.defs)
        (p.terms_of (R.amount equations.now.ring) equations.now.claim))) }
{
    let ring = equations.ring();
    match plain(alloc, ring, equations.defs(), equations.claim()) {
        Plain::Zero(cofactors, _) => Ok(Outcome::Zero(lines_of(alloc, ring, &cofactors)?)),
        Plain::Rest(rest, _, _) => Ok(Outcome::Rest(remainder_of(alloc, ring, &rest)?)),
        Plain::Wide(at) => Ok(Outcome::Wide(at)),
        Plain::Large(what, n) => Ok(Outcome::Large(what, n)),
        Plain::Memory => Err(AllocError),
    }
}
