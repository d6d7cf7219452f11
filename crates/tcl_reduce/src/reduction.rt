// Plain reduction.

ghost use Rattle.std.specs.Prelude.{◌≡◌, ℤ, ◌<◌, ◌≤◌, ◌^◌, ◌∷◌, [], ◌++◌, List, reverse, OnOk};
ghost use Rattle.tcl_ring.specs.Reduction as r;
ghost use Rattle.tcl_poly.specs.Polynomial as p;
ghost use Rattle.tcl_poly.specs.Combination.{Terms};
ghost use Rattle.tcl_reduce.specs.Answer.{IsPlain, IsShown, definitions_of, numbered};
ghost use Rattle.tcl_reduce.specs.Reduction as s;
ghost use Rattle.tcl_reduce.specs.Reduction.Reduced.{Done};
ghost use Rattle.tcl_reduce.specs.Remainder.{AreDefinitions, BeginsWith, pairs_of};

use crate::step::{Step, reduce_by};
use crate::substitution::Substituted;
use crate::{Defs, Plain};
use std::alloc::{AllocError, Global};
use tcl_list::Listing;
use tcl_poly::{Cofactor, Poly, is_zero, norm_of_terms, terms};
use tcl_port::At;
use tcl_ring::Ring;

/// Substitutes the definitions in `f`, from the last place to the first.
///
/// The cofactors have the numbers of the definitions, from 0. What is left and the cofactors make `f` again over every
/// list of equations that begins with those of the definitions, and the exact comparison can show it.
pub fn plain<R: Ring>(alloc: Global, ring: &R, defs: &Defs<R>, f: &Poly<R>) -> Plain<R>
    requires definitions { AreDefinitions (r.reduced_by (R.modulus_of ring.now)) (definitions_of (R.amount ring.now) defs.now) }
    requires polynomial { p.IsOver (R.modulus_of ring.now) (R.amount ring.now) f.now }
    requires degree { p.degree_of f.now ≤ 1024 }
    ensures plain { IsPlain (R.amount ring.now) (s.reduced_of (R.modulus_of ring.now) (definitions_of (R.amount ring.now) defs.now) (p.terms_of (R.amount ring.now) f.now)) result }
    ensures shown { (equations : List (Terms R.Elem)) → BeginsWith (R.modulus_of ring.now) (R.amount ring.now) (definitions_of (R.amount ring.now) defs.now) equations →
        IsShown (R.modulus_of ring.now) (R.amount ring.now) equations (p.terms_of (R.amount ring.now) f.now) result }
{
    let mut rest = match f.copy() {
        Ok(rest) => rest,
        Err(_) => return Plain::Memory,
    };
    let mut spent = norm_of_terms(ring, terms(f));
    let mut cofactors = Vec::new(alloc);
    let mut k = defs.len();
    while k > 0 {
        k -= 1;
        let definition = defs.at(k);
        match reduce_by(alloc, ring, definition, rest, spent) {
            Ok(Step::Same(same)) => rest = same,
            Ok(Step::Next(made, total)) => {
                let Substituted {
                    rest: next,
                    cofactor,
                } = made;
                if push(&mut cofactors, k, cofactor).is_err() {
                    return Plain::Memory;
                }
                rest = next;
                spent = total;
            }
            Ok(Step::Wide) => return Plain::Wide(At::Line(definition.place)),
            Ok(Step::Large(what, n)) => return Plain::Large(what, n),
            Err(_) => return Plain::Memory,
        }
    }
    finish(rest, cofactors, spent)
}

fn push<R: Ring>(
    cofactors: &mut Vec<Cofactor<R>>,
    k: usize,
    poly: Poly<R>,
) -> Result<(), AllocError>
    requires { k < 2 ^ 32 }
    ensures { OnOk result (numbered cofactors.new.items ≡ numbered cofactors.old.items ++ (k, poly) ∷ []) }
{
    cofactors.push(Cofactor {
        equation: k as u32,
        poly,
    })?;
    Ok(())
}

/// The answer from what is left and the cofactors from the last definition to the first.
fn finish<R: Ring>(rest: Poly<R>, cofactors: Vec<Cofactor<R>>, spent: u128) -> Plain<R>
    ensures { (value : R.Elem → ℤ) → IsPlain value (Done (p.terms_of value rest) (pairs_of value (reverse (numbered cofactors.items))) spent) result }
{
    let mut cofactors = cofactors;
    cofactors.reverse();
    let cofactors = Listing::from_vec(cofactors);
    if is_zero(&rest) {
        return Plain::Zero(cofactors, spent);
    }
    Plain::Rest(rest, cofactors, spent)
}
