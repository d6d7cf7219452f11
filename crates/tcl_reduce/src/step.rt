// One definition of a reduction: nothing where its variable does not occur, else width is looked for first, then
// degree, then the number of terms, and only then is anything made.

ghost use Rattle.std.specs.Prelude.{◌≡◌, ◌≤◌, IfOk};
ghost use Rattle.tcl_ring.specs.Reduction as r;
ghost use Rattle.tcl_poly.specs.Unknown.{variable_key};
ghost use Rattle.tcl_poly.specs.Polynomial as p;
ghost use Rattle.tcl_reduce.specs.Parts as parts;
ghost use Rattle.tcl_reduce.specs.Reduction as s;
ghost use Rattle.tcl_reduce.specs.Step.{IsCovered, IsNext, continued};

use crate::Definition;
use crate::parts::{greatest, occurs, parts, take_first};
use crate::size::{LIMIT, bound, count, deepest};
use crate::substitution::{Substituted, substitute};
use std::alloc::{AllocError, Global};
use tcl_num::saturating_sum;
use tcl_poly::{Poly, Unknown, is_wide, variable_key};
use tcl_port::What;
use tcl_ring::Ring;

// The greatest degree, and the greatest number of terms.
const DEGREE: u32 = 1024;

const TERMS: u32 = 65_536;

/// What one definition makes of a polynomial.
#[derive(Drop)]
pub(crate) enum Step<R: Ring> {
    /// The polynomial, in which the variable does not occur.
    Same(Poly<R>),
    /// The polynomial with the definition substituted, and the bound that is spent then, which stays at 2^127.
    Next(Substituted<R>, u128),
    /// The bound is too great.
    Wide,
    /// A degree or a number of terms is too great.
    Large(What, u32),
}

pub(crate) fn reduce_by<R: Ring>(
    alloc: Global,
    ring: &R,
    definition: &Definition<R>,
    f: Poly<R>,
    spent: u128,
) -> Result<Step<R>, AllocError>
    requires definition { p.IsOver (R.modulus_of ring.now) (R.amount ring.now) definition.now.poly }
    requires polynomial { p.IsOver (R.modulus_of ring.now) (R.amount ring.now) f }
    requires degree { p.degree_of f ≤ 1024 }
    requires covered { IsCovered (R.modulus_of ring.now) (p.norm_of (p.terms_of (R.amount ring.now) f)) spent }
    ensures continues { IfOk result (λ step. (same further : s.Reduced) →
        s.reduced_at (R.modulus_of ring.now) (definition.now.place, variable_key definition.now.variable, p.terms_of (R.amount ring.now) definition.now.poly) (p.terms_of (R.amount ring.now) f) spent
        (parts.top (variable_key definition.now.variable) (p.terms_of (R.amount ring.now) f)) same further
        ≡ continued definition.now.place same further step) }
    ensures made { IfOk result (λ step. IsNext (R.modulus_of ring.now) (R.amount ring.now) (definition.now.place, variable_key definition.now.variable, p.terms_of (R.amount ring.now) definition.now.poly) (p.terms_of (R.amount ring.now) f) spent step) }
{
    let key = variable_key(definition.variable);
    let d = &definition.poly;
    if !occurs(key, &f) {
        return Ok(Step::Same(f));
    }
    let mut parts = parts(alloc, key, f)?;
    let list = parts.as_slice();
    let top = greatest(list);
    let spent = saturating_sum(spent, bound(ring, d, list, top), LIMIT);
    if is_wide(ring, spent) {
        return Ok(Step::Wide);
    }
    let degree = deepest(d, list);
    if degree > DEGREE {
        return Ok(Step::Large(What::Degree, degree));
    }
    let terms = count(d, list);
    if terms > TERMS {
        return Ok(Step::Large(What::Terms, terms));
    }
    let first = take_first(alloc, &mut parts);
    let unknown = Unknown::Var(definition.variable);
    let made = substitute(alloc, ring, unknown, d, first, parts.as_slice(), top)?;
    Ok(Step::Next(made, spent))
}
