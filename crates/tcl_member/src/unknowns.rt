// The unknowns that occur in rows and in what is left of the claim, rising.

ghost use Rattle.std.specs.Prelude.{◌≡◌, ℕ, ℤ, ◌<◌, ◌≤◌, [], length, slice_index_or, IfOk, OnOk};
ghost use Rattle.tcl_poly.specs.Polynomial as p;
ghost use Rattle.tcl_poly.specs.Unknown.{key_of};
ghost use Rattle.tcl_reduce.specs.Multiple as s;
ghost use Rattle.tcl_pivots.specs.Held.{pivots_shown};
ghost use Rattle.tcl_member.specs.Course.{keys_in};

use std::alloc::{AllocError, Global};
use tcl_pivots::Pivot;
use tcl_poly::{Mono, Poly, Unknown, terms};
use tcl_ring::Ring;

/// The unknowns of kept rows and of a polynomial, each once, by rising keys.
pub(crate) fn unknowns_of<R: Ring>(
    alloc: Global,
    kept: &[Pivot<R>],
    rest: &Poly<R>,
) -> Result<Vec<Unknown>, AllocError>
    ensures { IfOk result (λ us. (value : R.Elem → ℤ) → keys_in us.items ≡ s.unknowns_of (p.terms_of value rest.now) (s.row_unknowns (pivots_shown value kept.now) [])) }
{
    let mut unknowns = Vec::new(alloc);
    let mut k = kept.len();
    while k > 0 {
        k -= 1;
        let pivot: &Pivot<R> = &kept[k];
        add_unknowns(&mut unknowns, &pivot.row.poly)?;
    }
    add_unknowns(&mut unknowns, rest)?;
    Ok(unknowns)
}

/// Adds the unknowns of a polynomial.
fn add_unknowns<R: Ring>(unknowns: &mut Vec<Unknown>, a: &Poly<R>) -> Result<(), AllocError>
    ensures { OnOk result ((value : R.Elem → ℤ) → keys_in unknowns.new.items ≡ s.unknowns_of (p.terms_of value a.now) (keys_in unknowns.old.items)) }
{
    let list = terms(a);
    let mut k = list.len();
    while k > 0 {
        k -= 1;
        let term: &(Mono, R::Elem) = &list[k];
        add_factors(unknowns, &term.0)?;
    }
    Ok(())
}

/// Adds the unknowns of a monomial.
fn add_factors(unknowns: &mut Vec<Unknown>, monomial: &Mono) -> Result<(), AllocError>
    ensures { OnOk result (keys_in unknowns.new.items ≡ s.keys_of monomial.now (keys_in unknowns.old.items)) }
{
    let mut k = monomial.len();
    while k > 0 {
        k -= 1;
        add_unknown(unknowns, monomial.at(k).unknown)?;
    }
    Ok(())
}

/// Adds an unknown at its place, unless it is there.
fn add_unknown(unknowns: &mut Vec<Unknown>, unknown: Unknown) -> Result<(), AllocError>
    ensures { OnOk result (keys_in unknowns.new.items ≡ s.insert_key (key_of unknown) (keys_in unknowns.old.items)) }
{
    let place = place_of(unknowns.as_slice(), unknown);
    if place < unknowns.len() && unknowns[place].key() == unknown.key() {
        return Ok(());
    }
    unknowns.insert(place, unknown)?;
    Ok(())
}

/// The first place whose unknown does not come before that one.
fn place_of(unknowns: &[Unknown], unknown: Unknown) -> usize
    ensures bound { result ≤ length unknowns.now }
    ensures passed { (k : ℕ) → k < result → slice_index_or (keys_in unknowns.now) k 0 < key_of unknown }
    ensures there { result < length unknowns.now → key_of unknown ≤ slice_index_or (keys_in unknowns.now) result 0 }
{
    let mut i = 0;
    while i < unknowns.len() {
        if unknowns[i].key() >= unknown.key() {
            return i;
        }
        i += 1;
    }
    i
}
