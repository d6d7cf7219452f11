//! The definitions of the used instructions, and their equations.

ghost use Rattle.std.specs.Prelude.{◌≡◌, ℕ, ℤ, Option, ◌+◌, ◌≤◌, ◌^◌, ◌++◌, Bool, min, true, false, [], Some, IfOk, OnOk};
ghost use Rattle.std.specs.List.{cons_option};
ghost use Rattle.tcl_ring.specs.Reduction as r;
ghost use Rattle.tcl_poly.specs.Unknown.{variable_key};
ghost use Rattle.tcl_poly.specs.Polynomial as p;
ghost use Rattle.tcl_reduce.specs.Reduction as reduction;
ghost use Rattle.tcl_reduce.specs.Answer.{definitions_of};
ghost use Rattle.tcl_lang.specs.Bound as bound;
ghost use Rattle.tcl_algebra.specs.Row as rows;
ghost use Rattle.tcl_algebra.specs.Equations as equations;
ghost use Rattle.tcl_algebra.specs.Sound.{IsSoundInstruction};
ghost use Rattle.tcl_algebra.specs.Defined.{IsDefined, triples_of};
ghost use Rattle.tcl_algebra.specs.Held.{IsAdded};

use crate::claim::NORM_END;
use crate::lines::instruction_at;
use crate::multiple::less_multiple;
use crate::row::{counts, has_quotient, last_of, row_term};
use crate::rows::Rows;
use std::alloc::{AllocError, Global};
use tcl_goals::{Fact, Hyp};
use tcl_lang::{Instr, Ssa, Term, Variable};
use tcl_list::Listing;
use tcl_measure::norm;
use tcl_num::{power_of_two, saturating_sum};
use tcl_poly::{Poly, is_wide};
use tcl_reduce::Definition;
use tcl_ring::Ring;
use tcl_term_poly::{difference, polynomial, variable};

/// Whether the line of a place is a hypothesis.
fn is_assumed(hyps: &[Hyp], place: u32) -> bool
    ensures { result ≡ equations.is_assumed hyps.now place }
{
    hyps.iter().any(|hyp| match hyp {
        Hyp::Line(k) => *k == place,
        Hyp::Lemma(_) => false,
    })
}

/// A bound of the norm of a definition's equation, which stays at 2^127.
fn definition_norm(variables: &[Variable], instr: &Instr, term: &Term) -> u128
    requires { IsSoundInstruction variables.now instr.now }
    ensures { result ≡ min (equations.definition_norm variables.now instr.now term.now) (2 ^ 127) }
{
    let multiple: u128 = if has_quotient(variables, instr) {
        1 << instr.ty.width
    } else {
        0
    };
    saturating_sum(norm(term), 1 + multiple, NORM_END)
}

/// The polynomial that the last result equals.
fn value<R: Ring>(
    alloc: Global,
    ring: &R,
    variables: &[Variable],
    place: u32,
    instr: &Instr,
    term: &Term,
) -> Result<Poly<R>, AllocError>
    requires sound { IsSoundInstruction variables.now instr.now }
    requires degree { bound.degree_of term.now ≤ 1024 }
    requires fits { r.is_wide (R.modulus_of ring.now) (equations.definition_norm variables.now instr.now term.now) ≡ false }
    ensures value { IfOk result (λ x. p.terms_of (R.amount ring.now) x ≡ equations.definition_polynomial (r.reduced_by (R.modulus_of ring.now)) variables.now place instr.now term.now) }
    ensures over { IfOk result (λ x. p.IsOver (R.modulus_of ring.now) (R.amount ring.now) x) }
{
    let made = polynomial(alloc, ring, term)?;
    if has_quotient(variables, instr) {
        less_multiple(alloc, ring, made, power_of_two(instr.ty.width), place)
    } else {
        Ok(made)
    }
}

/// The equation of a definition: the variable less its polynomial.
fn equation<R: Ring>(
    alloc: Global,
    ring: &R,
    name: u32,
    value: &Poly<R>,
) -> Result<Poly<R>, AllocError>
    requires over { p.IsOver (R.modulus_of ring.now) (R.amount ring.now) value.now }
    requires fits { r.is_wide (R.modulus_of ring.now) (1 + p.norm_of (p.terms_of (R.amount ring.now) value.now)) ≡ false }
    ensures { IfOk result (λ x. p.terms_of (R.amount ring.now) x ≡ reduction.equation_of (r.reduced_by (R.modulus_of ring.now)) (0, variable_key name, p.terms_of (R.amount ring.now) value.now)) }
{
    let x = variable(alloc, ring, name)?;
    difference(ring, x, value)
}

/// The definition by a term, and its equation; none over whole numbers where its equation can be too great.
fn defined<R: Ring>(
    alloc: Global,
    ring: &R,
    variables: &[Variable],
    place: u32,
    instr: &Instr,
    term: &Term,
) -> Result<Option<(Definition<R>, Poly<R>)>, AllocError>
    requires sound { IsSoundInstruction variables.now instr.now }
    requires degree { bound.degree_of term.now ≤ 1024 }
    ensures { (exact : Bool) → rows.counts instr.now.op exact ≡ true → IfOk result (λ o. IsDefined (R.modulus_of ring.now) (R.amount ring.now) (equations.definition_by (R.modulus_of ring.now) variables.now place instr.now exact (Some term.now)) o) }
{
    if is_wide(ring, definition_norm(variables, instr, term)) {
        return Ok(None);
    }
    let poly = value(alloc, ring, variables, place, instr, term)?;
    let variable = last_of(instr.outs.as_slice());
    let equation = equation(alloc, ring, variable, &poly)?;
    Ok(Some((
        Definition {
            place,
            variable,
            poly,
        },
        equation,
    )))
}

/// The definition that the instruction of a place gives, with its equation, where it gives one: not without its exactness
/// goal, where it has one.
fn definition<R: Ring>(
    alloc: Global,
    ring: &R,
    variables: &[Variable],
    place: u32,
    exact: bool,
    instr: &Instr,
) -> Result<Option<(Definition<R>, Poly<R>)>, AllocError>
    requires { IsSoundInstruction variables.now instr.now }
    ensures { IfOk result (λ o. IsDefined (R.modulus_of ring.now) (R.amount ring.now) (equations.definition_in (R.modulus_of ring.now) variables.now place exact (Some instr.now)) o) }
{
    if !counts(instr.op, exact) {
        return Ok(None);
    }
    let row = row_term(alloc, instr)?;
    match row {
        Some(term) => defined(alloc, ring, variables, place, instr, &term),
        None => Ok(None),
    }
}

/// Adds a definition and its equation, where there is one.
fn push_definition<R: Ring>(
    found: Option<(Definition<R>, Poly<R>)>,
    definitions: &mut Listing<Definition<R>>,
    rows: &mut Rows<R>,
) -> Result<(), AllocError>
    ensures definitions { (value : R.Elem → ℤ) (m : Option ℕ) (d : Option reduction.Definition) → IsDefined m value d found → OnOk result (definitions_of value (triples_of definitions.new) ≡ definitions_of value (triples_of definitions.old) ++ cons_option d []) }
    ensures rows { (value : R.Elem → ℤ) (m : Option ℕ) (d : Option reduction.Definition) → IsDefined m value d found → OnOk result (IsAdded value rows.old.list rows.new.list rows.old.places rows.new.places (equations.definition_equations m (cons_option d []))) }
{
    match found {
        Some((definition, equation)) => {
            rows.push(definition.place, equation)?;
            definitions.push(definition)
        }
        None => Ok(()),
    }
}

/// Adds the definition of the instruction of a place to the definitions, and its equation to the equations.
fn add_definition<R: Ring>(
    alloc: Global,
    ring: &R,
    ssa: &Ssa,
    hyps: &[Hyp],
    place: u32,
    definitions: &mut Listing<Definition<R>>,
    rows: &mut Rows<R>,
) -> Result<(), AllocError>
    ensures definitions { OnOk result (definitions_of (R.amount ring.now) (triples_of definitions.new) ≡ definitions_of (R.amount ring.now) (triples_of definitions.old) ++ cons_option (equations.definition_at (R.modulus_of ring.now) ssa.now hyps.now place) []) }
    ensures rows { OnOk result (IsAdded (R.amount ring.now) rows.old.list rows.new.list rows.old.places rows.new.places
        (equations.definition_equations (R.modulus_of ring.now) (cons_option (equations.definition_at (R.modulus_of ring.now) ssa.now hyps.now place) []))) }
{
    match instruction_at(ssa, place as usize) {
        Some(instr) => {
            let exact = is_assumed(hyps, place);
            let variables = ssa.variables().as_slice();
            let found = definition(alloc, ring, variables, place, exact, instr)?;
            push_definition(found, definitions, rows)
        }
        None => Ok(()),
    }
}

/// The definitions of the used instructions by place. Adds their equations.
pub(crate) fn add_definitions<R: Ring>(
    alloc: Global,
    ring: &R,
    ssa: &Ssa,
    fact: &Fact,
    rows: &mut Rows<R>,
) -> Result<Listing<Definition<R>>, AllocError>
    ensures definitions { IfOk result (λ definitions. definitions_of (R.amount ring.now) (triples_of definitions) ≡ equations.definitions_of (R.modulus_of ring.now) ssa.now fact.now) }
    ensures rows { OnOk result (IsAdded (R.amount ring.now) rows.old.list rows.new.list rows.old.places rows.new.places
        (equations.definition_equations (R.modulus_of ring.now) (equations.definitions_of (R.modulus_of ring.now) ssa.now fact.now))) }
{
    let hyps = fact.hyps.as_slice();
    let uses = fact.uses.as_slice();
    let mut definitions = Listing::new(alloc);
    for k in 0..uses.len() {
        add_definition(alloc, ring, ssa, hyps, uses[k], &mut definitions, rows)?;
    }
    Ok(definitions)
}
