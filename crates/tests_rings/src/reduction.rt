//! Plain reductions.

ghost use Rattle.std.specs.Prelude.{ℕ, [], ◌∷◌, ◌++◌, None, IsTrue, IfOk, OnOk};
ghost use Rattle.tcl_ring.specs.Reduction as r;
ghost use Rattle.tcl_poly.specs.Polynomial.{IsOver};
ghost use Rattle.tcl_poly.specs.Combination.{Terms};
ghost use Rattle.tcl_reduce.specs.Answer.{definitions_of};
ghost use Rattle.tcl_reduce.specs.Definitions.{AreRising};
ghost use Rattle.tcl_reduce.specs.Remainder.{AreDefinitions};

use crate::expected::{agrees, holds};
use crate::naming::write_terms;
use std::alloc::{AllocError, Global};
use std::process::Abort;
use tcl_poly::{Cofactors, Poly, PolyFault, Unknown, add, degree, mul, number, power, terms, zero};
use tcl_port::{At, What};
use tcl_reduce::{Definition, Defs, Plain, plain};
use tcl_ring::{Residue, Ring, Whole};

// A coefficient and two powers of variables, each by its number and exponent.
type Term = (i128, (u32, u32), (u32, u32));

// A place, a variable, and the terms of its definition.
type Row = (u32, u32, &'static [Term]);

const NONE: Term = (0, (0, 0), (0, 0));

// Definitions, a polynomial, and what is left of it over the integers.
type Case = (&'static [Row], &'static [Term], &'static str);

fn polynomial<R: Ring>(alloc: Global, ring: &R, terms: &[Term]) -> Result<Poly<R>, PolyFault>
    ensures { IfOk result (λ p. IsOver (R.modulus_of ring.now) (R.amount ring.now) p) }
{
    let mut sum = zero(alloc);
    for term in terms {
        let made = product(alloc, ring, term)?;
        sum = add(ring, &sum, &made)?;
    }
    Ok(sum)
}

fn product<R: Ring>(alloc: Global, ring: &R, term: &Term) -> Result<Poly<R>, PolyFault>
    ensures { IfOk result (λ p. IsOver (R.modulus_of ring.now) (R.amount ring.now) p) }
{
    let constant = number(alloc, ring, term.0)?;
    let x = power(alloc, ring, Unknown::Var(term.1.0), term.1.1)?;
    let y = power(alloc, ring, Unknown::Var(term.2.0), term.2.1)?;
    let both = multiply(ring, &x, &y)?;
    multiply(ring, &constant, &both)
}

fn multiply<R: Ring>(ring: &R, a: &Poly<R>, b: &Poly<R>) -> Result<Poly<R>, PolyFault>
    requires first { IsOver (R.modulus_of ring.now) (R.amount ring.now) a.now }
    requires second { IsOver (R.modulus_of ring.now) (R.amount ring.now) b.now }
    ensures { IfOk result (λ p. IsOver (R.modulus_of ring.now) (R.amount ring.now) p) }
{
    // A product of a test has a degree of at most 1,024.
    if degree(a) > 1024 || degree(b) > 1024 - degree(a) {
        return Err(PolyFault::Wide);
    }
    Ok(mul(ring, a, b)?)
}

// Whether the place comes after all others.
fn is_later<R: Ring>(defs: &Defs<R>, place: u32) -> bool
    ensures { IsTrue result → (variable : ℕ) (poly : Terms R.Elem) → AreRising (defs.now ++ (place, variable, poly) ∷ []) }
{
    let count = defs.len();
    if count == 0 {
        return true;
    }
    let last = defs.at(count - 1).place;
    if last < place {
        return true;
    }
    false
}

fn define<R: Ring>(
    ring: &R,
    defs: &mut Defs<R>,
    place: u32,
    variable: u32,
    poly: Poly<R>,
) -> Result<(), PolyFault>
    requires definitions { AreDefinitions (r.reduced_by (R.modulus_of ring.now)) (definitions_of (R.amount ring.now) defs.old) }
    requires over { IsOver (R.modulus_of ring.now) (R.amount ring.now) poly }
    ensures { OnOk result (AreDefinitions (r.reduced_by (R.modulus_of ring.now)) (definitions_of (R.amount ring.now) defs.new)) }
{
    // The places of a test rise.
    if !is_later(defs, place) {
        return Err(PolyFault::Wide);
    }
    defs.push(Definition {
        place,
        variable,
        poly,
    })?;
    Ok(())
}

fn write_equation(text: &mut String, equation: u32) -> Result<(), AllocError> {
    write!(text, " {equation}: ")
}

fn write_cofactors<R: Ring>(
    text: &mut String,
    ring: &R,
    cofactors: &Cofactors<R>,
) -> Result<(), AllocError> {
    for cofactor in cofactors.as_slice() {
        write_equation(text, cofactor.equation)?;
        write_terms(text, ring, &cofactor.poly)?;
    }
    Ok(())
}

fn zero_text<R: Ring>(
    alloc: Global,
    ring: &R,
    cofactors: &Cofactors<R>,
) -> Result<String, AllocError> {
    let mut text = String::from_str(alloc, "zero")?;
    write_cofactors(&mut text, ring, cofactors)?;
    Ok(text)
}

fn rest_text<R: Ring>(
    alloc: Global,
    ring: &R,
    rest: &Poly<R>,
    cofactors: &Cofactors<R>,
) -> Result<String, AllocError> {
    let mut text = String::from_str(alloc, "rest ")?;
    write_terms(&mut text, ring, rest)?;
    write_cofactors(&mut text, ring, cofactors)?;
    Ok(text)
}

fn wide_text(alloc: Global, at: At) -> Result<String, AllocError> {
    match at {
        At::Line(place) => format!(in alloc; "wide {place}"),
        At::Claim => String::from_str(alloc, "wide claim"),
    }
}

fn large_text(alloc: Global, what: What, n: u32) -> Result<String, AllocError> {
    let what = match what {
        What::Degree => "degree",
        What::Terms => "terms",
        What::Clauses => "clauses",
    };
    format!(in alloc; "large {what} {n}")
}

fn text_of<R: Ring>(alloc: Global, ring: &R, answer: &Plain<R>) -> Result<String, AllocError> {
    match answer {
        Plain::Zero(cofactors, _) => zero_text(alloc, ring, cofactors),
        Plain::Rest(rest, cofactors, _) => rest_text(alloc, ring, rest, cofactors),
        Plain::Wide(at) => wide_text(alloc, *at),
        Plain::Large(what, n) => large_text(alloc, *what, *n),
        Plain::Memory => String::from_str(alloc, "memory"),
    }
}

fn reduced<R: Ring>(
    alloc: Global,
    ring: &R,
    rows: &[Row],
    f: &[Term],
) -> Result<Plain<R>, PolyFault> {
    let mut defs = Defs::new(alloc);
    for row in rows {
        let poly = polynomial(alloc, ring, row.2)?;
        define(ring, &mut defs, row.0, row.1, poly)?;
    }
    let f = polynomial(alloc, ring, f)?;
    outcome(alloc, ring, &defs, &f)
}

fn reduce<R: Ring>(alloc: Global, ring: &R, rows: &[Row], f: &[Term]) -> Result<String, PolyFault> {
    Ok(text_of(alloc, ring, &reduced(alloc, ring, rows, f)?)?)
}

fn answer<R: Ring>(
    alloc: Global,
    ring: &R,
    defs: &Defs<R>,
    f: &Poly<R>,
) -> Result<String, PolyFault>
    requires definitions { AreDefinitions (r.reduced_by (R.modulus_of ring.now)) (definitions_of (R.amount ring.now) defs.now) }
    requires polynomial { IsOver (R.modulus_of ring.now) (R.amount ring.now) f.now }
{
    Ok(text_of(alloc, ring, &outcome(alloc, ring, defs, f)?)?)
}

fn outcome<R: Ring>(
    alloc: Global,
    ring: &R,
    defs: &Defs<R>,
    f: &Poly<R>,
) -> Result<Plain<R>, PolyFault>
    requires definitions { AreDefinitions (r.reduced_by (R.modulus_of ring.now)) (definitions_of (R.amount ring.now) defs.now) }
    requires polynomial { IsOver (R.modulus_of ring.now) (R.amount ring.now) f.now }
{
    // The polynomial of a test has a degree of at most 1,024.
    if degree(f) > 1024 {
        return Err(PolyFault::Wide);
    }
    Ok(plain(alloc, ring, defs, f))
}

// The residues of a modulus from 1 to 2^126.
fn ring_of(modulus: u128) -> Result<Residue, PolyFault> {
    if modulus == 0 || modulus > 1 << 126 {
        return Err(PolyFault::Wide);
    }
    Ok(Residue { modulus })
}

// What is left over the integers is what each case says.
fn expect_cases(rt: &impl Abort, alloc: Global, cases: &[Case]) {
    for (rows, f, wanted) in cases {
        agrees(rt, reduce(alloc, &Whole, rows, f), wanted);
    }
}

// Montgomery reduction modulo 3329, a butterfly, and a cast: the polynomials of their goals, with the unknowns of lines
// as variables above 100. The values come from the reference in Python.
const GOALS: &[(u128, &[Row], &[Term], &str)] = &[
    (
        65536,
        &[
            (2, 1, &[(1, (0, 1), (0, 0)), NONE]),
            (3, 3, &[(62209, (1, 1), (0, 0)), NONE]),
            (4, 4, &[(1, (3, 1), (0, 0)), NONE]),
            (5, 5, &[(3329, (4, 1), (0, 0)), NONE]),
            (6, 6, &[(1, (0, 1), (0, 0)), (65535, (5, 1), (0, 0))]),
            (7, 8, &[(1, (6, 1), (0, 0)), NONE]),
        ],
        &[(1, (8, 1), (0, 0))],
        "zero 0: 65535; 1: 62207; 2: 62207; 3: 65535; 4: 1; 5: 1;",
    ),
    (
        3329,
        &[
            (2, 1, &[(1, (0, 1), (0, 0)), (1044, (102, 1), (0, 0))]),
            (3, 3, &[(2, (1, 1), (0, 0)), (1044, (2, 1), (0, 0))]),
            (4, 4, &[(1, (3, 1), (0, 0)), (1044, (104, 1), (0, 0))]),
            (5, 5, &[NONE, NONE]),
            (6, 6, &[(1, (0, 1), (0, 0)), (3328, (5, 1), (0, 0))]),
            (7, 8, &[(1, (6, 1), (0, 0)), (1044, (7, 1), (0, 0))]),
            (10, 9, &[(1, (7, 1), (0, 0)), NONE]),
        ],
        &[(3328, (0, 1), (0, 0)), (2285, (9, 1), (0, 0))],
        "rest 3328 0^1;2285 7^1; 6: 2285;",
    ),
    (
        3329,
        &[
            (6, 3, &[(1, (1, 1), (2, 1)), NONE]),
            (15, 12, &[(1, (10, 1), (0, 0)), NONE]),
            (16, 13, &[(1, (0, 1), (0, 0)), (1, (12, 1), (0, 0))]),
        ],
        &[
            (3328, (1, 1), (2, 1)),
            (1044, (0, 1), (0, 0)),
            (2285, (13, 1), (0, 0)),
        ],
        "rest 3328 1^1 2^1;2285 10^1; 1: 2285; 2: 2285;",
    ),
    (
        4294967296,
        &[(1, 1, &[(1, (0, 1), (0, 0)), NONE])],
        &[(1, (0, 1), (0, 0)), (4294967295, (1, 1), (0, 0))],
        "zero 0: 4294967295;",
    ),
];

fn reduce_modulo(
    alloc: Global,
    modulus: u128,
    rows: &[Row],
    f: &[Term],
) -> Result<String, PolyFault> {
    let ring = ring_of(modulus)?;
    reduce(alloc, &ring, rows, f)
}

#[test]
fn goals_of_programs(rt: HostRuntime) {
    for (modulus, rows, f, wanted) in GOALS {
        agrees(&rt, reduce_modulo(rt.alloc(), *modulus, rows, f), wanted);
    }
}

const NEXT: Row = (4, 1, &[(1, (0, 1), (0, 0)), (1, (0, 0), (0, 0))]);

// The values come from the reference in Python; that of the cube, the first, is also (x + 1)^3 + 5.
const SUBSTITUTIONS: &[Case] = &[
    (
        &[NEXT],
        &[(1, (1, 3), (0, 0)), (5, (0, 0), (0, 0))],
        "rest 1 0^3;3 0^2;3 0^1;6; 0: 1 0^2;1 0^1 1^1;1 1^2;2 0^1;1 1^1;1;",
    ),
    (
        &[(4, 1, &[(2, (0, 1), (0, 0)), (-3, (0, 0), (0, 0))])],
        &[
            (1, (1, 2), (0, 0)),
            (7, (1, 1), (0, 1)),
            (-1, (0, 2), (0, 0)),
        ],
        "rest 17 0^2;-33 0^1;9; 0: 9 0^1;1 1^1;-3;",
    ),
    (
        &[
            (1, 1, &[(1, (0, 1), (0, 0)), NONE]),
            (2, 2, &[(1, (1, 1), (0, 0)), (1, (0, 0), (0, 0))]),
        ],
        &[(1, (2, 1), (0, 0))],
        "rest 1 0^1;1; 0: 1; 1: 1;",
    ),
    (
        &[(4, 1, &[NONE, NONE])],
        &[
            (1, (1, 1), (0, 0)),
            (1, (1, 2), (0, 1)),
            (1, (0, 1), (0, 0)),
        ],
        "rest 1 0^1; 0: 1 0^1 1^1;1;",
    ),
    (&[NEXT], &[(1, (2, 1), (0, 0))], "rest 1 2^1;"),
];

#[test]
fn substitutions(rt: HostRuntime) {
    expect_cases(&rt, rt.alloc(), SUBSTITUTIONS);
    let made = reduce_modulo(rt.alloc(), 1, &[NEXT], &[(1, (1, 1), (0, 0))]);
    agrees(&rt, made, "zero");
}

const SAME: Row = (9, 1, &[(1, (0, 1), (0, 0)), NONE]);

const TWICE: &[Row] = &[
    (3, 1, &[(1, (0, 1), (0, 0)), NONE]),
    (5, 2, &[(1, (1, 1), (0, 0)), NONE]),
];

// Each sum of the norm and the bounds is 2^127 at the wide ones, and less by 1 to 3 at the others.
const WIDTHS: &[Case] = &[
    (
        &[SAME],
        &[(1 << 125, (1, 1), (0, 0)), (1 << 125, (0, 0), (0, 0))],
        "wide 9",
    ),
    (
        &[SAME],
        &[(1 << 125, (1, 1), (0, 0)), ((1 << 125) - 1, (0, 0), (0, 0))],
        "rest 42535295865117307932921825928971026432 0^1;42535295865117307932921825928971026431; 0: 42535295865117307932921825928971026432;",
    ),
    (
        TWICE,
        &[(1 << 124, (2, 1), (0, 0)), (1 << 124, (1, 1), (0, 0))],
        "wide 3",
    ),
    (
        TWICE,
        &[(1 << 124, (2, 1), (0, 0)), ((1 << 124) - 1, (1, 1), (0, 0))],
        "rest 42535295865117307932921825928971026431 0^1; 0: 42535295865117307932921825928971026431; 1: 21267647932558653966460912964485513216;",
    ),
    (
        &[(6, 1, &[(1 << 63, (0, 1), (0, 0)), NONE])],
        &[(1, (1, 2), (0, 0))],
        "wide 6",
    ),
    (
        &[(6, 1, &[(1 << 126, (0, 1024), (0, 0)), NONE])],
        &[(2, (1, 1), (0, 1))],
        "wide 6",
    ),
];

#[test]
fn widths(rt: HostRuntime) {
    expect_cases(&rt, rt.alloc(), WIDTHS);
}

const HIGH: Row = (6, 1, &[(1, (0, 1024), (0, 0)), NONE]);

const DEGREES: &[Case] = &[
    (&[HIGH], &[(1, (1, 1), (2, 1))], "large degree 1025"),
    (&[HIGH], &[(1, (1, 1), (0, 0))], "rest 1 0^1024; 0: 1;"),
];

// The square of a variable that stands for the greatest power of another.
fn square_of_the_greatest(alloc: Global) -> Result<String, PolyFault> {
    let mut defs = Defs::new(alloc);
    let all = power(alloc, &Whole, Unknown::Var(0), u32::MAX)?;
    define(&Whole, &mut defs, 6, 1, all)?;
    let square = power(alloc, &Whole, Unknown::Var(1), 2)?;
    answer(alloc, &Whole, &defs, &square)
}

#[test]
fn degrees(rt: HostRuntime) {
    expect_cases(&rt, rt.alloc(), DEGREES);
    let made = square_of_the_greatest(rt.alloc());
    agrees(&rt, made, "large degree 4294967295");
}

fn sum_of_variables<R: Ring>(
    alloc: Global,
    ring: &R,
    from: u32,
    count: u32,
) -> Result<Poly<R>, PolyFault>
    ensures { IfOk result (λ p. IsOver (R.modulus_of ring.now) (R.amount ring.now) p) }
{
    let mut sum = zero(alloc);
    for k in 0..count {
        let x = product(alloc, ring, &(1, (from.saturating_add(k), 1), (0, 0)))?;
        sum = add(ring, &sum, &x)?;
    }
    Ok(sum)
}

fn spent<R: Ring>(answer: &Plain<R>) -> u128 {
    match answer {
        Plain::Zero(_, spent) => *spent,
        Plain::Rest(_, _, spent) => *spent,
        _ => 0,
    }
}

const BEFORE: Row = (4, 1, &[(1, (0, 1), (0, 0)), NONE]);

const THEN: Row = (5, 2, &[(1, (1, 1), (0, 0)), (1, (0, 0), (0, 0))]);

// The norm of the polynomial, and for each definition that is used k * norm(f_k) * norm(d)^(k-1) * (1 + norm(d)) over the
// powers k: 6 + 3 * 2^2 * 3; 1 + 3 + 2; the norm alone where none is used.
const SPENT: &[(&[Row], &[Term], u128)] = &[
    (&[NEXT], &[(1, (1, 3), (0, 0)), (5, (0, 0), (0, 0))], 42),
    (&[BEFORE, THEN], &[(1, (2, 1), (0, 0))], 6),
    (&[NEXT], &[(-9, (2, 1), (0, 0))], 9),
    (&[BEFORE], &[(1, (1, 1), (0, 0)), (-1, (0, 1), (0, 0))], 4),
];

// Whether so much was spent.
fn spends<R: Ring>(alloc: Global, ring: &R, rows: &[Row], f: &[Term], wanted: u128) -> bool {
    match reduced(alloc, ring, rows, f) {
        Ok(answer) => spent(&answer) == wanted,
        Err(_) => false,
    }
}

#[test]
fn bounds_that_were_spent(rt: HostRuntime) {
    for (rows, f, wanted) in SPENT {
        let is_so = spends(rt.alloc(), &Whole, rows, f, *wanted);
        holds(&rt, "a bound that was spent", is_so);
    }
}

// Modulo 2^126 what was spent is not above 2^127.
#[test]
fn bounds_of_residues(rt: HostRuntime) {
    let ring = Residue { modulus: 1 << 126 };
    let f = [(1 << 125, (1, 4), (0, 0))];
    let is_so = spends(rt.alloc(), &ring, &[BEFORE], &f, 1 << 127);
    holds(&rt, "the greatest bound", is_so);
}

fn terms_left(answer: &Plain<Whole>) -> usize {
    match answer {
        Plain::Rest(rest, _, _) => terms(rest).len(),
        _ => 0,
    }
}

// The outcome where variable 1 is the sum of 256 variables.
fn with_a_long_sum(alloc: Global, f: &Poly<Whole>) -> Result<Plain<Whole>, PolyFault>
    requires { IsOver None (λ n. n) f.now }
{
    let sum = sum_of_variables(alloc, &Whole, 10, 256)?;
    let mut defs = Defs::new(alloc);
    define(&Whole, &mut defs, 6, 1, sum)?;
    outcome(alloc, &Whole, &defs, f)
}

// The sum of the 256 variables times variable 1.
fn long_product(alloc: Global) -> Result<Poly<Whole>, PolyFault>
    ensures { IfOk result (λ p. IsOver None (λ n. n) p) }
{
    let sum = sum_of_variables(alloc, &Whole, 10, 256)?;
    let x = power(alloc, &Whole, Unknown::Var(1), 1)?;
    multiply(&Whole, &sum, &x)
}

fn text_of_product_and_more(alloc: Global) -> Result<String, PolyFault> {
    let y = power(alloc, &Whole, Unknown::Var(2), 1)?;
    let more = add(&Whole, &long_product(alloc)?, &y)?;
    Ok(text_of(alloc, &Whole, &with_a_long_sum(alloc, &more)?)?)
}

fn text_of_fourth_power(alloc: Global) -> Result<String, PolyFault> {
    let fourth = power(alloc, &Whole, Unknown::Var(1), 4)?;
    Ok(text_of(alloc, &Whole, &with_a_long_sum(alloc, &fourth)?)?)
}

fn has_fewer_terms(alloc: Global) -> Result<bool, PolyFault> {
    let product = long_product(alloc)?;
    Ok(terms_left(&with_a_long_sum(alloc, &product)?) == 32_896)
}

// 256 terms times 256 terms and one more, of which fewer are left when like terms are merged; and 256^4.
#[test]
fn numbers_of_terms(rt: HostRuntime) {
    let more = text_of_product_and_more(rt.alloc());
    agrees(&rt, more, "large terms 65537");
    let fourth = text_of_fourth_power(rt.alloc());
    agrees(&rt, fourth, "large terms 4294967295");
    let left = has_fewer_terms(rt.alloc());
    holds(&rt, "fewer terms are left", matches!(left, Ok(true)));
}
