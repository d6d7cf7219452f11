// The equations of goals of programs, and two small claims over the integers.

ghost use Rattle.std.specs.Prelude.{◌≡◌, [], IfOk, OnOk};
ghost use Rattle.tests_member.specs.Begun.{AreBegun};

use crate::answers::answer;
use crate::counter::Counter;
use crate::expectation::agree;
use crate::making::{define, equations_for, push_equation};
use crate::polynomials::{Term, sum_of_terms};
use std::alloc::Global;
use std::test::Fail;
use tcl_list::Listing;
use tcl_poly::Poly;
use tcl_reduce::{Defs, Equations};
use tcl_ring::{Residue, Ring, Whole};

// A place, a variable, and the terms of its definition.
type Row = (u32, u32, &'static [Term]);

// Definitions, the other equations, the claim, and the answer.
type Case = (
    &'static [Row],
    &'static [&'static [Term]],
    &'static [Term],
    &'static str,
);

// Montgomery reduction modulo 3329 (P. L. Montgomery, Math. Comp. 44, 1985) and the two results of a butterfly around it: the
// equations of their last goals, with the unknowns of lines as variables above 100. The answers come from the reference in Python.
const MODULO_3329: &[Case] = &[
    (
        &[
            (2, 1, &[(1, (0, 1), (0, 0)), (1044, (102, 1), (0, 0))]),
            (3, 3, &[(2, (1, 1), (0, 0)), (1044, (2, 1), (0, 0))]),
            (4, 4, &[(1, (3, 1), (0, 0)), (1044, (104, 1), (0, 0))]),
            (5, 5, &[]),
            (6, 6, &[(1, (0, 1), (0, 0)), (3328, (5, 1), (0, 0))]),
            (7, 8, &[(1, (6, 1), (0, 0)), (1044, (7, 1), (0, 0))]),
            (10, 9, &[(1, (7, 1), (0, 0))]),
        ],
        &[
            &[(1, (8, 1), (0, 0)), (1044, (108, 1), (0, 0))],
            &[(1, (8, 1), (0, 0))],
        ],
        &[(3328, (0, 1), (0, 0)), (2285, (9, 1), (0, 0))],
        "cofactors 3: 3328; 4: 1; 5: 1; 6: 2285; 8: 3328;",
    ),
    (
        &[
            (6, 3, &[(1, (1, 1), (2, 1))]),
            (7, 4, &[(1, (3, 1), (0, 0)), (1044, (107, 1), (0, 0))]),
            (8, 6, &[(2, (4, 1), (0, 0)), (1044, (5, 1), (0, 0))]),
            (9, 7, &[(1, (6, 1), (0, 0)), (1044, (109, 1), (0, 0))]),
            (10, 8, &[]),
            (11, 9, &[(1, (3, 1), (0, 0)), (3328, (8, 1), (0, 0))]),
            (12, 11, &[(1, (9, 1), (0, 0)), (1044, (10, 1), (0, 0))]),
            (15, 12, &[(1, (10, 1), (0, 0))]),
            (16, 13, &[(1, (0, 1), (0, 0)), (1, (12, 1), (0, 0))]),
        ],
        &[
            &[(1, (11, 1), (0, 0)), (1044, (113, 1), (0, 0))],
            &[(1, (11, 1), (0, 0))],
        ],
        &[
            (3328, (1, 1), (2, 1)),
            (1044, (0, 1), (0, 0)),
            (2285, (13, 1), (0, 0)),
        ],
        "cofactors 0: 1; 4: 3328; 5: 1; 6: 1; 7: 2285; 8: 2285; 10: 3328;",
    ),
    (
        &[
            (6, 3, &[(1, (1, 1), (2, 1))]),
            (7, 4, &[(1, (3, 1), (0, 0)), (1044, (107, 1), (0, 0))]),
            (8, 6, &[(2, (4, 1), (0, 0)), (1044, (5, 1), (0, 0))]),
            (9, 7, &[(1, (6, 1), (0, 0)), (1044, (109, 1), (0, 0))]),
            (10, 8, &[]),
            (11, 9, &[(1, (3, 1), (0, 0)), (3328, (8, 1), (0, 0))]),
            (12, 11, &[(1, (9, 1), (0, 0)), (1044, (10, 1), (0, 0))]),
            (15, 12, &[(1, (10, 1), (0, 0))]),
            (16, 13, &[(1, (0, 1), (0, 0)), (1, (12, 1), (0, 0))]),
            (17, 14, &[(1, (0, 1), (0, 0)), (3328, (12, 1), (0, 0))]),
        ],
        &[
            &[(1, (11, 1), (0, 0)), (1044, (113, 1), (0, 0))],
            &[(1, (11, 1), (0, 0))],
            &[
                (3328, (1, 1), (2, 1)),
                (1044, (0, 1), (0, 0)),
                (2285, (13, 1), (0, 0)),
            ],
        ],
        &[
            (1, (1, 1), (2, 1)),
            (1044, (0, 1), (0, 0)),
            (2285, (14, 1), (0, 0)),
        ],
        "cofactors 0: 3328; 4: 1; 5: 3328; 6: 3328; 7: 1044; 9: 2285; 11: 1;",
    ),
];

// A bitwise operation gives no equation, so that its claim is left as it is; and from x = y follows x^2 = y^2, by the products of
// x - y with x and y.
const WHOLE: &[Case] = &[
    (
        &[],
        &[],
        &[(-1, (0, 1), (0, 0)), (1, (1, 1), (0, 0))],
        "rest -1 0^1;1 1^1;",
    ),
    (
        &[],
        &[&[(1, (0, 1), (0, 0)), (-1, (1, 1), (0, 0))]],
        &[(1, (0, 2), (0, 0)), (-1, (1, 2), (0, 0))],
        "cofactors 0: 1 0^1;1 1^1;",
    ),
];

/// The definitions of rows, whose equations alone are in the list then.
fn define_all<R: Ring>(
    alloc: Global,
    ring: &R,
    rows: &[Row],
    list: &mut Listing<Poly<R>>,
) -> Result<Defs<R>, Fail>
    requires { list.old ≡ [] }
    ensures { IfOk result (λ defs. AreBegun (R.modulus_of ring.now) (R.amount ring.now) defs list.new) }
{
    let mut defs = Defs::new(alloc);
    for row in rows {
        let poly = sum_of_terms(alloc, ring, row.2)?;
        define(alloc, ring, &mut defs, list, row.0, row.1, poly)?;
    }
    Ok(defs)
}

/// Adds the other equations.
fn push_all<R: Ring>(
    alloc: Global,
    ring: &R,
    rows: &[&[Term]],
    defs: &Defs<R>,
    list: &mut Listing<Poly<R>>,
) -> Result<(), Fail>
    requires { AreBegun (R.modulus_of ring.now) (R.amount ring.now) defs.now list.old }
    ensures { OnOk result (AreBegun (R.modulus_of ring.now) (R.amount ring.now) defs.now list.new) }
{
    for row in rows {
        let equation = sum_of_terms(alloc, ring, row)?;
        push_equation(ring, defs, list, equation)?;
    }
    Ok(())
}

/// The equations of a case.
fn equations_in<R: Ring + Copy>(alloc: Global, ring: R, case: &Case) -> Result<Equations<R>, Fail> {
    let mut list = Listing::new(alloc);
    let defs = define_all(alloc, &ring, case.0, &mut list)?;
    push_all(alloc, &ring, case.1, &defs, &mut list)?;
    let claim = sum_of_terms(alloc, &ring, case.2)?;
    equations_for(alloc, ring, defs, list, claim)
}

/// The answer for a case and a budget of 10.
fn answer_in<R: Ring + Copy>(alloc: Global, ring: R, case: &Case) -> Result<String, Fail> {
    let equations = equations_in(alloc, ring, case)?;
    answer(alloc, &equations, 10, &mut Counter::new(0))
}

#[test]
fn goals_of_programs(rt: HostRuntime) -> Result<(), Fail> {
    let ring = Residue { modulus: 3329 };
    for case in MODULO_3329 {
        let made = answer_in(rt.alloc(), ring, case)?;
        agree(&rt, made.as_str(), case.3);
    }
    for case in WHOLE {
        let made = answer_in(rt.alloc(), Whole, case)?;
        agree(&rt, made.as_str(), case.3);
    }
    Ok(())
}
