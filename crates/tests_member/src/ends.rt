// Searches that end by their budget or their port.

ghost use Rattle.std.specs.Prelude.{None, IfOk};
ghost use Rattle.tcl_poly.specs.Polynomial.{IsOver};

use crate::answers::answer;
use crate::counter::Counter;
use crate::expectation::{agree, agree_on_polls};
use crate::making::{equations_for, push_equation};
use crate::polynomials::multiply;
use std::alloc::Global;
use std::process::Abort;
use std::test::Fail;
use tcl_list::Listing;
use tcl_poly::{Poly, Unknown, number, power};
use tcl_reduce::{Defs, Equations};
use tcl_ring::Whole;

/// The product of the squares of the variables from the first to the fifth.
fn squares(alloc: Global) -> Result<Poly<Whole>, Fail>
    ensures { IfOk result (λ p. IsOver None (λ n. n) p) }
{
    let mut product = number(alloc, &Whole, 1)?;
    for variable in 1..6 {
        let square = power(alloc, &Whole, Unknown::Var(variable), 2)?;
        product = multiply(&Whole, &product, &square)?;
    }
    Ok(product)
}

/// The equation x0 = 0 and a claim of degree 10 without x0, of which no product is a part.
fn long_search(alloc: Global) -> Result<Equations<Whole>, Fail> {
    let defs = Defs::new(alloc);
    let mut list = Listing::new(alloc);
    let x = power(alloc, &Whole, Unknown::Var(0), 1)?;
    push_equation(&Whole, &defs, &mut list, x)?;
    let claim = squares(alloc)?;
    equations_for(alloc, Whole, defs, list, claim)
}

/// The search with that budget and a port that cancels at that poll answers so, after so many polls.
fn expect_end(
    rt: &impl Abort,
    alloc: Global,
    budget: u32,
    cancel_at: u64,
    wanted: &str,
    polls: u64,
) -> Result<(), Fail> {
    let equations = long_search(alloc)?;
    let mut port = Counter::new(cancel_at);
    let made = answer(alloc, &equations, budget, &mut port)?;
    agree(rt, made.as_str(), wanted);
    agree_on_polls(rt, port.polls, polls);
    Ok(())
}

// Budgets, the poll that cancels where one does, the answer, and the polls. There are 5,004 products of degrees up to 10, none of
// which shows the claim; a poll comes before the first and before each further 1,000.
const ENDS: &[(u32, u64, &str, u64)] = &[
    (1, 0, "spent 1", 1),
    (100, 0, "spent 100", 1),
    (1000, 0, "spent 1000", 1),
    (1001, 0, "spent 1001", 2),
    (100, 1, "stopped", 1),
    (2000, 2, "stopped", 2),
    (9000, 0, "rest 1 1^2 2^2 3^2 4^2 5^2;", 6),
];

#[test]
fn ends(rt: HostRuntime) -> Result<(), Fail> {
    for (budget, cancel_at, wanted, polls) in ENDS {
        expect_end(&rt, rt.alloc(), *budget, *cancel_at, wanted, *polls)?;
    }
    Ok(())
}
