//! The variables of a fact.

ghost use Rattle.std.specs.Prelude.{◌≡◌, ◌<◌, ◌^◌, IfOk, length};
ghost use Rattle.tcl_lang.specs.Defined.{is_among};
ghost use Rattle.tcl_goals.specs.Numbers as numbers;
ghost use Rattle.tcl_goals.specs.Closure as closures;
ghost use Rattle.tcl_goals.specs.Free as free;

use crate::fact::Fact;
use crate::free::add_fact;
use crate::lemma::Lemmas;
use crate::marks::Marks;
use std::alloc::{AllocError, Global};
use tcl_lang::Ssa;
use tcl_list::Listing;

/// The variables that the uses, the hypotheses, the cube or the claim of a fact name, results of used instructions
/// included, by number.
pub fn fact_variables(
    alloc: Global,
    ssa: &Ssa,
    lemmas: &Lemmas,
    fact: &Fact,
) -> Result<Listing<u32>, AllocError>
    ensures { IfOk result (λ vs. vs ≡ numbers.those_below (is_among (free.fact_variables ssa.now.lines lemmas.now.items fact.now)) (length ssa.now.variables)) }
{
    let count = ssa.variables().len();
    let mut named = Marks::none(alloc, count)?;
    add_fact(
        &mut named,
        ssa.lines().as_slice(),
        lemmas.items().as_slice(),
        fact,
    );
    marked(alloc, &named, count)
}

/// The variables of the first `count` that are in the set.
#[tactic(auto, using(crate::proofs::Numbers::those_none))]
fn marked(alloc: Global, named: &Marks, count: usize) -> Result<Listing<u32>, AllocError>
    requires { count < 2 ^ 32 }
    ensures { IfOk result (λ vs. vs ≡ numbers.those_below (closures.is_marked named.now.marks) count) }
{
    let mut chosen = Listing::new(alloc);
    for v in 0..count {
        if named.has(v) {
            chosen.push(v as u32)?;
        }
    }
    Ok(chosen)
}
