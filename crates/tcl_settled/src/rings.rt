//! The rings of claims.

ghost use Rattle.std.specs.Prelude.{◌≡◌, ℕ, Some, false};
ghost use Rattle.tcl_ring.specs.Reduction.{IsModulus};
ghost use Rattle.tcl_goals.specs.declared.fact.Claim.TheVariants as claim;
ghost use Rattle.tcl_settled.specs.Rings.{IsOfRing, AreOfRings};

use tcl_algebra::{claim_equation, claim_modulus, has_wide_modulus};
use tcl_goals::Claim;
use tcl_lang::Ssa;

/// Where the goal is an equation without a wide modulus, its modulus is one of a ring.
fn know_ring(ssa: &Ssa, goal: u32)
    ensures { IsOfRing ssa.now (claim.Goal goal) }
{
    if let Some(equation) = claim_equation(ssa, &Claim::Goal(goal))
        && !has_wide_modulus(&equation.modulus)
    {
        let _modulus = claim_modulus(equation);
    }
}

/// Where a goal is an equation without a wide modulus, its modulus is one of a ring: from 1 to 2^126. Looks at the first
/// `goals` goals.
pub fn know_rings(ssa: &Ssa, goals: u32)
    ensures { AreOfRings ssa.now goals }
{
    for goal in 0..goals {
        know_ring(ssa, goal);
    }
}
