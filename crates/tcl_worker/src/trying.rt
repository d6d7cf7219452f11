//! Inputs that are tried on an algebraic goal.

ghost use Rattle.std.specs.Prelude.{◌≡◌, true, IfOk};
ghost use Rattle.tcl_goals.specs.Places.{has_goal};
ghost use Rattle.tcl_worker.specs.Trials.{IsTried};

use crate::checking::tried;
use std::alloc::{AllocError, Global};
use tcl_exec::trial;
use tcl_kernel::Proof;
use tcl_lang::Ssa;

/// How many inputs are tried.
const TRIALS: u32 = 256;

/// The kernel's proof that the first trial input that refutes a goal does so, none where no trial input does. The only error
/// is that memory has run out.
pub(crate) fn first_trial(alloc: Global, ssa: &Ssa, goal: u32) -> Result<Option<Proof>, AllocError>
    requires { has_goal ssa.now.lines goal ≡ true }
    ensures { IfOk result (λ given. IsTried ssa.now goal given) }
{
    for k in 0..TRIALS {
        let input = trial(alloc, k, ssa)?;
        if let Some(proof) = tried(alloc, ssa, goal, input)? {
            return Ok(Some(proof));
        }
    }
    Ok(None)
}
