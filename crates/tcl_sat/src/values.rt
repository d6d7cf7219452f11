// The values that a search ends with.

ghost use Rattle.std.specs.Prelude.{◌≡◌, ◌*◌, ◌^◌, ◌<◌, ◌≤◌, IfOk};
ghost use Rattle.tcl_cnf.specs.Clause.{has};
ghost use Rattle.tcl_trail.specs.Assignment.{lits_of};
ghost use Rattle.tcl_sat.specs.State.{AreRead};

use std::alloc::{AllocError, Global};
use tcl_cnf::{Bits, Lit};
use tcl_trail::Trail;

/// The values of the first variables.
pub(crate) fn bits_of(alloc: Global, trail: &Trail, variables: u32) -> Result<Bits, AllocError>
    requires { variables ≤ 2 ^ 31 }
    ensures { IfOk result (λ bits. AreRead (lits_of trail.now.entries) variables bits) }
{
    let mut bits = Bits::new(alloc);
    for variable in 0..variables {
        bits.push(is_true(trail, variable))?;
    }
    Ok(bits)
}

/// Whether the variable is true.
fn is_true(trail: &Trail, variable: u32) -> bool
    requires { variable < 2 ^ 31 }
    ensures { result ≡ has (2 * variable) (lits_of trail.now.entries) }
{
    matches!(trail.value(Lit::of(variable)), Some(true))
}
