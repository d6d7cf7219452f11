//! The certificate by enumeration.

ghost use Rattle.std.specs.Prelude.{◌≡◌, None, IfOk};
ghost use Rattle.tcl_goals.specs.Holds.{FactHolds};
ghost use Rattle.tcl_goals.specs.Order.{InOrder};
ghost use Rattle.tcl_kernel.specs.EnumerationCertificate as enumeration;

use crate::reason::Reason;
use std::alloc::{AllocError, Global};
use tcl_enum::{Ended, enumerate};
use tcl_goals::{Fact, Lemmas, free_bits};
use tcl_lang::Ssa;

/// The most free bits whose assignments are gone through.
const MOST_BITS: usize = 20;

/// The reason against the certificate: there are more than 20 free bits, which is asked first, or the walk through their
/// assignments does not end with all. The only error is that memory has run out.
#[tactic(auto, unfolding(crate::specs::EnumerationCertificate::enumeration_reason))]
pub(crate) fn enumeration_reason(
    alloc: Global,
    ssa: &Ssa,
    lemmas: &Lemmas,
    fact: &Fact,
) -> Result<Option<Reason>, AllocError>
    requires { InOrder ssa.now lemmas.now.items fact.now }
    ensures reason { IfOk result (λ r. r ≡ enumeration.enumeration_reason ssa.now lemmas.now.items fact.now) }
    ensures holds { IfOk result (λ r. r ≡ None → FactHolds ssa.now lemmas.now.items fact.now) }
{
    let _form = ssa.lines();
    if free_bits(alloc, ssa, lemmas, fact)?.len() > MOST_BITS {
        return Ok(Some(Reason::Enum));
    }
    match &enumerate(alloc, ssa, fact, lemmas) {
        Ended::All => Ok(None),
        Ended::Fails(_) => Ok(Some(Reason::Enum)),
        Ended::Wide => Ok(Some(Reason::Enum)),
        Ended::Memory => Err(AllocError),
    }
}
