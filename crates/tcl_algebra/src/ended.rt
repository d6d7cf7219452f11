//! Why there are no equations.

ghost use Rattle.std.specs.Prelude.{◌≡◌};

use std::alloc::AllocError;
use tcl_port::What;

/// Why there are no equations: the claim is wide or large, or memory has run out.
#[derive(Clone, Copy, Drop)]
pub enum AlgebraEnd {
    /// Over whole numbers the norm bound of the claim is 2^127 or more; with a modulus, the modulus is wide.
    Wide,
    /// The degree bound of the claim is above 1,024, or its bound of terms above 65,536. Both counts stay at 2^32 - 1.
    Large(What, u32),
    Memory,
}

impl From<AllocError> for AlgebraEnd {
    ghost use Rattle.std.specs.Prelude.{◌≡◌};
    ghost use Rattle.tcl_algebra.specs.declared.ended.AlgebraEnd.TheVariants.{Memory};

    ghost from_gives = { λ _ end. end ≡ Memory };

    fn from(_error: AllocError) -> AlgebraEnd {
        AlgebraEnd::Memory
    }
}
