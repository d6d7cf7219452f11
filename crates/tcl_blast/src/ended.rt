// Why there is no list of clauses.

use std::alloc::AllocError;

/// As many clauses as a fact may have.
pub(crate) const CLAUSE_LIMIT: usize = 4_194_304;

/// Why the clauses of a fact are not given.
pub enum BlastEnd {
    /// There are more than 4,194,304 clauses. The count stays at 4,194,305 where there are more than that.
    TooMany(u32),
    /// Memory has run out.
    Memory,
}

impl From<AllocError> for BlastEnd {
    ghost use Rattle.std.specs.Prelude.{◌≡◌};
    ghost use Rattle.tcl_blast.specs.declared.ended.BlastEnd.TheVariants.{Memory};

    ghost from_gives = { λ _ end. end ≡ Memory };

    fn from(_error: AllocError) -> BlastEnd {
        BlastEnd::Memory
    }
}
