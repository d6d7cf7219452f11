// How many variables clauses name, and the table of true literals.

ghost use Rattle.std.specs.Prelude.{◌≡◌, ℕ, ◌^◌, ◌≤◌, OnOk, false, length, slice_index_or};
ghost use Rattle.tcl_trail.specs.Trail.{lit_variables};
ghost use Rattle.tcl_trail.specs.Kept.{SameMarks};
ghost use Rattle.tcl_trail.specs.Assigned.{SameFacts};

use crate::fact::Fact;
use std::alloc::AllocError;
use tcl_cnf::Clause;

/// One more than the greatest variable of the clause, or 0.
pub(crate) fn variables_in(clause: &Clause) -> u32
    ensures count { result ≡ lit_variables clause.now }
    ensures narrow { result ≤ 2 ^ 31 }
{
    let mut count = 0;
    for lit in clause.lits() {
        count = count.max(lit.number() / 2 + 1);
    }
    count
}

/// Makes the table at least this long; the new places are false.
pub(crate) fn widen(table: &mut Vec<bool>, len: usize) -> Result<(), AllocError>
    ensures longer { length table.old.items ≤ length table.new.items }
    ensures wide { OnOk result (len ≤ length table.new.items) }
    ensures same { SameMarks table.old.items table.new.items }
{
    for _place in table.len()..len {
        table.push(false)?;
    }
    Ok(())
}

/// Makes the table at least this long.
pub(crate) fn widen_facts(table: &mut Vec<Fact>, len: usize) -> Result<(), AllocError>
    ensures longer { length table.old.items ≤ length table.new.items }
    ensures wide { OnOk result (len ≤ length table.new.items) }
    ensures same { SameFacts table.old.items table.new.items }
{
    for _place in table.len()..len {
        table.push(Fact {
            place: 0,
            level: 0,
            reason: None,
        })?;
    }
    Ok(())
}
