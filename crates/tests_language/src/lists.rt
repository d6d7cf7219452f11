// Lists of the language's crates: copies and comparisons.

ghost use Rattle.std.specs.Prelude.{◌≡◌, IfOk};

use crate::expected::holds;
use std::alloc::{AllocError, Global};
use tcl_list::{Copies, Listing, Same};

// A struct of three lists, whose copy is equal with no proof file.
#[derive(Drop)]
struct Journal {
    numbers: Listing<u32>,
    rows: Listing<Listing<u8>>,
    marks: Listing<bool>,
}

impl Copies for Journal {
    fn copy_in(&self, alloc: Global) -> Result<Self, AllocError> {
        Ok(Journal {
            numbers: self.numbers.copy_in(alloc)?,
            rows: self.rows.copy_in(alloc)?,
            marks: self.marks.copy_in(alloc)?,
        })
    }
}

fn row(alloc: Global, bytes: &[u8]) -> Result<Listing<u8>, AllocError>
    ensures { IfOk result (λ row. row ≡ bytes.now) }
{
    Ok(Listing::from_vec(Vec::from_slice(alloc, bytes)?))
}

const ROWS: &[&[u8]] = &[b"12", b"", b"345"];

fn journal_of_rows(alloc: Global) -> Result<Journal, AllocError> {
    let mut journal = Journal {
        numbers: Listing::new(alloc),
        rows: Listing::new(alloc),
        marks: Listing::new(alloc),
    };
    for bytes in ROWS {
        journal.numbers.push(bytes.len() as u32)?;
        journal.rows.push(row(alloc, bytes)?)?;
        journal.marks.push(bytes.is_empty())?;
    }
    Ok(journal)
}

// Whether these bytes stand at the place, with their number and their mark.
fn has_at(journal: &Journal, k: usize, bytes: &[u8]) -> bool {
    k < journal.rows.len()
        && k < journal.numbers.len()
        && k < journal.marks.len()
        && journal.rows.at(k).as_slice() == bytes
        && *journal.numbers.at(k) as usize == bytes.len()
        && *journal.marks.at(k) == bytes.is_empty()
}

fn has_lengths(journal: &Journal) -> bool {
    journal.rows.len() == 3 && journal.numbers.len() == 3 && journal.marks.len() == 3
}

#[test]
fn a_copy_of_lists_of_lists_has_the_same_items_in_their_places(
    rt: HostRuntime,
) -> Result<(), AllocError> {
    let copy = journal_of_rows(rt.alloc())?.copy_in(rt.alloc())?;
    holds(&rt, "three of each", has_lengths(&copy));
    holds(&rt, "the first row", has_at(&copy, 0, b"12"));
    holds(&rt, "the second row", has_at(&copy, 1, b""));
    holds(&rt, "the third row", has_at(&copy, 2, b"345"));
    Ok(())
}

// Sets a row where there is one.
fn change(journal: &mut Journal, row: Listing<u8>) -> bool {
    if journal.rows.len() != 3 {
        return false;
    }
    journal.rows.set(1, row);
    true
}

#[test]
fn copied_rows_are_compared(rt: HostRuntime) -> Result<(), AllocError> {
    let mut journal = journal_of_rows(rt.alloc())?;
    let copy = journal.copy_in(rt.alloc())?;
    holds(&rt, "equal rows", copy.rows.same(&journal.rows));
    let is_changed = change(&mut journal, row(rt.alloc(), b"6")?);
    holds(&rt, "a second row", is_changed);
    holds(&rt, "a changed row", !copy.rows.same(&journal.rows));
    Ok(())
}
