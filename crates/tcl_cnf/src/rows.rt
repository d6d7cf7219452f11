// Lists of lists that are kept one behind another in one vector.

ghost use Rattle.std.specs.Prelude.{◌≡◌, ◌<◌, ◌≤◌, ◌↔◌, IsTrue, IfOk, OnOk, OnErr, Some, length, slice_get, slice_range, slice_index, List, [], ◌∷◌, ◌++◌, ℕ};
ghost use Rattle.tcl_cnf.specs.Rows.{row_start, AreEnds};

use std::alloc::{AllocError, Global};
use std::marker::Model;
use tcl_list::Copies;

/// A growing list of lists, numbered from 0, which keeps all items in one vector.
///
/// It keeps the allocator that it was made with. `Err` is that memory has run out.
#[derive(Drop)]
pub struct Rows<T: Copy> {
    items: Vec<T>,
    ends: Vec<usize>,
}

impl<T: Copy> Model for Rows<T> {
    ghost use Rattle.std.specs.Prelude.{List, length};
    ghost use Rattle.std.specs.Coded.{coded_list};

    ghost Value = { List (List T) };

    ghost coded = { coded_list (coded_list T.code) };

    ghost use Rattle.tcl_cnf.specs.Rows.{rows_from, AreEnds};

    ghost view = { λ r. rows_from 0 r.ends.items r.items.items };

    ghost invariant = { λ r. AreEnds 0 r.ends.items (length r.items.items) };
}

impl<T: Copy> Rows<T> {
    /// The empty list, which takes no memory.
    #[tactic(auto, using(crate::proofs::RowLemmas::rows_none, crate::proofs::RowLemmas::ends_none))]
    pub fn new(alloc: Global) -> Self
        ensures { result ≡ [] }
    {
        Rows {
            items: Vec::new(alloc),
            ends: Vec::new(alloc),
        }
    }

    /// The number of lists.
    pub fn len(&self) -> usize
        ensures { result ≡ length self.now }
    {
        self.ends.as_slice().len()
    }

    /// Whether there is no list.
    pub fn is_empty(&self) -> bool
        ensures { IsTrue result ↔ (self.now ≡ []) }
    {
        self.len() == 0
    }

    /// The list of this number.
    pub fn at(&self, k: usize) -> &[T]
        requires { k < length self.now }
        ensures { slice_get self.now k ≡ Some result.now }
    {
        range_of(&self.items, &self.ends, k)
    }

    /// Appends a copy of the list.
    pub fn push(&mut self, row: &[T]) -> Result<(), AllocError>
        ensures pushed { OnOk result (self.new ≡ self.old ++ row.now ∷ []) }
        ensures unchanged { OnErr result (self.new ≡ self.old) }
    {
        self.ends.reserve(1)?;
        self.items.extend_from_slice(row)?;
        let end = self.items.as_slice().len();
        self.ends.push_reserved(end);
        Ok(())
    }

    /// An equal list with the same allocator.
    pub fn copy(&self) -> Result<Self, AllocError>
        ensures { IfOk result (λ copy. copy ≡ self.now) }
    {
        let alloc = *self.items.allocator();
        Ok(Rows {
            items: Vec::from_slice(alloc, &self.items)?,
            ends: Vec::from_slice(alloc, &self.ends)?,
        })
    }
}

impl<T: Copy> Copies for Rows<T> {
    fn copy_in(&self, _alloc: Global) -> Result<Self, AllocError> {
        self.copy()
    }
}

/// The list of this number.
fn range_of<'a, T: Copy>(items: &'a [T], ends: &[usize], k: usize) -> &'a [T]
    requires ends { AreEnds 0 ends.now (length items.now) }
    requires within { k < length ends.now }
    ensures { result.now ≡ slice_range items.now (row_start ends.now k) (slice_index ends.now k) }
{
    let start = row_start(ends, k);
    part(items, start, ends[k])
}

/// The items from one place up to another.
fn part<T: Copy>(items: &[T], start: usize, end: usize) -> &[T]
    requires rises { start ≤ end }
    requires within { end ≤ length items.now }
    ensures { result.now ≡ slice_range items.now start end }
{
    &items[start..end]
}

/// Where the list of this number starts.
fn row_start(ends: &[usize], k: usize) -> usize
    requires { k ≤ length ends.now }
    ensures { result ≡ row_start ends.now k }
{
    if k == 0 { 0 } else { ends[k - 1] }
}
