//! The set of variables of a slice while it grows.

ghost use Rattle.std.specs.Prelude.{◌≡◌, [], false, IfOk, OnOk, replicate};
ghost use Rattle.std.specs.List.{list_any};
ghost use Rattle.tcl_goals.specs.Closure.{is_marked};
ghost use Rattle.tcl_slice.specs.Touching as touching;

use std::alloc::{AllocError, Global};
use tcl_list::Listing;

/// A set of variables with the order in which they were reached, and the lines that were taken as hypotheses, each as a mark
/// for each number.
#[derive(Drop)]
pub(crate) struct Search {
    pub(crate) marks: Listing<bool>,
    pub(crate) order: Listing<u32>,
    pub(crate) taken: Listing<bool>,
}

impl Search {
    /// No variable of so many, and no line of so many.
    pub(crate) fn new(alloc: Global, variables: usize, lines: usize) -> Result<Search, AllocError>
        ensures { IfOk result (λ s. s ≡ record { marks = replicate variables false; order = []; taken = replicate lines false }) }
    {
        Ok(Search {
            marks: unmarked(alloc, variables)?,
            order: Listing::new(alloc),
            taken: unmarked(alloc, lines)?,
        })
    }

    /// Reaches a variable; one past the end of the set is left out.
    pub(crate) fn reach(&mut self, v: u32) -> Result<(), AllocError>
        ensures { OnOk result (self.new ≡ touching.reached self.old v) }
    {
        let k = v as usize;
        if k < self.marks.len() && !is_marked(self.marks.as_slice(), k) {
            self.order.push(v)?;
            self.marks.set(k, true);
        }
        Ok(())
    }

    /// Reaches these variables.
    pub(crate) fn reach_all(&mut self, vs: &[u32]) -> Result<(), AllocError>
        ensures { OnOk result (self.new ≡ touching.reached_all self.old vs.now) }
    {
        for k in 0..vs.len() {
            self.reach(vs[k])?;
        }
        Ok(())
    }

    /// Marks a line as taken.
    pub(crate) fn take(&mut self, line: usize)
        ensures { self.new ≡ touching.with_taken self.old line }
    {
        if line < self.taken.len() {
            self.taken.set(line, true);
        }
    }
}

/// As many marks, none set.
fn unmarked(alloc: Global, count: usize) -> Result<Listing<bool>, AllocError>
    ensures { IfOk result (λ marks. marks ≡ replicate count false) }
{
    Ok(Listing::from_vec(vec![in alloc; false; count]?))
}

/// Whether the number is marked.
pub(crate) fn is_marked(marks: &[bool], k: usize) -> bool
    ensures { result ≡ is_marked marks.now k }
{
    match marks.get(k) {
        Some(mark) => *mark,
        None => false,
    }
}

/// Whether one of the numbers is marked.
pub(crate) fn is_any(marks: &[bool], vs: &[u32]) -> bool
    ensures { result ≡ list_any (is_marked marks.now) vs.now }
{
    for k in 0..vs.len() {
        if is_marked(marks, vs[k] as usize) {
            return true;
        }
    }
    false
}
