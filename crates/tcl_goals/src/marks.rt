//! Sets of variables.

ghost use Rattle.std.specs.Prelude.{◌≡◌, false, IfOk, replicate};
ghost use Rattle.tcl_goals.specs.Closure as closures;
ghost use Rattle.tcl_goals.specs.Free as free;
ghost use Rattle.tcl_lang.specs.Names.{used_names};

use std::alloc::{AllocError, Global};
use tcl_lang::{Line, NameVisitor};
use tcl_list::Listing;

/// A set of variables: for each number whether it is in it.
#[derive(Drop)]
pub(crate) struct Marks {
    pub(crate) marks: Listing<bool>,
}

impl NameVisitor for Marks {
    ghost after = { free.marked };

    fn visit(&mut self, name: u32) {
        let k = name as usize;
        if k < self.marks.len() {
            self.marks.set(k, true);
        }
    }
}

impl Marks {
    /// The empty set of `count` numbers.
    pub(crate) fn none(alloc: Global, count: usize) -> Result<Marks, AllocError>
        ensures { IfOk result (λ m. m.marks ≡ replicate count false) }
    {
        Ok(Marks {
            marks: Listing::from_vec(vec![in alloc; false; count]?),
        })
    }

    /// Whether the number is in the set.
    pub(crate) fn has(&self, v: usize) -> bool
        ensures { result ≡ closures.is_marked self.now.marks v }
    {
        match self.marks.as_slice().get(v) {
            Some(mark) => *mark,
            None => false,
        }
    }

    /// Adds a number; one past the end of the set is left out.
    pub(crate) fn add(&mut self, v: u32)
        ensures { self.new.marks ≡ closures.mark_one self.old.marks v }
    {
        self.visit(v);
    }

    /// Adds these numbers.
    pub(crate) fn add_all(&mut self, vs: &[u32])
        ensures { self.new.marks ≡ closures.mark_all self.old.marks vs.now }
    {
        for k in 0..vs.len() {
            self.visit(vs[k]);
        }
    }

    /// Adds the variables that a line reads.
    #[tactic(auto, using(crate::proofs::Marking::visited))]
    pub(crate) fn add_names(&mut self, line: &Line)
        ensures { self.new.marks ≡ closures.mark_all self.old.marks (used_names line.now) }
    {
        line.visit_names(self);
    }
}
