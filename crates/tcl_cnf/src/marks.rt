// A set of literals as a table of marks, so that a literal is looked up, put in and taken out in one step.

ghost use Rattle.std.specs.Prelude.{◌≡◌, ◌<◌, ◌≤◌, IfOk, OnOk, OnErr, length, slice_index_or, false, List, [], ◌∷◌, ◌++◌, ℕ};
ghost use Rattle.std.specs.Prelude.{◌^◌, vec_len};
ghost use Rattle.tcl_cnf.specs.Clause.{has, put, without, IsIncreasing};
ghost use Rattle.tcl_cnf.specs.Marks.{marked, AreTouched, SameMarks, TakesMark};

use crate::lit::Lit;
use std::alloc::{AllocError, Global};
use std::marker::Model;

/// A set of literals, in which one is looked up, put in and taken out in one step. It is seen as its literals in increasing
/// order.
///
/// The marks that are set stand in `touched` too, so that taking the set out looks at no other place of the table. A
/// literal that was taken out and put in again stands there twice.
#[derive(Drop)]
pub struct Marks {
    table: Vec<bool>,
    touched: Vec<u32>,
}

impl Model for Marks {
    ghost use Rattle.std.specs.Prelude.{List, ℕ};

    ghost Value = { List ℕ };

    ghost use Rattle.tcl_cnf.specs.Marks.{marked, AreTouched};

    ghost view = { λ m. marked m.table.items };

    ghost invariant = { λ m. AreTouched m.table.items m.touched.items };
}

impl Marks {
    /// The empty set, which takes no memory.
    #[tactic(auto, using(crate::proofs::MarkLemmas::marked_none, crate::proofs::MarkLemmas::touched_none))]
    pub fn new(alloc: Global) -> Marks
        ensures { result ≡ [] }
    {
        Marks {
            table: Vec::new(alloc),
            touched: Vec::new(alloc),
        }
    }

    /// Tells the caller that the literals are seen in increasing order.
    pub fn known(&self)
        ensures { IsIncreasing self.now }
    {
        let _ = &self.table;
    }

    /// Whether the literal is in the set.
    pub fn has(&self, lit: Lit) -> bool
        ensures { result ≡ has lit self.now }
    {
        is_marked(&self.table, lit.number() as usize)
    }

    /// Puts the literal in, if it is not there yet.
    pub fn insert(&mut self, lit: Lit) -> Result<(), AllocError>
        ensures ok { OnOk result (self.new ≡ put lit self.old) }
        ensures err { OnErr result (self.new ≡ self.old) }
    {
        mark(&mut self.table, &mut self.touched, lit.number())
    }

    /// Takes the literal out, if it is there.
    pub fn remove(&mut self, lit: Lit)
        ensures { self.new ≡ without lit self.old }
    {
        unmark(&mut self.table, lit.number() as usize);
    }

    /// Gives the literals in increasing order, and leaves none.
    pub fn take(&mut self) -> Result<Vec<Lit>, AllocError>
        ensures ok { IfOk result (λ lits. lits.items ≡ self.old) }
        ensures emptied { OnOk result (self.new ≡ []) }
        ensures err { OnErr result (self.new ≡ self.old) }
    {
        settle(&self.table, &mut self.touched);
        let lits = lits_of(*self.touched.allocator(), &self.touched)?;
        clear(&mut self.table, &self.touched);
        self.touched.clear();
        Ok(lits)
    }
}

/// Whether the place of the table is marked; there is no mark past its end.
fn is_marked(table: &[bool], place: usize) -> bool
    ensures { result ≡ slice_index_or table.now place false }
{
    if place < table.len() {
        table[place]
    } else {
        false
    }
}

/// Marks the place of the number, and puts the number behind the touched ones where it was not marked.
#[tactic(auto, using(crate::proofs::MarkLemmas::marked_same, crate::proofs::MarkLemmas::put_known, crate::proofs::MarkLemmas::put_new))]
fn mark(table: &mut Vec<bool>, touched: &mut Vec<u32>, number: u32) -> Result<(), AllocError>
    requires { AreTouched table.old.items touched.old.items }
    ensures touched { AreTouched table.new.items touched.new.items }
    ensures ok { OnOk result (marked table.new.items ≡ put number (marked table.old.items)) }
    ensures err { OnErr result (marked table.new.items ≡ marked table.old.items) }
{
    let place = number as usize;
    reach(table, place)?;
    if is_marked(table, place) {
        return Ok(());
    }
    touched.push(number)?;
    table[place] = true;
    Ok(())
}

/// Makes the table so long that it has the place.
fn reach(table: &mut Vec<bool>, place: usize) -> Result<(), AllocError>
    requires { place < 2 ^ 32 }
    ensures same { SameMarks table.old.items table.new.items }
    ensures ok { OnOk result (place < vec_len table.new) }
    ensures within { OnOk result (place < length table.new.items) }
{
    if table.len() <= place {
        table.resize(place + 1, false)?;
    }
    Ok(())
}

/// Takes the mark from the place, where it is in the table.
fn unmark(table: &mut Vec<bool>, place: usize)
    ensures { TakesMark table.old.items table.new.items place }
{
    if place < table.len() {
        table[place] = false;
    }
}

/// Leaves the marked numbers alone, in increasing order.
fn settle(table: &[bool], touched: &mut Vec<u32>)
    requires { AreTouched table.now touched.old.items }
    ensures { touched.new.items ≡ marked table.now }
{
    touched.retain(|number| is_marked(table, *number as usize));
    touched.sort_unstable();
    touched.dedup();
}

/// The literals of these numbers.
fn lits_of(alloc: Global, numbers: &[u32]) -> Result<Vec<Lit>, AllocError>
    ensures { IfOk result (λ lits. lits.items ≡ numbers.now) }
{
    let mut lits = Vec::with_capacity(alloc, numbers.len())?;
    for number in numbers {
        lits.push(Lit::from_number(*number))?;
    }
    Ok(lits)
}

/// Takes all marks away.
fn clear(table: &mut Vec<bool>, touched: &[u32])
    requires { AreTouched table.old.items touched.now }
    ensures { AreTouched table.new.items [] }
{
    for number in touched {
        unmark(table, *number as usize);
    }
}
