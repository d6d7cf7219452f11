//! The names that a line reads and defines, told one by one, so that no list of them is made.

ghost use Rattle.std.specs.Prelude.{◌≡◌, ◌<◌, ◌≤◌, ◌^◌, length, slice_get};
ghost use Rattle.std.specs.List.{fold};
ghost use Rattle.tcl_lang.specs.Names as names;
ghost use Rattle.tcl_lang.specs.Limit as limit;
ghost use Rattle.tcl_lang.specs.Told as told;

use crate::instr::Atom;
use crate::pred::{Line, Pred};
use crate::range::{RngPred, RngTerm};
use crate::term::Term;

/// What is told each name that is read, from left to right.
///
/// `after` is the visitor after one more name.
pub trait NameVisitor {
    ghost use Rattle.std.specs.Prelude.{ℕ, ◌≡◌};

    ghost after: { Self → ℕ → Self };

    fn visit(&mut self, name: u32)
        ensures { self.new ≡ after self.old name };
}

impl Atom {
    /// Tells the name, where the operand is one.
    fn visit_name<V: NameVisitor>(self, visitor: &mut V)
        ensures { visitor.new ≡ told.after_operand V.after visitor.old self }
    {
        match self {
            Atom::Var(name) => visitor.visit(name),
            Atom::Lit(..) => (),
        }
    }
}

impl Term {
    /// Tells each name of the term.
    #[tactic(auto, using(crate::proofs::ToldNames::names_append))]
    pub fn visit_names<V: NameVisitor>(&self, visitor: &mut V)
        ensures { visitor.new ≡ fold V.after visitor.old (names.term_names self.now) }
    {
        match self {
            Term::Var(name) => visitor.visit(*name),
            Term::Num(_) => (),
            Term::Neg(inner) => inner.get().visit_names(visitor),
            Term::Pow(inner, _) => inner.get().visit_names(visitor),
            Term::Add(left, right) => {
                left.get().visit_names(visitor);
                right.get().visit_names(visitor);
            }
            Term::Sub(left, right) => {
                left.get().visit_names(visitor);
                right.get().visit_names(visitor);
            }
            Term::Mul(left, right) => {
                left.get().visit_names(visitor);
                right.get().visit_names(visitor);
            }
        }
    }
}

impl RngTerm {
    /// Tells each name of the term.
    #[tactic(auto, using(crate::proofs::ToldNames::told_append))]
    fn visit_names<V: NameVisitor>(&self, visitor: &mut V)
        ensures { visitor.new ≡ fold (told.after_operand V.after) visitor.old (names.term_atoms self.now) }
    {
        match self {
            RngTerm::Leaf(atom) => atom.visit_name(visitor),
            RngTerm::Neg(inner) => inner.get().visit_names(visitor),
            RngTerm::Flip(inner) => inner.get().visit_names(visitor),
            RngTerm::Cast(_, inner) => inner.get().visit_names(visitor),
            RngTerm::Bin(_, left, right) => {
                left.get().visit_names(visitor);
                right.get().visit_names(visitor);
            }
        }
    }
}

impl RngPred {
    /// Tells each name of the predicate.
    #[tactic(auto, using(crate::proofs::ToldNames::told_append))]
    fn visit_names<V: NameVisitor>(&self, visitor: &mut V)
        ensures { visitor.new ≡ fold (told.after_operand V.after) visitor.old (names.range_atoms self.now) }
    {
        match self {
            RngPred::True | RngPred::False => (),
            RngPred::Cmp(_, left, right) => {
                left.visit_names(visitor);
                right.visit_names(visitor);
            }
            RngPred::Not(inner) => inner.get().visit_names(visitor),
            RngPred::Both(left, right) => {
                left.get().visit_names(visitor);
                right.get().visit_names(visitor);
            }
            RngPred::Either(left, right) => {
                left.get().visit_names(visitor);
                right.get().visit_names(visitor);
            }
        }
    }
}

impl Pred {
    /// Tells each name of the predicate.
    #[tactic(auto, using(crate::proofs::ToldNames::names_append, crate::proofs::ToldNames::told_operands))]
    pub fn visit_names<V: NameVisitor>(&self, visitor: &mut V)
        ensures { visitor.new ≡ fold V.after visitor.old (names.predicate_names self.now) }
    {
        match self {
            Pred::Alg(pred) => {
                pred.left.visit_names(visitor);
                pred.right.visit_names(visitor);
            }
            Pred::Rng(pred) => pred.visit_names(visitor),
        }
    }
}

/// Tells the names among operands.
fn visit_operands<V: NameVisitor>(atoms: &[Atom], visitor: &mut V)
    ensures { visitor.new ≡ fold (told.after_operand V.after) visitor.old atoms.now }
{
    for atom in atoms {
        atom.visit_name(visitor);
    }
}

impl Line {
    /// Tells each name that the line reads.
    #[tactic(auto, using(crate::proofs::ToldNames::told_operands))]
    pub fn visit_names<V: NameVisitor>(&self, visitor: &mut V)
        ensures { visitor.new ≡ fold V.after visitor.old (names.used_names self.now) }
    {
        match self.predicate() {
            Some(pred) => pred.visit_names(visitor),
            None => match self.instruction() {
                Some(instr) => visit_operands(instr.args.as_slice(), visitor),
                None => (),
            },
        }
    }

    /// Whether the line reads a name.
    #[tactic(auto, using(crate::proofs::ToldNames::looked_through))]
    pub fn uses(&self, name: u32) -> bool
        ensures { result ≡ names.uses_name self.now name }
    {
        let mut search = Search { name, found: false };
        self.visit_names(&mut search);
        search.found
    }

    /// Name `k` of those that the line reads, from 0, from left to right.
    #[tactic(auto, using(crate::proofs::ToldNames::counted_through))]
    pub fn used_name(&self, k: usize) -> Option<u32>
        ensures { result ≡ slice_get (names.used_names self.now) k }
    {
        let mut count = Count {
            left: k,
            found: None,
        };
        self.visit_names(&mut count);
        count.found
    }

    /// How many names the line defines.
    pub fn defined_count(&self) -> usize
        ensures { result ≡ length (names.defined_names self.now) }
    {
        match self {
            Line::Input(..) => 1,
            Line::Step(instr) => instr.outs.len(),
            _ => 0,
        }
    }

    /// Name `k` of those that the line defines, from 0, from left to right.
    pub fn defined_name(&self, k: usize) -> Option<u32>
        ensures { result ≡ slice_get (names.defined_names self.now) k }
    {
        match self {
            Line::Input(_, name) => if k == 0 { Some(*name) } else { None },
            Line::Step(instr) => instr.outs.as_slice().get(k).copied(),
            _ => None,
        }
    }
}

/// The number of definitions before line `place`, which is that of the first variable that the line defines.
pub fn definitions_before(lines: &[Line], place: usize) -> u32
    requires within { place ≤ length lines.now }
    requires few { limit.definition_count lines.now < 2 ^ 32 }
    ensures { result ≡ limit.definitions_before lines.now place }
{
    let mut count = 0;
    for k in 0..place {
        count += lines[k].defined_count() as u32;
    }
    count
}

/// Looks for a name.
#[derive(Drop)]
struct Search {
    name: u32,
    found: bool,
}

impl NameVisitor for Search {
    ghost after = { told.looked };

    fn visit(&mut self, name: u32) {
        self.found = self.found || self.name == name;
    }
}

/// Counts down to a name.
#[derive(Drop)]
struct Count {
    left: usize,
    found: Option<u32>,
}

impl NameVisitor for Count {
    ghost after = { told.counted_down };

    fn visit(&mut self, name: u32) {
        if self.found.is_none() {
            if self.left == 0 {
                self.found = Some(name);
            } else {
                self.left -= 1;
            }
        }
    }
}
