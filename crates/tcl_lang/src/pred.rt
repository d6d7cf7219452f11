//! Predicates and the lines of a program.

ghost use Rattle.std.specs.Prelude.{◌≡◌, ◌↔◌, IsTrue, IfOk};

use crate::instr::{Instr, Op};
use crate::range::RngPred;
use crate::term::AlgPred;
use crate::ty::Ty;
use std::alloc::{AllocError, Global};
use tcl_list::{Copies, Same};

/// What a line states: an equation or congruence of integers, or a predicate over words.
pub enum Pred {
    Alg(AlgPred),
    Rng(RngPred),
}

impl Drop for Pred {
    fn drop(self) {
        match self {
            Pred::Alg(pred) => drop(pred),
            Pred::Rng(pred) => drop(pred),
        }
    }
}

/// One line of a program. Other crates read a line through `predicate`, `instruction`, `is_goal` and their like.
pub enum Line {
    Input(Ty, u32),
    Pre(Pred),
    Step(Instr),
    Assert(Pred),
    Assume(Pred),
    Cut(Pred),
    Post(Pred),
}

impl Drop for Line {
    fn drop(self) {
        match self {
            Line::Input(_, _) => (),
            Line::Step(instr) => drop(instr),
            Line::Pre(pred) => drop(pred),
            Line::Assert(pred) => drop(pred),
            Line::Assume(pred) => drop(pred),
            Line::Cut(pred) => drop(pred),
            Line::Post(pred) => drop(pred),
        }
    }
}

impl Line {
    ghost use Rattle.std.specs.Prelude.{option_copied, IsSome};
    ghost use Rattle.tcl_lang.specs.Line as line;
    ghost use Rattle.tcl_lang.specs.Shape as shape;

    /// The predicate that the line states.
    pub fn predicate(&self) -> Option<&Pred>
        ensures { option_copied result ≡ line.predicate_of self.now }
    {
        match self {
            Line::Pre(pred) => Some(pred),
            Line::Assert(pred) => Some(pred),
            Line::Assume(pred) => Some(pred),
            Line::Cut(pred) => Some(pred),
            Line::Post(pred) => Some(pred),
            Line::Input(..) | Line::Step(_) => None,
        }
    }

    /// The instruction of the line.
    pub fn instruction(&self) -> Option<&Instr>
        ensures { option_copied result ≡ line.instruction_of self.now }
    {
        match self {
            Line::Step(instr) => Some(instr),
            _ => None,
        }
    }

    /// Whether the line is part of the precondition.
    pub fn is_precondition(&self) -> bool
        ensures { result ≡ line.is_precondition self.now }
    {
        matches!(self, Line::Pre(_))
    }

    /// Whether the line is an assumption.
    pub fn is_assumption(&self) -> bool
        ensures { result ≡ line.is_assumption self.now }
    {
        matches!(self, Line::Assume(_))
    }

    /// Whether the line has a goal: the exactness condition of its instruction, or its predicate.
    pub fn is_goal(&self) -> bool
        ensures { result ≡ line.is_goal self.now }
    {
        match self {
            Line::Step(instr) => instr.op.has_condition(),
            Line::Assert(_) | Line::Cut(_) | Line::Post(_) => true,
            _ => false,
        }
    }

    /// The line of the same kind that states `pred`, for a line that states a predicate.
    pub fn with_predicate(&self, pred: Pred) -> Line
        requires { IsSome (line.predicate_of self.now) }
        ensures { result ≡ line.with_predicate self.now pred }
    {
        match self {
            Line::Pre(_) => Line::Pre(pred),
            Line::Assert(_) => Line::Assert(pred),
            Line::Assume(_) => Line::Assume(pred),
            Line::Cut(_) => Line::Cut(pred),
            Line::Post(_) => Line::Post(pred),
            Line::Input(..) | Line::Step(_) => unreachable!(),
        }
    }

    /// Whether the line states an algebraic predicate.
    pub fn is_algebraic(&self) -> bool
        ensures { result ≡ line.is_algebraic self.now }
    {
        matches!(self.predicate(), Some(Pred::Alg(_)))
    }

    /// Whether the line is an `in` line.
    pub fn is_input(&self) -> bool
        ensures { result ≡ line.is_input self.now }
    {
        matches!(self, Line::Input(..))
    }

    /// The part of the program in which the line stands: 0 for `in` lines, 1 for `pre` lines, 2 for the body, 3 for `post`
    /// lines.
    pub fn stage(&self) -> u32
        ensures { result ≡ shape.stage_of self.now }
    {
        match self {
            Line::Input(..) => 0,
            Line::Pre(_) => 1,
            Line::Post(_) => 3,
            _ => 2,
        }
    }

    /// Whether a fact may have the line as a hypothesis.
    pub fn is_hypothesis(&self) -> bool
        ensures { result ≡ line.is_hypothesis self.now }
    {
        self.is_precondition() || self.is_assumption() || self.is_goal()
    }

    /// Whether the line ends what algebraic goals below it may use.
    pub fn cuts_algebraic(&self) -> bool
        ensures { result ≡ line.cuts_algebraic self.now }
    {
        matches!(self, Line::Cut(_))
    }

    /// Whether the line ends what range goals below it may use.
    pub fn cuts_range(&self) -> bool
        ensures { result ≡ line.cuts_range self.now }
    {
        matches!(self, Line::Cut(_))
    }

    /// The type of the value that the line takes from the input, if it takes one.
    pub fn taken_type(&self) -> Option<Ty>
        ensures { result ≡ line.taken_type self.now }
    {
        match self {
            Line::Input(ty, _) => Some(*ty),
            Line::Step(instr) if instr.op == Op::Nondet => Some(instr.ty),
            _ => None,
        }
    }

    /// The name to which the line gives the value that it takes from the input, if it takes one.
    pub fn taken_name(&self) -> Option<u32>
        ensures { result ≡ line.taken_name self.now }
    {
        match self {
            Line::Input(_, name) => Some(*name),
            Line::Step(instr) if instr.op == Op::Nondet => instr.outs.as_slice().first().copied(),
            _ => None,
        }
    }
}

impl Copies for Pred {
    fn copy_in(&self, alloc: Global) -> Result<Self, AllocError> {
        match self {
            Pred::Alg(pred) => Ok(Pred::Alg(pred.copy_in(alloc)?)),
            Pred::Rng(pred) => Ok(Pred::Rng(pred.copy_in(alloc)?)),
        }
    }
}

impl Same for Pred {
    fn same(&self, other: &Self) -> bool {
        match (self, other) {
            (Pred::Alg(ours), Pred::Alg(theirs)) => ours.same(theirs),
            (Pred::Rng(ours), Pred::Rng(theirs)) => ours.same(theirs),
            _ => false,
        }
    }
}

impl Copies for Line {
    fn copy_in(&self, alloc: Global) -> Result<Self, AllocError> {
        match self {
            Line::Input(ty, name) => Ok(Line::Input(*ty, *name)),
            Line::Pre(pred) => Ok(Line::Pre(pred.copy_in(alloc)?)),
            Line::Step(instr) => Ok(Line::Step(instr.copy_in(alloc)?)),
            Line::Assert(pred) => Ok(Line::Assert(pred.copy_in(alloc)?)),
            Line::Assume(pred) => Ok(Line::Assume(pred.copy_in(alloc)?)),
            Line::Cut(pred) => Ok(Line::Cut(pred.copy_in(alloc)?)),
            Line::Post(pred) => Ok(Line::Post(pred.copy_in(alloc)?)),
        }
    }
}

impl Same for Line {
    fn same(&self, other: &Self) -> bool {
        match (self, other) {
            (Line::Input(ty, n), Line::Input(to, m)) => *ty == *to && *n == *m,
            (Line::Pre(ours), Line::Pre(theirs)) => ours.same(theirs),
            (Line::Step(ours), Line::Step(theirs)) => ours.same(theirs),
            (Line::Assert(ours), Line::Assert(theirs)) => ours.same(theirs),
            (Line::Assume(ours), Line::Assume(theirs)) => ours.same(theirs),
            (Line::Cut(ours), Line::Cut(theirs)) => ours.same(theirs),
            (Line::Post(ours), Line::Post(theirs)) => ours.same(theirs),
            _ => false,
        }
    }
}
