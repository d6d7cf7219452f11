//! Instructions and their operands.

ghost use Rattle.std.specs.Prelude.{◌≡◌, ◌↔◌, IsTrue, IfOk};

use crate::ty::Ty;
use std::alloc::{AllocError, Global};
use tcl_list::{Copies, Listing, Same};

/// An operand: a variable by its number, or a literal with its type.
#[derive(Clone, Copy, PartialEq, Eq)]
pub enum Atom {
    Var(u32),
    Lit(Ty, i128),
}

/// The instructions. The order of this list is the order of every table that has a row for each of them.
#[derive(Clone, Copy, PartialEq, Eq)]
pub enum Op {
    Mov,
    Add,
    Adds,
    Adc,
    Adcs,
    Sub,
    Subb,
    Sbb,
    Sbbs,
    Mul,
    Mull,
    Mulj,
    Shl,
    Split,
    Join,
    Cast,
    Vpc,
    Cmov,
    And,
    Or,
    Xor,
    Not,
    Nondet,
}

/// The results of an instruction, from left to right, as numbers of variables.
pub type Outs = Listing<u32>;

/// The operands of an instruction, from left to right.
pub type Args = Listing<Atom>;

/// An instruction. `amount` is that of a shift or a split, and 0 where the form has none; an amount above the
/// greatest `u32` is kept as the greatest `u32`.
#[derive(Drop)]
pub struct Instr {
    pub op: Op,
    pub ty: Ty,
    pub outs: Outs,
    pub args: Args,
    pub amount: u32,
}

impl Op {
    ghost use Rattle.std.specs.Prelude.{◌<◌, Some, slice_get};
    ghost use Rattle.tcl_lang.specs.Types.{IsTy};
    ghost use Rattle.tcl_lang.specs.Instruction as instruction;
    ghost use Rattle.tcl_lang.specs.Exactness as exactness;
    ghost use Rattle.tcl_lang.specs.Results.{result_types};

    /// How many results the instruction has.
    pub fn result_count(self) -> usize
        ensures { result ≡ instruction.result_count self }
    {
        match self {
            Op::Adds | Op::Adcs | Op::Subb | Op::Sbbs | Op::Mull | Op::Split => 2,
            _ => 1,
        }
    }

    /// How many operands the instruction has; the choice of `nondet` is none.
    pub fn operand_count(self) -> usize
        ensures { result ≡ instruction.operand_count self }
    {
        match self {
            Op::Nondet => 0,
            Op::Mov | Op::Shl | Op::Split | Op::Cast | Op::Vpc | Op::Not => 1,
            Op::Adc | Op::Adcs | Op::Sbb | Op::Sbbs | Op::Cmov => 3,
            _ => 2,
        }
    }

    /// Whether the instruction has an exactness condition, which is a goal.
    pub fn has_condition(self) -> bool
        ensures { result ≡ exactness.has_condition self }
    {
        match self {
            Op::Add | Op::Adc | Op::Sub | Op::Sbb | Op::Mul | Op::Shl | Op::Vpc => true,
            _ => false,
        }
    }

    /// The type of result `k` of the instruction at the type `ty`.
    pub fn result_type(self, ty: Ty, k: usize) -> Ty
        requires of_words { IsTy ty }
        requires within { k < instruction.result_count self }
        ensures { slice_get (result_types self ty) k ≡ Some result }
    {
        match self {
            Op::Adds | Op::Adcs | Op::Subb | Op::Sbbs => if k == 0 { Ty::bit() } else { ty },
            Op::Mull | Op::Split => if k == 0 { ty } else { ty.unsigned() },
            Op::Mulj | Op::Join => ty.doubled(),
            _ => ty,
        }
    }
}

impl Copies for Atom {
    fn copy_in(&self, _alloc: Global) -> Result<Self, AllocError> {
        Ok(*self)
    }
}

impl Same for Atom {
    fn same(&self, other: &Self) -> bool {
        *self == *other
    }
}

impl Instr {
    /// An equal instruction with the same allocators. The only error is that memory has run out.
    pub fn copy(&self) -> Result<Self, AllocError>
        ensures copy { IfOk result (λ copy. copy ≡ self.now) }
    {
        Ok(Instr {
            op: self.op,
            ty: self.ty,
            outs: self.outs.copy()?,
            args: self.args.copy()?,
            amount: self.amount,
        })
    }
}

impl Copies for Instr {
    fn copy_in(&self, _alloc: Global) -> Result<Self, AllocError> {
        self.copy()
    }
}

impl Same for Instr {
    fn same(&self, other: &Self) -> bool {
        self.op == other.op
            && self.ty == other.ty
            && self.outs.same(&other.outs)
            && self.args.same(&other.args)
            && self.amount == other.amount
    }
}
