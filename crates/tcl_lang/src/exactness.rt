//! The condition under which an instruction is an equation of integers: its mathematical result lies in its type.

ghost use Rattle.std.specs.Prelude.{◌≡◌, ◌*ℤ◌, ◌||◌, not, slice_index_or, pos};
ghost use Rattle.tcl_lang.specs.Types.{IsTy, InType, is_in_type};
ghost use Rattle.tcl_lang.specs.Instruction.{nth};
ghost use Rattle.tcl_lang.specs.Exactness as exactness;
ghost use Rattle.tcl_lang.specs.Operands.{HasOperands, IsExecutable};

use crate::arithmetic::{
    difference, difference_with, product, shifted, sum, sum_with, unsigned_product,
};
use crate::instr::Op;
use crate::ty::Ty;
use crate::wrapping::in_type;

/// Whether the exactness condition of the instruction holds at its operands, the choice for `nondet`; true for an
/// instruction that has none.
pub fn is_exact(op: Op, ty: Ty, amount: u32, operands: &[i128]) -> bool
    requires { IsExecutable op ty amount operands.now }
    ensures { result ≡ exactness.is_exact op ty amount operands.now }
{
    is_exact_at(
        op,
        ty,
        amount,
        value_at(operands, 0),
        value_at(operands, 1),
        value_at(operands, 2),
    )
}

/// Operand `k`, or 0 where there is none.
fn value_at(operands: &[i128], k: usize) -> i128
    ensures { result ≡ nth operands.now k }
{
    match operands.get(k) {
        Some(value) => *value,
        None => 0,
    }
}

/// The same at the operands `a`, `b` and `c`, of which the instruction reads as many as it has.
pub fn is_exact_at(op: Op, ty: Ty, amount: u32, a: i128, b: i128, c: i128) -> bool
    requires { HasOperands op ty amount a b c }
    ensures { result ≡ exactness.is_exact_at op ty amount a b c }
{
    match op {
        Op::Add => in_type(ty, sum(a, b)),
        Op::Adc => in_type(ty, sum_with(a, b, c)),
        Op::Sub => in_type(ty, difference(a, b)),
        Op::Sbb => in_type(ty, difference_with(a, b, c)),
        Op::Mul => is_product_in_type(ty, a, b),
        Op::Shl => in_type(ty, shifted(a, amount)),
        Op::Vpc => in_type(ty, a),
        _ => true,
    }
}

/// Whether the product of two values of the type is a value of it.
fn is_product_in_type(ty: Ty, a: i128, b: i128) -> bool
    requires of_words { IsTy ty }
    requires first { InType ty a }
    requires second { InType ty b }
    ensures { result ≡ is_in_type ty (a *ℤ b) }
{
    if ty.signed {
        in_type(ty, product(a, b))
    } else {
        unsigned_product(a, b) < 1u128 << ty.width
    }
}
