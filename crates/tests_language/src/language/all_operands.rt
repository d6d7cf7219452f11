// Every instruction at every type of one to three bits, with every amount, at all operands. The results come from an
// executable reference in python3 that shares no code with this crate.

ghost use Rattle.std.specs.Prelude.{◌≡◌, ◌&&◌, true, None, slice_get, IsTrue, IfSome};
ghost use Rattle.tcl_lang.specs.Types.{IsTy, is_ty};
ghost use Rattle.tcl_lang.specs.Typing as typing;
ghost use Rattle.tcl_lang.specs.Operands as operands;

use super::{S3, U3, tables};
use crate::expected::agree;
use std::alloc::{AllocError, Global};
use std::test::Fail;
use tcl_lang::{Op, Results, Ty, in_type, results};

const U1: Ty = Ty {
    signed: false,
    width: 1,
};

const U2: Ty = Ty {
    signed: false,
    width: 2,
};

const S2: Ty = Ty {
    signed: true,
    width: 2,
};

fn allows(op: Op, ty: Ty) -> bool
    ensures { result ≡ typing.allows op ty }
{
    match op {
        Op::Adds | Op::Adcs | Op::Subb | Op::Sbbs => !ty.signed,
        Op::Mulj | Op::Join => ty.width <= 32,
        _ => true,
    }
}

fn allows_amount(op: Op, ty: Ty, amount: u32) -> bool
    ensures { result ≡ typing.allows_amount op ty amount }
{
    match op {
        Op::Shl => amount < ty.width,
        Op::Split => 0 < amount && amount < ty.width,
        _ => true,
    }
}

// What is asked of operand k: nothing where there is none, `None` where a value of any type may stand.
fn asked(op: Op, ty: Ty, k: usize) -> Option<Option<Ty>>
    requires { IsTy ty }
    ensures value { result ≡ slice_get (operands.asked_types op ty) k }
    ensures of_words { IfSome result (λ asked. IfSome asked IsTy) }
{
    match (op, k) {
        (Op::Cast | Op::Vpc, 0) => Some(None),
        (Op::Cmov, 0) => Some(Some(Ty::bit())),
        (_, 0) => Some(Some(ty)),
        (Op::Mov | Op::Shl | Op::Split | Op::Cast | Op::Vpc | Op::Not | Op::Nondet, _) => None,
        (Op::Join, 1) => Some(Some(ty.unsigned())),
        (_, 1) => Some(Some(ty)),
        (Op::Adc | Op::Adcs | Op::Sbb | Op::Sbbs, 2) => Some(Some(Ty::bit())),
        (Op::Cmov, 2) => Some(Some(ty)),
        _ => None,
    }
}

fn may_stand(asked: Option<Ty>, n: i128) -> bool
    requires { IfSome asked IsTy }
    ensures { result ≡ operands.may_stand asked n }
{
    match asked {
        None => -(1i128 << 63) <= n && n < 1i128 << 64,
        Some(ty) => in_type(ty, n),
    }
}

fn stands_in(asked: Option<Option<Ty>>, n: i128) -> bool
    requires { IfSome asked (λ asked. IfSome asked IsTy) }
    ensures { result ≡ operands.stands_in asked n }
{
    match asked {
        None => true,
        Some(asked) => may_stand(asked, n),
    }
}

// Whether the instruction may have this type and amount, with values of words as operands.
fn takes_words(op: Op, ty: Ty, amount: u32, a: i128, b: i128, c: i128) -> bool
    ensures value { result ≡ is_ty ty && typing.allows op ty && typing.allows_amount op ty amount && operands.may_stand None a && operands.may_stand None b && operands.may_stand None c }
    ensures of_words { IsTrue result → IsTy ty }
{
    ty.is_ty()
        && allows(op, ty)
        && allows_amount(op, ty, amount)
        && may_stand(None, a)
        && may_stand(None, b)
        && may_stand(None, c)
}

pub(super) fn has_operands(op: Op, ty: Ty, amount: u32, a: i128, b: i128, c: i128) -> bool
    ensures { result ≡ operands.has_operands op ty amount a b c }
{
    takes_words(op, ty, amount, a, b, c)
        && stands_in(asked(op, ty, 0), a)
        && stands_in(asked(op, ty, 1), b)
        && stands_in(asked(op, ty, 2), c)
}

fn results_at(op: Op, ty: Ty, amount: u32, a: i128, b: i128, c: i128) -> Results
    requires { operands.has_operands op ty amount a b c ≡ true }
{
    results(op, ty, amount, a, b, c)
}

// The results, where the operands are such as the instruction takes.
pub(super) fn answer(op: Op, ty: Ty, amount: u32, a: i128, b: i128, c: i128) -> Option<Results> {
    if has_operands(op, ty, amount, a, b, c) {
        Some(results_at(op, ty, amount, a, b, c))
    } else {
        None
    }
}

const VALUES: &[i128] = &[-8, -7, -6, -5, -4, -3, -2, -1, 0, 1, 2, 3, 4, 5, 6, 7];

// The values that are tried for operand k; one where there is no operand k.
fn values(op: Op, k: usize) -> &'static [i128] {
    if k < op.operand_count() { VALUES } else { &[0] }
}

fn write_results(text: &mut String, results: Results) -> Result<(), AllocError> {
    match results {
        Results::One(x) => write!(text, " {x}"),
        Results::Two(x, y) => write!(text, " {x},{y}"),
    }
}

// The results where the operands are such as the instruction takes, and else nothing.
fn write_answer(
    text: &mut String,
    op: Op,
    ty: Ty,
    amount: u32,
    a: i128,
    b: i128,
    c: i128,
) -> Result<(), AllocError> {
    match answer(op, ty, amount, a, b, c) {
        Some(results) => write_results(text, results),
        None => Ok(()),
    }
}

// The results at this first operand and all others, in the order of the second, then of the third.
fn write_row(text: &mut String, op: Op, ty: Ty, amount: u32, a: i128) -> Result<(), AllocError> {
    for b in values(op, 1) {
        for c in values(op, 2) {
            write_answer(text, op, ty, amount, a, *b, *c)?;
        }
    }
    Ok(())
}

// A row for each value of the first operand, or one row in all where there is no second operand.
fn write_rows(text: &mut String, op: Op, ty: Ty, amount: u32) -> Result<(), AllocError> {
    let before = if op.operand_count() > 1 { "\n" } else { "" };
    for a in VALUES {
        if has_operands(op, ty, amount, *a, 0, 0) {
            text.push_str(before)?;
            write_row(text, op, ty, amount, *a)?;
        }
    }
    text.push_str("\n")
}

fn write_type(text: &mut String, ty: Ty) -> Result<(), AllocError> {
    let sign = if ty.signed { 's' } else { 'u' };
    write!(text, "{sign}{}", ty.width)
}

// The rows of an amount.
fn write_amount(text: &mut String, op: Op, ty: Ty, amount: u32) -> Result<(), AllocError> {
    if !allows_amount(op, ty, amount) {
        return Ok(());
    }
    write_type(text, ty)?;
    write!(text, " {amount}:")?;
    write_rows(text, op, ty, amount)
}

fn write_all(text: &mut String, op: Op, ty: Ty) -> Result<(), AllocError> {
    match op {
        Op::Shl | Op::Split => {
            for amount in 0..3u32 {
                write_amount(text, op, ty, amount)?;
            }
            Ok(())
        }
        _ => {
            write_type(text, ty)?;
            text.push_str(":")?;
            write_rows(text, op, ty, 0)
        }
    }
}

const TYPES: &[Ty] = &[U1, U2, U3, S2, S3];

fn text_of(alloc: Global, op: Op) -> Result<String, AllocError> {
    let mut text = String::new(alloc);
    for ty in TYPES {
        if allows(op, *ty) {
            write_all(&mut text, op, *ty)?;
        }
    }
    Ok(text)
}

const TABLES: &[(Op, &str)] = &[
    (Op::Mov, tables::MOV),
    (Op::Add, tables::ADD),
    (Op::Adds, tables::ADDS),
    (Op::Adc, tables::ADC),
    (Op::Adcs, tables::ADCS),
    (Op::Sub, tables::SUB),
    (Op::Subb, tables::SUBB),
    (Op::Sbb, tables::SBB),
    (Op::Sbbs, tables::SBBS),
    (Op::Mul, tables::MUL),
    (Op::Mull, tables::MULL),
    (Op::Mulj, tables::MULJ),
    (Op::Shl, tables::SHL),
    (Op::Split, tables::SPLIT),
    (Op::Join, tables::JOIN),
    (Op::Cast, tables::CAST),
    (Op::Vpc, tables::VPC),
    (Op::Cmov, tables::CMOV),
    (Op::And, tables::AND),
    (Op::Or, tables::OR),
    (Op::Xor, tables::XOR),
    (Op::Not, tables::NOT),
    (Op::Nondet, tables::NONDET),
];

#[test]
fn narrow_words(rt: HostRuntime) -> Result<(), Fail> {
    for (op, expected) in TABLES {
        let text = text_of(rt.alloc(), *op)?;
        agree(&rt, "results", text.as_str(), expected);
    }
    Ok(())
}
