// The rows of the table of instructions, computed with integers.

use tcl_lang::{Op, Ty};

// 2 to the width.
fn end_of(width: u32) -> i128 {
    1i128.wrapping_shl(width)
}

// The number modulo 2 to the width.
fn pattern(n: i128, width: u32) -> i128 {
    n & end_of(width).wrapping_sub(1)
}

// The floor of the number by 2 to the width.
fn floor(n: i128, width: u32) -> i128 {
    n.wrapping_shr(width)
}

// The value of the type with this pattern.
fn wrap(ty: Ty, n: i128) -> i128 {
    let low = pattern(n, ty.width);
    if ty.signed && low >= end_of(ty.width) / 2 {
        low.wrapping_sub(end_of(ty.width))
    } else {
        low
    }
}

// The first result of a row with its sign, and the second, which is 0 where there is one result.
pub(crate) type Row = (i128, bool, i128);

fn one(ty: Ty, value: i128) -> Row {
    (value, ty.signed, 0)
}

fn wrapped(ty: Ty, value: i128) -> Row {
    one(ty, wrap(ty, value))
}

// The high and the low part of a whole result.
fn parts(signed: bool, width: u32, whole: i128) -> Row {
    (floor(whole, width), signed, pattern(whole, width))
}

// The borrow and the pattern of a difference.
fn borrowed(width: u32, whole: i128) -> Row {
    (
        0i128.wrapping_sub(floor(whole, width)),
        false,
        pattern(whole, width),
    )
}

// The results of an instruction at a type and an amount, of operands a, b and c.
pub(crate) fn row(op: Op, ty: Ty, n: u32, a: i128, b: i128, c: i128) -> Row {
    let w = ty.width;
    match op {
        Op::Mov | Op::Nondet => one(ty, a),
        Op::Add => wrapped(ty, a.wrapping_add(b)),
        Op::Adds => parts(false, w, a.wrapping_add(b)),
        Op::Adc => wrapped(ty, a.wrapping_add(b).wrapping_add(c)),
        Op::Adcs => parts(false, w, a.wrapping_add(b).wrapping_add(c)),
        Op::Sub => wrapped(ty, a.wrapping_sub(b)),
        Op::Subb => borrowed(w, a.wrapping_sub(b)),
        Op::Sbb => wrapped(ty, a.wrapping_sub(b).wrapping_sub(c)),
        Op::Sbbs => borrowed(w, a.wrapping_sub(b).wrapping_sub(c)),
        Op::Mul => wrapped(ty, a.wrapping_mul(b)),
        Op::Mull => parts(ty.signed, w, a.wrapping_mul(b)),
        Op::Mulj => one(ty, a.wrapping_mul(b)),
        Op::Shl => wrapped(ty, a.wrapping_mul(end_of(n))),
        Op::Split => parts(ty.signed, n, a),
        Op::Join => one(ty, a.wrapping_mul(end_of(w)).wrapping_add(b)),
        Op::Cast | Op::Vpc => wrapped(ty, a),
        Op::Cmov => one(ty, if a == 1 { b } else { c }),
        Op::And => wrapped(ty, a & b),
        Op::Or => wrapped(ty, a | b),
        Op::Xor => wrapped(ty, a ^ b),
        Op::Not => wrapped(ty, !a),
    }
}

// The integer that the exactness condition of a row asks for, where there is one.
fn asked(op: Op, n: u32, a: i128, b: i128, c: i128) -> Option<i128> {
    match op {
        Op::Add => Some(a.wrapping_add(b)),
        Op::Adc => Some(a.wrapping_add(b).wrapping_add(c)),
        Op::Sub => Some(a.wrapping_sub(b)),
        Op::Sbb => Some(a.wrapping_sub(b).wrapping_sub(c)),
        Op::Mul => Some(a.wrapping_mul(b)),
        Op::Shl => Some(a.wrapping_mul(end_of(n))),
        Op::Vpc => Some(a),
        _ => None,
    }
}

// Whether the exactness condition of a row holds, or there is none.
pub(crate) fn is_exact(op: Op, ty: Ty, n: u32, a: i128, b: i128, c: i128) -> bool {
    match asked(op, n, a, b, c) {
        Some(whole) => wrap(ty, whole) == whole,
        None => true,
    }
}

fn allows_kind(op: Op, ty: Ty) -> bool {
    match op {
        Op::Adds | Op::Adcs | Op::Subb | Op::Sbbs => !ty.signed,
        _ => true,
    }
}

fn allows_amount(op: Op, ty: Ty, n: u32) -> bool {
    match op {
        Op::Shl => n < ty.width,
        Op::Split => 0 < n && n < ty.width,
        _ => n == 0,
    }
}

fn is_same(ty: Ty, other: Ty) -> bool {
    ty.signed == other.signed && ty.width == other.width
}

fn allows_operand(op: Op, ty: Ty, from: Ty) -> bool {
    match op {
        Op::Cast | Op::Vpc => true,
        Op::Cmov => is_same(from, Ty::bit()),
        _ => is_same(from, ty),
    }
}

// Whether typing allows the row, with a first operand of the type `from`.
pub(crate) fn allows(op: Op, ty: Ty, from: Ty, n: u32) -> bool {
    allows_kind(op, ty) && allows_amount(op, ty, n) && allows_operand(op, ty, from)
}

// The types of the second and the third operand.
pub(crate) fn others(op: Op, ty: Ty) -> (Ty, Ty) {
    match op {
        Op::Join => (ty.unsigned(), Ty::bit()),
        Op::Cmov => (ty, ty),
        _ => (ty, Ty::bit()),
    }
}
