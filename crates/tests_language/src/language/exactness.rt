// The exactness condition at the ends of types, by hand: the mathematical result lies in the type or does not.

ghost use Rattle.std.specs.Prelude.{◌≡◌, true};
ghost use Rattle.tcl_lang.specs.Operands as operands;

use super::all_operands::has_operands;
use super::{S8, S64, U8, U64};
use crate::expected::holds;
use tcl_lang::{Op, Ty, is_exact, is_exact_at};

const GREATEST: i128 = 18446744073709551615;

const LEAST: i128 = -9223372036854775808;

// What is computed, the instruction, its type, its amount and its operands, and whether it is exact.
const ROWS: &[(&str, Op, Ty, u32, i128, i128, i128, bool)] = &[
    ("200 + 55", Op::Add, U8, 0, 200, 55, 0, true),
    ("200 + 56", Op::Add, U8, 0, 200, 56, 0, false),
    ("100 + 26 + 1", Op::Adc, S8, 0, 100, 26, 1, true),
    ("100 + 27 + 1", Op::Adc, S8, 0, 100, 27, 1, false),
    ("55 - 55", Op::Sub, U8, 0, 55, 55, 0, true),
    ("55 - 56", Op::Sub, U8, 0, 55, 56, 0, false),
    ("-100 - 27 - 1", Op::Sbb, S8, 0, -100, 27, 1, true),
    ("-100 - 28 - 1", Op::Sbb, S8, 0, -100, 28, 1, false),
    ("by 1", Op::Mul, U64, 0, GREATEST, 1, 0, true),
    ("squared", Op::Mul, U64, 0, GREATEST, GREATEST, 0, false),
    ("the least by 1", Op::Mul, S64, 0, LEAST, 1, 0, true),
    ("the least negated", Op::Mul, S64, 0, LEAST, -1, 0, false),
    ("31 * 8", Op::Shl, U8, 3, 31, 0, 0, true),
    ("32 * 8", Op::Shl, U8, 3, 32, 0, 0, false),
    ("255", Op::Vpc, U8, 0, 255, 0, 0, true),
    ("-1", Op::Vpc, U8, 0, -1, 0, 0, false),
    ("no condition", Op::Adds, U8, 0, 255, 255, 0, true),
];

fn exactness_at(op: Op, ty: Ty, amount: u32, a: i128, b: i128, c: i128) -> bool
    requires { operands.has_operands op ty amount a b c ≡ true }
{
    is_exact_at(op, ty, amount, a, b, c)
}

// The exactness, where the operands are such as the instruction takes.
fn exactness(op: Op, ty: Ty, amount: u32, a: i128, b: i128, c: i128) -> Option<bool> {
    if has_operands(op, ty, amount, a, b, c) {
        Some(exactness_at(op, ty, amount, a, b, c))
    } else {
        None
    }
}

#[test]
fn ends_of_types(rt: HostRuntime) {
    for (what, op, ty, amount, a, b, c, expected) in ROWS {
        let found = exactness(*op, *ty, *amount, *a, *b, *c);
        holds(&rt, what, found == Some(*expected));
    }
}

#[test]
fn operands_in_a_slice(rt: HostRuntime) {
    holds(&rt, "200 + 55", is_exact(Op::Add, U8, 0, &[200, 55]));
    holds(&rt, "-1", !is_exact(Op::Vpc, U8, 0, &[-1]));
}
