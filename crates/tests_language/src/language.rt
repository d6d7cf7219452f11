// The results of instructions, runs, and what a line answers of itself.

ghost use Rattle.std.specs.Prelude.{◌≡◌, ℕ, suc, pos, true, List};
ghost use Rattle.tcl_lang.specs.declared.ty.Word.{Word};
ghost use Rattle.tcl_lang.specs.declared.term.Term as plain_term;
ghost use Rattle.tcl_lang.specs.declared.term.Term.TheViews as term;
ghost use Rattle.tcl_lang.specs.Term.{term_value};

mod all_operands;
mod exactness;
mod lines;
mod tables;

use std::alloc::AllocError;
use std::process::Abort;
use tcl_lang::{Args, Atom, Instr, Line, Op, Outs, Results, Ty, Word, run, run_before, word_at};

const U3: Ty = Ty {
    signed: false,
    width: 3,
};

const S3: Ty = Ty {
    signed: true,
    width: 3,
};

const U8: Ty = Ty {
    signed: false,
    width: 8,
};

const S8: Ty = Ty {
    signed: true,
    width: 8,
};

const U64: Ty = Ty {
    signed: false,
    width: 64,
};

const S64: Ty = Ty {
    signed: true,
    width: 64,
};

// An instruction, its type and its amount, three operands, and the results.
type Row = (Op, Ty, u32, i128, i128, i128, Results);

fn expect(rt: &impl Abort, row: &Row) {
    let (op, ty, amount, a, b, c, expected) = *row;
    let is_so = all_operands::answer(op, ty, amount, a, b, c) == Some(expected);
    assert!(rt; is_so, "{a} {b} {c}");
}

fn expect_rows(rt: &impl Abort, rows: &[Row]) {
    for row in rows {
        expect(rt, row);
    }
}

// The results come from an executable reference in python3 that shares no code with this crate.
const UNSIGNED: &[Row] = &[
    (Op::Mov, U3, 0, 5, 0, 0, Results::One(5)),
    (Op::Add, U3, 0, 7, 7, 0, Results::One(6)),
    (Op::Adc, U3, 0, 7, 5, 1, Results::One(5)),
    (Op::Sub, U3, 0, 0, 7, 0, Results::One(1)),
    (Op::Sbb, U3, 0, 0, 0, 1, Results::One(7)),
    (Op::Mul, U3, 0, 5, 7, 0, Results::One(3)),
    (Op::Mull, U3, 0, 5, 7, 0, Results::Two(4, 3)),
    (Op::Mull, U3, 0, 0, 0, 0, Results::Two(0, 0)),
    (Op::Mulj, U3, 0, 0, 7, 0, Results::One(0)),
    (Op::Mulj, U3, 0, 7, 7, 0, Results::One(49)),
    (Op::Shl, U3, 1, 5, 0, 0, Results::One(2)),
    (Op::Shl, U3, 2, 7, 0, 0, Results::One(4)),
    (Op::Split, U3, 2, 5, 0, 0, Results::Two(1, 1)),
    (Op::Split, U3, 1, 7, 0, 0, Results::Two(3, 1)),
    (Op::Join, U3, 0, 5, 6, 0, Results::One(46)),
    (Op::Cast, U3, 0, -7, 0, 0, Results::One(1)),
    (Op::Vpc, U3, 0, 12, 0, 0, Results::One(4)),
    (Op::Cmov, U3, 0, 1, 7, 0, Results::One(7)),
    (Op::Cmov, U3, 0, 0, 7, 0, Results::One(0)),
    (Op::And, U3, 0, 5, 7, 0, Results::One(5)),
    (Op::Or, U3, 0, 5, 0, 0, Results::One(5)),
    (Op::Xor, U3, 0, 5, 7, 0, Results::One(2)),
    (Op::Not, U3, 0, 5, 0, 0, Results::One(2)),
    (Op::Nondet, U3, 0, 5, 0, 0, Results::One(5)),
    (Op::Adds, U3, 0, 7, 7, 0, Results::Two(1, 6)),
    (Op::Adcs, U3, 0, 7, 7, 1, Results::Two(1, 7)),
    (Op::Adds, U3, 0, 3, 4, 0, Results::Two(0, 7)),
    (Op::Adcs, U3, 0, 3, 4, 1, Results::Two(1, 0)),
    (Op::Subb, U3, 0, 2, 7, 0, Results::Two(1, 3)),
    (Op::Sbbs, U3, 0, 2, 7, 1, Results::Two(1, 2)),
    (Op::Subb, U3, 0, 7, 2, 0, Results::Two(0, 5)),
    (Op::Sbbs, U3, 0, 7, 2, 1, Results::Two(0, 4)),
];

const SIGNED: &[Row] = &[
    (Op::Mov, S3, 0, -3, 0, 0, Results::One(-3)),
    (Op::Add, S3, 0, 3, 3, 0, Results::One(-2)),
    (Op::Adc, S3, 0, 3, -3, 1, Results::One(1)),
    (Op::Sub, S3, 0, -4, 3, 0, Results::One(1)),
    (Op::Sbb, S3, 0, -4, -4, 1, Results::One(-1)),
    (Op::Mul, S3, 0, -3, 3, 0, Results::One(-1)),
    (Op::Mull, S3, 0, -3, 3, 0, Results::Two(-2, 7)),
    (Op::Mull, S3, 0, -4, -4, 0, Results::Two(2, 0)),
    (Op::Mulj, S3, 0, -4, 3, 0, Results::One(-12)),
    (Op::Mulj, S3, 0, 3, 3, 0, Results::One(9)),
    (Op::Shl, S3, 1, -3, 0, 0, Results::One(2)),
    (Op::Shl, S3, 2, 3, 0, 0, Results::One(-4)),
    (Op::Split, S3, 2, -3, 0, 0, Results::Two(-1, 1)),
    (Op::Split, S3, 1, 3, 0, 0, Results::Two(1, 1)),
    (Op::Join, S3, 0, -3, 6, 0, Results::One(-18)),
    (Op::Cast, S3, 0, -7, 0, 0, Results::One(1)),
    (Op::Vpc, S3, 0, 12, 0, 0, Results::One(-4)),
    (Op::Cmov, S3, 0, 1, 3, -4, Results::One(3)),
    (Op::Cmov, S3, 0, 0, 3, -4, Results::One(-4)),
    (Op::And, S3, 0, -3, 3, 0, Results::One(1)),
    (Op::Or, S3, 0, -3, -4, 0, Results::One(-3)),
    (Op::Xor, S3, 0, -3, 3, 0, Results::One(-2)),
    (Op::Not, S3, 0, -3, 0, 0, Results::One(2)),
    (Op::Nondet, S3, 0, -3, 0, 0, Results::One(-3)),
];

const WIDE: &[Row] = &[
    (
        Op::Mul,
        U64,
        0,
        18446744073709551615,
        18446744073709551613,
        0,
        Results::One(3),
    ),
    (
        Op::Mull,
        U64,
        0,
        18446744073709551615,
        18446744073709551615,
        0,
        Results::Two(18446744073709551614, 1),
    ),
    (
        Op::Mull,
        S64,
        0,
        -9223372036854775808,
        -9223372036854775808,
        0,
        Results::Two(4611686018427387904, 0),
    ),
];

#[test]
fn unsigned_words(rt: HostRuntime) {
    expect_rows(&rt, UNSIGNED);
}

#[test]
fn signed_words(rt: HostRuntime) {
    expect_rows(&rt, SIGNED);
}

#[test]
fn wide_products(rt: HostRuntime) {
    expect_rows(&rt, WIDE);
}

// A name that is defined again at another type: 200 as `u8`, then as `s8`.
#[test]
fn redefined_at_another_type(rt: HostRuntime) -> Result<(), AllocError> {
    let alloc = rt.alloc();
    let outs = Outs::from_vec(vec![in alloc; 0u32]?);
    let args = Args::from_vec(vec![in alloc; Atom::Var(0)]?);
    let cast = Instr {
        op: Op::Cast,
        ty: S8,
        outs,
        args,
        amount: 0,
    };
    let lines = [Line::Input(U8, 0), Line::Step(cast)];
    let before = run_before(alloc, 1, &lines, &[200], 1)?;
    assert!(rt;
        word_at(before.as_slice(), 0) == Word { ty: U8, value: 200 },
        "before"
    );
    let after = run(alloc, 1, &lines, &[200])?;
    assert!(rt;
        word_at(after.as_slice(), 0) == Word { ty: S8, value: -56 },
        "after"
    );
    Ok(())
}

// A power 0 is 1, also of 0 and of a power of 0; every other power of 0 is 0.
fn zero_is_raised()
    ensures zeroth { (store : List Word) → term_value store (term.Pow (plain_term.Num (pos 0)) 0) ≡ pos 1 }
    ensures others { (store : List Word) (k : ℕ) → term_value store (term.Pow (plain_term.Num (pos 0)) (suc k)) ≡ pos 0 }
    ensures zeroth_of_zeroth { (store : List Word) → term_value store (term.Pow (term.Pow (plain_term.Num (pos 0)) 0) 0) ≡ pos 1 }
    ensures zeroth_of_third { (store : List Word) → term_value store (term.Pow (term.Pow (plain_term.Num (pos 0)) 3) 0) ≡ pos 1 }
    ensures zeroth_of_difference { (store : List Word) → term_value store (term.Pow (term.Sub (plain_term.Var 0) (plain_term.Var 0)) 0) ≡ pos 1 }
{}

#[test]
fn powers_of_zero(_rt: HostRuntime) {
    zero_is_raised();
}
