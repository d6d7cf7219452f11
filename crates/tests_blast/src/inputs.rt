// The inputs of models of whole facts. The reference, a second implementation of the language, gave the inputs; the bits are any.

use crate::expected::holds;
use crate::forms::form_of_text;
use std::alloc::{AllocError, Global};
use std::test::Fail;
use tcl_blast::input_of;
use tcl_cnf::Bits;
use tcl_goals::{Fact, Lemmas, has_goal};
use tcl_lang::Ssa;
use tcl_slice::whole;

const PROGRAMS: &[&str] = &[
    "in s4 x\nin u3 z\nnondet s4 b\nassert rng x <= b\nnondet u8 late\nassert rng late <= 9@u8\nend",
    "in u8 a\nin s8 b\nin u1 c\nadds u8 d e a 3@u8\nassume rng e != 0@u8\nassert rng b < 4@s8\npost rng c = 0@u1\nend",
    "in s2 x\nin s64 y\nnondet s2 n\nmul s2 p x n\nassert rng y >= 0@s64\nend",
    "in u64 x\nmull u64 h l x x\nsplit u64 t u l 5\nassert rng t = u\nend",
    "in u5 x\nin u5 y\ncmov u5 m 1@u1 x y\ncut rng m = x\nnondet u5 k\nassert rng k = m\nend",
];

// A program, a goal, the bits from variable 0 on, and the values of the input.
const ROWS: &[Row] = &[
    (0, 0, "101000100", &[2, 0, 2, 0]),
    (0, 0, "10011000", &[-4, 0, 0, 0]),
    (0, 1, "10001000011001000", &[-8, 0, 0, 19]),
    (0, 1, "11000011111110000", &[1, 0, -2, 15]),
    (1, 0, "11111100101011001", &[159, -102, 0]),
    (1, 0, "111110011", &[207, 0, 0]),
    (1, 1, "110010010011100111", &[73, -50, 1]),
    (1, 1, "10111110000000010", &[62, 64, 0]),
    (2, 0, "10011", &[0, 0, -1]),
    (2, 0, "1100", &[1, 0, 0]),
    (
        2,
        1,
        "111110110000100100000100010111100111110001110001001011010100010011001",
        &[-1, 7230126539151774235, -2],
    ),
    (
        2,
        1,
        "11101111000010101011001010110111000",
        &[-1, 497658398, 0],
    ),
    (
        3,
        0,
        "10000100110000100100110111010101011100100100101010011000111101101",
        &[13226132192089416080],
    ),
    (3, 0, "101110111000001100101110110100101", &[2780455150]),
    (4, 0, "10001010111", &[8, 29, 0]),
    (4, 0, "11001001100", &[9, 6, 0]),
    (4, 1, "1011000110101001", &[6, 22, 18]),
    (4, 1, "1101111001010011", &[29, 9, 25]),
];

fn text_of(program: usize) -> &'static str {
    match PROGRAMS.get(program) {
        Some(text) => text,
        None => "",
    }
}

fn bits_of(alloc: Global, digits: &str) -> Result<Bits, AllocError> {
    let mut bits = Bits::new(alloc);
    for digit in digits.as_bytes() {
        bits.push(*digit == b'1')?;
    }
    Ok(bits)
}

fn whole_of(alloc: Global, form: &Ssa, goal: u32) -> Result<Fact, Fail> {
    if has_goal(form.lines().as_slice(), goal) {
        Ok(whole(alloc, form, goal)?)
    } else {
        Err("no such goal")?
    }
}

type Row = (usize, u32, &'static str, &'static [i128]);

fn has_values(alloc: Global, form: &Ssa, fact: &Fact, row: &Row) -> Result<bool, AllocError> {
    let bits = bits_of(alloc, row.2)?;
    let input = input_of(alloc, form, fact, &Lemmas::new(alloc), &bits)?;
    Ok(input.as_slice() == row.3)
}

fn is_right(alloc: Global, form: &Ssa, row: &Row) -> Result<bool, Fail> {
    let fact = whole_of(alloc, form, row.1)?;
    Ok(has_values(alloc, form, &fact, row)?)
}

#[test]
fn inputs(rt: HostRuntime) -> Result<(), Fail> {
    for row in ROWS {
        let form = form_of_text(rt.alloc(), text_of(row.0))?;
        let is_right = is_right(rt.alloc(), &form, row)?;
        holds(&rt, row.2, is_right);
    }
    Ok(())
}
