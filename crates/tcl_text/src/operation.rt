//! The words of instructions, and what follows them.

ghost use Rattle.std.specs.Prelude.{◌≡◌};
ghost use Rattle.tcl_lang.specs.Shape as shape;
ghost use Rattle.tcl_text.specs.Words as words;

use tcl_lang::Op;

/// The word of an instruction, the first of its line.
pub fn word_of_op(op: Op) -> &'static str
    ensures { result.now ≡ words.word_of_op op }
{
    match op {
        Op::Mov => "mov",
        Op::Add => "add",
        Op::Adds => "adds",
        Op::Adc => "adc",
        Op::Adcs => "adcs",
        Op::Sub => "sub",
        Op::Subb => "subb",
        Op::Sbb => "sbb",
        Op::Sbbs => "sbbs",
        Op::Mul => "mul",
        Op::Mull => "mull",
        Op::Mulj => "mulj",
        Op::Shl => "shl",
        Op::Split => "split",
        Op::Join => "join",
        Op::Cast => "cast",
        Op::Vpc => "vpc",
        Op::Cmov => "cmov",
        Op::And => "and",
        Op::Or => "or",
        Op::Xor => "xor",
        Op::Not => "not",
        Op::Nondet => "nondet",
    }
}

/// Whether an amount stands behind the operands of an instruction.
pub fn has_amount(op: Op) -> bool
    ensures { result ≡ shape.has_amount op }
{
    match op {
        Op::Shl => true,
        Op::Split => true,
        _ => false,
    }
}
