//! Every instruction at every type of one to three bits, with every amount, at all operands: the values of its gates
//! against the rows of the table, computed with integers.

use crate::bits::{evaluate, number, read};
use crate::ranges::{found_form, free_words};
use crate::rows::{allows, is_exact, others, row};
use std::alloc::{AllocError, Global};
use std::process::Abort;
use std::test::Fail;
use tcl_cnf::Lit;
use tcl_gates::Gates;
use tcl_lang::{Op, Ssa, Ty};
use tcl_words::{Words, exactness, instruction};

const OPS: &[(Op, &str)] = &[
    (Op::Mov, "mov"),
    (Op::Add, "add"),
    (Op::Adds, "adds"),
    (Op::Adc, "adc"),
    (Op::Adcs, "adcs"),
    (Op::Sub, "sub"),
    (Op::Subb, "subb"),
    (Op::Sbb, "sbb"),
    (Op::Sbbs, "sbbs"),
    (Op::Mul, "mul"),
    (Op::Mull, "mull"),
    (Op::Mulj, "mulj"),
    (Op::Shl, "shl"),
    (Op::Split, "split"),
    (Op::Join, "join"),
    (Op::Cast, "cast"),
    (Op::Vpc, "vpc"),
    (Op::Cmov, "cmov"),
    (Op::And, "and"),
    (Op::Or, "or"),
    (Op::Xor, "xor"),
    (Op::Not, "not"),
];

// Every type of one to three bits.
const TYPES: &[Ty] = &[
    Ty {
        signed: false,
        width: 1,
    },
    Ty {
        signed: false,
        width: 2,
    },
    Ty {
        signed: false,
        width: 3,
    },
    Ty {
        signed: true,
        width: 2,
    },
    Ty {
        signed: true,
        width: 3,
    },
];

// An instruction with its word, its type, the type of its first operand, and its amount.
#[derive(Clone, Copy)]
struct Step {
    op: Op,
    word: &'static str,
    ty: Ty,
    from: Ty,
    amount: u32,
}

// The line of the instruction, behind those of three inputs.
const PLACE: u32 = 3;

fn write_type(text: &mut String, ty: Ty) -> Result<(), AllocError> {
    let sign = if ty.signed { 's' } else { 'u' };
    write!(text, "{sign}{}", ty.width)
}

fn write_input(text: &mut String, ty: Ty, name: &str) -> Result<(), AllocError> {
    text.push_str("in ")?;
    write_type(text, ty)?;
    text.push_str(name)
}

// The names of the results.
fn result_names(op: Op) -> &'static str {
    if op.result_count() == 2 { " x y" } else { " x" }
}

fn operand_names(op: Op) -> &'static str {
    match op.operand_count() {
        1 => " a",
        2 => " a b",
        _ => " a b c",
    }
}

fn write_step(text: &mut String, step: &Step) -> Result<(), AllocError> {
    write!(text, "{} ", step.word)?;
    write_type(text, step.ty)?;
    text.push_str(result_names(step.op))?;
    text.push_str(operand_names(step.op))?;
    match step.op {
        Op::Shl | Op::Split => write!(text, " {}", step.amount),
        _ => Ok(()),
    }
}

fn text_of(alloc: Global, step: &Step) -> Result<String, AllocError> {
    let (second, third) = others(step.op, step.ty);
    let mut text = String::new(alloc);
    write_input(&mut text, step.from, " a\n")?;
    write_input(&mut text, second, " b\n")?;
    write_input(&mut text, third, " c\n")?;
    write_step(&mut text, step)?;
    text.push_str("\nend\n")?;
    Ok(text)
}

fn form_of(alloc: Global, step: &Step) -> Option<Ssa> {
    let text = text_of(alloc, step).ok()?;
    found_form(alloc, text.as_str())
}

// The gates of an instruction and its exactness condition, the literals of the variables, and that of the condition.
#[derive(Drop)]
struct Circuit {
    gates: Gates,
    words: Words,
    condition: Lit,
}

#[tactic(auto, using(tcl_words::proofs::Parts::all_within_grown))]
fn circuit_of(alloc: Global, form: &Ssa) -> Result<Circuit, AllocError> {
    let mut gates = Gates::new(alloc);
    let mut words = free_words(alloc, &mut gates, form)?;
    let condition = exactness(alloc, &mut gates, &words, form, PLACE)?;
    instruction(alloc, &mut gates, &mut words, form, PLACE)?;
    Ok(Circuit {
        gates,
        words,
        condition,
    })
}

// The number that a variable's literals show, or 0 where there is none.
fn value(values: &[bool], words: &Words, variable: usize, signed: bool) -> i128 {
    match words.as_slice().get(variable) {
        Some(word) => number(values, word.as_slice(), signed),
        None => 0,
    }
}

// What the gates show otherwise than the row, or nothing.
fn wrong_part(values: &[bool], circuit: &Circuit, step: &Step) -> &'static str {
    let (second, third) = others(step.op, step.ty);
    let a = value(values, &circuit.words, 0, step.from.signed);
    let b = value(values, &circuit.words, 1, second.signed);
    let c = value(values, &circuit.words, 2, third.signed);
    let (first, sign, other) = row(step.op, step.ty, step.amount, a, b, c);
    let exact = is_exact(step.op, step.ty, step.amount, a, b, c);
    if value(values, &circuit.words, 3, sign) != first {
        "the first result"
    } else if step.op.result_count() == 2 && value(values, &circuit.words, 4, false) != other {
        "the second result"
    } else if read(values, circuit.condition) != exact {
        "the exactness"
    } else {
        ""
    }
}

fn expect(rt: &impl Abort, step: &Step, free: u32, wrong: &str) {
    assert!(rt;
        wrong.is_empty(),
        "{wrong} of {} {} at {free}",
        step.word,
        step.amount
    );
}

fn check_circuit(
    rt: &impl Abort,
    alloc: Global,
    step: &Step,
    circuit: &Circuit,
) -> Result<(), AllocError> {
    let (second, third) = others(step.op, step.ty);
    let bits = step
        .from
        .width
        .wrapping_add(second.width)
        .wrapping_add(third.width);
    for free in 0..1u32.wrapping_shl(bits) {
        let values = evaluate(alloc, &circuit.gates, free)?;
        expect(rt, step, free, wrong_part(&values, circuit, step));
    }
    Ok(())
}

fn check_step(rt: &impl Abort, alloc: Global, step: &Step) -> Result<(), AllocError> {
    match form_of(alloc, step) {
        Some(form) => check_circuit(rt, alloc, step, &circuit_of(alloc, &form)?),
        None => {
            expect(rt, step, 0, "the text");
            Ok(())
        }
    }
}

fn check_amounts(
    rt: &impl Abort,
    alloc: Global,
    op: Op,
    word: &'static str,
    ty: Ty,
    from: Ty,
) -> Result<(), AllocError> {
    for amount in 0..3u32 {
        if allows(op, ty, from, amount) {
            let step = Step {
                op,
                word,
                ty,
                from,
                amount,
            };
            check_step(rt, alloc, &step)?;
        }
    }
    Ok(())
}

#[test]
fn instructions_at_all_operands(rt: HostRuntime) -> Result<(), Fail> {
    for (op, word) in OPS {
        for ty in TYPES {
            for from in TYPES {
                check_amounts(&rt, rt.alloc(), *op, word, *ty, *from)?;
            }
        }
    }
    Ok(())
}

// By hand, of a word of w bits: a sum has 3 gates a bit; a product of w bits has w + 2w(w - 1), and the whole product as many
// as a product of 2w bits. A condition makes the result again at w + 2, 2w or w + n bits, and has a gate for each bit that is
// beyond the type; that of a `vpc` has one bit beyond.
//
// The instruction, its word and amount, its width, the gates of its results, and those of its condition.
const COUNTS: &[(Op, &str, u32, u32, usize, usize)] = &[
    (Op::Mov, "mov", 0, 32, 0, 0),
    (Op::Mov, "mov", 0, 64, 0, 0),
    (Op::Add, "add", 0, 32, 96, 104),
    (Op::Add, "add", 0, 64, 192, 200),
    (Op::Adds, "adds", 0, 32, 96, 0),
    (Op::Adds, "adds", 0, 64, 192, 0),
    (Op::Adc, "adc", 0, 32, 96, 104),
    (Op::Adc, "adc", 0, 64, 192, 200),
    (Op::Sub, "sub", 0, 32, 96, 104),
    (Op::Sub, "sub", 0, 64, 192, 200),
    (Op::Subb, "subb", 0, 32, 96, 0),
    (Op::Subb, "subb", 0, 64, 192, 0),
    (Op::Sbb, "sbb", 0, 32, 96, 104),
    (Op::Sbb, "sbb", 0, 64, 192, 200),
    (Op::Mul, "mul", 0, 32, 2_016, 8_160),
    (Op::Mul, "mul", 0, 64, 8_128, 32_704),
    (Op::Mull, "mull", 0, 32, 8_128, 0),
    (Op::Mull, "mull", 0, 64, 32_640, 0),
    (Op::Mulj, "mulj", 0, 16, 2_016, 0),
    (Op::Mulj, "mulj", 0, 32, 8_128, 0),
    (Op::Shl, "shl", 3, 32, 0, 3),
    (Op::Shl, "shl", 3, 64, 0, 3),
    (Op::Split, "split", 3, 32, 0, 0),
    (Op::Split, "split", 3, 64, 0, 0),
    (Op::Join, "join", 0, 16, 0, 0),
    (Op::Join, "join", 0, 32, 0, 0),
    (Op::Cast, "cast", 0, 32, 0, 0),
    (Op::Cast, "cast", 0, 64, 0, 0),
    (Op::Vpc, "vpc", 0, 32, 0, 1),
    (Op::Vpc, "vpc", 0, 64, 0, 1),
    (Op::Cmov, "cmov", 0, 32, 32, 0),
    (Op::Cmov, "cmov", 0, 64, 64, 0),
    (Op::And, "and", 0, 32, 32, 0),
    (Op::And, "and", 0, 64, 64, 0),
    (Op::Or, "or", 0, 32, 32, 0),
    (Op::Or, "or", 0, 64, 64, 0),
    (Op::Xor, "xor", 0, 32, 32, 0),
    (Op::Xor, "xor", 0, 64, 64, 0),
    (Op::Not, "not", 0, 32, 0, 0),
    (Op::Not, "not", 0, 64, 0, 0),
];

// The gates of the results.
fn result_gates(alloc: Global, form: &Ssa) -> Result<usize, AllocError> {
    let mut gates = Gates::new(alloc);
    let mut words = free_words(alloc, &mut gates, form)?;
    let before = gates.len();
    instruction(alloc, &mut gates, &mut words, form, PLACE)?;
    Ok(gates.len().saturating_sub(before))
}

// The gates of the exactness condition.
fn condition_gates(alloc: Global, form: &Ssa) -> Result<usize, AllocError> {
    let mut gates = Gates::new(alloc);
    let words = free_words(alloc, &mut gates, form)?;
    let before = gates.len();
    let _condition = exactness(alloc, &mut gates, &words, form, PLACE)?;
    Ok(gates.len().saturating_sub(before))
}

// The instruction at an unsigned type of this width.
fn unsigned_step(op: Op, word: &'static str, amount: u32, width: u32) -> Step {
    let ty = Ty {
        signed: false,
        width,
    };
    let from = if op == Op::Cmov { Ty::bit() } else { ty };
    Step {
        op,
        word,
        ty,
        from,
        amount,
    }
}

// The gates of the results and of the condition.
fn gate_counts(alloc: Global, step: &Step) -> Result<Option<(usize, usize)>, AllocError> {
    match form_of(alloc, step) {
        Some(form) => Ok(Some((result_gates(alloc, &form)?, condition_gates(alloc, &form)?))),
        None => Ok(None),
    }
}

fn expect_counts(rt: &impl Abort, word: &str, width: u32, is_so: bool) {
    assert!(rt; is_so, "the gates of {word} of {width} bits");
}

#[test]
fn instructions_have_so_many_gates(rt: HostRuntime) -> Result<(), Fail> {
    for (op, word, amount, width, results, condition) in COUNTS {
        let step = unsigned_step(*op, word, *amount, *width);
        let counts = gate_counts(rt.alloc(), &step)?;
        expect_counts(&rt, word, *width, counts == Some((*results, *condition)));
    }
    Ok(())
}
