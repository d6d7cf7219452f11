// The ten instructions of the walk over all values of two words, by a loop over a table of steps that asks for nothing.

ghost use Rattle.std.specs.Prelude.{◌≤◌};

use std::alloc::{AllocError, Global};

// What a step does.
#[derive(Clone, Copy)]
enum Kind {
    Add,
    Sub,
    Mul,
    And,
    Or,
    Xor,
    Not,
    // The upper and the lower half of a product.
    Product,
    // The carry and the word of a sum.
    Carry,
    Choice,
}

// What a step does, and the places of its operands and of its results in the list of values.
type Step = (Kind, [usize; 3], [usize; 2]);

const STEPS: &[Step] = &[
    (Kind::Add, [0, 1, 0], [2, 2]),
    (Kind::Mul, [0, 2, 0], [3, 3]),
    (Kind::Xor, [2, 3, 0], [4, 4]),
    (Kind::Sub, [4, 1, 0], [5, 5]),
    (Kind::And, [5, 0, 0], [6, 6]),
    (Kind::Or, [6, 2, 0], [7, 7]),
    (Kind::Not, [7, 0, 0], [8, 8]),
    (Kind::Product, [8, 3, 0], [9, 10]),
    (Kind::Carry, [9, 10, 0], [11, 12]),
    (Kind::Choice, [11, 12, 4], [13, 13]),
];

const LAST: usize = 13;

/// Goes through the values of two words of so many bits each, at most 15, and says the sum of the last results.
pub(crate) fn plain_text(alloc: Global, width: u32) -> Result<String, AllocError> {
    let mut values = vec![in alloc; 0; 14]?;
    // A copy, so that the loop is not compiled for these steps alone.
    let steps = Vec::from_slice(alloc, STEPS)?;
    let sum = sum_of_walk(&steps, &mut values, width.min(15));
    format!(in alloc; "sum {sum}\n")
}

fn sum_of_walk(steps: &[Step], values: &mut [i128], width: u32) -> u64
    requires { width ≤ 15 }
{
    let mut sum = 0_u64;
    for n in 0..1_u32 << (2 * width) {
        write(values, 0, (n >> width) as i128);
        write(values, 1, (n % (1_u32 << width)) as i128);
        sum = sum.wrapping_add(last_result(steps, values, width));
    }
    sum
}

fn last_result(steps: &[Step], values: &mut [i128], width: u32) -> u64 {
    let mask = 1_i128.wrapping_shl(width).wrapping_sub(1);
    for (kind, operands, results) in steps {
        execute(values, *kind, *operands, *results, width, mask);
    }
    u64::try_from(read(values, LAST)).unwrap_or(0)
}

fn execute(
    values: &mut [i128],
    kind: Kind,
    operands: [usize; 3],
    results: [usize; 2],
    width: u32,
    mask: i128,
) {
    let [first, second, third] = operands;
    let a = read(values, first);
    let b = read(values, second);
    let [result, low] = results;
    match kind {
        Kind::Add => write(values, result, a.wrapping_add(b) & mask),
        Kind::Sub => write(values, result, a.wrapping_sub(b) & mask),
        Kind::Mul => write(values, result, a.wrapping_mul(b) & mask),
        Kind::And => write(values, result, a & b),
        Kind::Or => write(values, result, a | b),
        Kind::Xor => write(values, result, a ^ b),
        Kind::Not => write(values, result, !a & mask),
        Kind::Product => {
            let product = a.wrapping_mul(b);
            write(values, result, product.wrapping_shr(width));
            write(values, low, product & mask);
        }
        Kind::Carry => {
            let sum = a.wrapping_add(b);
            write(values, result, sum.wrapping_shr(width));
            write(values, low, sum & mask);
        }
        Kind::Choice => write(values, result, if a == 0 { read(values, third) } else { b }),
    }
}

fn read(values: &[i128], place: usize) -> i128 {
    match values.get(place) {
        Some(value) => *value,
        None => 0,
    }
}

fn write(values: &mut [i128], place: usize, value: i128) {
    if place < values.len() {
        values[place] = value;
    }
}
