//! What a line of tokens is: instructions, predicates and moduli up to the end of the line, whole lines, and the verdict on a
//! line.

mod instruction;
pub(crate) mod line;
mod modulus;
mod predicate;
mod scan;
mod tokens;
