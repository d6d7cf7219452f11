//! The reasons for which a line is ill-typed, in the order in which they are looked for.

/// Why a line is ill-typed.
#[derive(Clone, Copy, PartialEq, Eq, Debug)]
pub enum Reason {
    /// The type is not allowed for the instruction.
    Kind,
    /// The amount of a shift or split is out of range.
    Amount,
    /// A name that is used has no definition on an earlier line.
    Undefined,
    /// A literal lies outside its type.
    Literal,
    /// An operand has another type than is stated, or two sides of a range operator or comparison differ.
    Mismatch,
    /// An `in` name has an earlier `in` line, or two results of an instruction have one name.
    Repeated,
    /// The parts of a modulus are not of the form of a modulus.
    Modulus,
}
