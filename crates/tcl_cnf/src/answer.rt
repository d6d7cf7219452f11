// What a checker of proof logs answers.

/// The answer to a proof log.
#[derive(Debug, Clone, Copy, PartialEq, Eq)]
pub enum LogAnswer {
    /// The line of this number, counted from 0, is the first that is no chain.
    BadLine(usize),
    /// All lines are chains, and none derives the empty clause.
    NoEnd,
    /// All lines are chains, and some line derives the empty clause: no values make every clause true.
    Refutes,
}
