// Terms and predicates, and the operands of instructions, by recursive descent.

pub(crate) mod chains;
pub(crate) mod operands;
pub(crate) mod range_predicates;
pub(crate) mod range_terms;
pub(crate) mod reader;
pub(crate) mod terms;
