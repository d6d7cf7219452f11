//! What a board tells.

use tcl_goals::Cause;
use tcl_lang::Input;

/// What is known of a goal: it is admitted; an input refutes it; it has a cause; its cause is that the input refutes the
/// goal of this place; nothing yet.
pub enum GoalAnswer<'a> {
    Proved,
    Refuted(&'a Input),
    Unproved(&'a Cause),
    Strayed(u32, &'a Input),
    Open,
}
