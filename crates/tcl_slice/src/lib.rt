//! Facts of goals: what a goal rests on, and the runs that an assignment of such a fact gives.
#![tactic(auto)]

mod cut_facts;
mod growing;
mod laws;
mod links;
mod names;
mod plans;
mod search;
mod whole_facts;

pub use cut_facts::slice;
pub use laws::whole_assignments_run;
pub use plans::plan;
pub use whole_facts::whole;
