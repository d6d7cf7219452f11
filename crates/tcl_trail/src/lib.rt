//! The assignment trail of a search: assumed literals, and what unit propagation over the clauses gives from them. The
//! clauses are watched at two literals each.
#![tactic(auto)]

mod assigned;
mod choosing;
mod counting;
mod entry;
mod fact;
mod pair;
mod propagation;
mod scan;
mod scanning;
mod step;
mod trail;
mod visiting;
mod watch_list;
mod watching;

pub use entry::Entry;
pub use step::Step;
pub use trail::Trail;
