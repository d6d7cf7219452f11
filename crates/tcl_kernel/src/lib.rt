//! The kernel: certificates are checked here, and nowhere else does a proof come into being.
#![tactic(auto)]

mod answer;
mod bounded;
mod cases;
mod certificate;
mod checker;
mod cited;
mod cofactored;
mod counterexample;
mod entry;
mod enumerated;
mod evidence;
mod facts;
mod laws;
mod logged;
mod proof;
mod reason;
mod stray;

pub use answer::Answer;
pub use certificate::{Cert, EntryNumbers};
pub use checker::check;
pub use counterexample::check_break;
pub use facts::{Facts, NumberedFact};
pub use laws::{
    certificates_are_sound, checked_breaks_refute, cut_models_are_true, facts_are_added,
    models_stray, reasons_are_exact, search_ends_are_true, strays_break,
};
pub use proof::Proof;
pub use reason::Reason;
pub use stray::{Stray, first_stray};
