//! The work on a piece of a goal: what comes of it is the kernel's proof of its fact or of an input that breaks a goal, or the
//! cause with which it ends.
#![tactic(auto)]

mod candidates;
mod checking;
mod citing;
mod clause_search;
mod denials;
mod entry;
mod facts;
mod inputs;
mod lemma_making;
mod lemma_search;
mod logs;
mod models;
mod outcomes;
mod reducing;
mod search_end;
mod searching;
mod strays;
mod trying;
mod walking;
mod worked;
mod working;

pub use working::work;
