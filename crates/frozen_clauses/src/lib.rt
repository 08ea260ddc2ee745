//! Clauses that are present but frozen: nothing is propagated by them, but those that are subsets of another clause are found.
#![tactic(auto)]

mod entry;
mod frozen;
mod subset;

pub use crate::frozen::Frozen;
