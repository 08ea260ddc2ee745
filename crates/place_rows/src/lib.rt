//! Rows of places, all in one list.
#![tactic(auto)]

mod rows;

pub use rows::Rows;
