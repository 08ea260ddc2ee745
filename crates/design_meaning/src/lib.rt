//! The meaning of a design: its cycles, its runs, and what is claimed of them.
#![tactic(auto)]

pub mod laws;
pub mod run;
pub mod worked;
