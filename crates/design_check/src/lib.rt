//! The check of a design for faults, and the flat design that has none.
#![tactic(auto)]

pub mod check;
mod clocks;
mod conflicts;
pub mod fault;
pub mod flat;
pub mod laws;
mod names;
mod numbers;
mod parameters;
mod parts;
mod ports;
