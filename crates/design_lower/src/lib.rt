//! A design without registers that have an asynchronous reset: each is lowered to a register without one.
#![tactic(auto)]

mod copies;
mod fits;
pub mod laws;
mod lowering;
mod names;
mod parts;
mod room;
mod starts;

pub use lowering::lower;
