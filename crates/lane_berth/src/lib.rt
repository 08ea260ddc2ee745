//! A lane's bay with its place under an allowance.
#![tactic(auto)]

mod berth;

pub use berth::{Allowance, Berth};
