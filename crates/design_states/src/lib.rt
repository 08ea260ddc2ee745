//! What a design keeps from cycle to cycle, and what is free in each cycle, as lists.
#![tactic(auto)]

pub mod input_bits;
pub mod state_bits;
