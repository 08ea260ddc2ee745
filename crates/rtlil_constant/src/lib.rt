//! Numbers, indices and constants of RTLIL text.
#![tactic(auto)]

pub mod constant;
pub mod digits;
mod escape;
pub mod number;
