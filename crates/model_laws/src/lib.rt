//! What a design's model costs, and what of it is read.
#![tactic(auto)]

pub mod laws;
