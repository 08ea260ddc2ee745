//! Models: a design's cells as nodes in an order in which each can be computed, over one row of bits.
//!
//! A model names no wire, port or parameter: bits are places, counted from 0, and each place is a constant, a state bit, an input, or is
//! given by one node. One walk over the nodes is one cycle.
#![tactic(auto)]

pub mod draft;
pub mod laws;
pub mod model;
pub mod op;
mod stored;
