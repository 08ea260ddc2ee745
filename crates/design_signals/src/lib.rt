//! Signals as chunks: a contract sees the list of bits, and slices and concatenations cost chunks.
#![tactic(auto)]

pub mod bits;
pub mod chunk;
pub mod digits;
pub mod segments;
pub mod sig_bit;
pub mod signal;
pub mod stored;
