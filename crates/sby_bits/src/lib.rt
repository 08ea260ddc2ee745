//! Word arithmetic on rows of bits.
//!
//! A row is a `&[bool]`, lowest bit first. What an operation gives is written to `y`, which is filled whole.
//! No call takes memory, and none refuses. Arithmetic is for rows of at most 128 bits.
#![tactic(auto)]

mod arithmetic;
mod comparisons;
pub mod laws;
mod parts;
mod shifts;

pub use arithmetic::{add, div, mul, rem, sub};
pub use comparisons::{equal, less, reduce_and, reduce_or, reduce_xor};
pub use parts::{concat, extend, slice};
pub use shifts::{shift_any, shift_left, shift_right};
