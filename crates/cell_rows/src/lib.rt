//! The rows that combinational cells give of their operands' rows: one call for each line of the table of cells.
//!
//! A row is lowest bit first. An operand is a row and whether it stands for a number in two's complement; `y` is filled whole, and its
//! length is the width of the result. Nothing here takes memory. Arithmetic, comparisons of order and shifts serve up to 128 bits.
#![tactic(auto)]

mod arithmetic;
mod bitwise;
mod choices;
mod flags;
mod shifts;

pub use arithmetic::divide;
pub use bitwise::{binary, unary};
pub use choices::{bmux, concat, mux, pmux, slice};
pub use flags::{compare, flag, logic, reduce};
pub use shifts::{shift_any, shift_left, shift_right, shift_sign};
