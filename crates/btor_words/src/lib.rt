//! Combinational cells as lines of BTOR2: each call adds the lines of one cell, whose word has in each cycle the row that the cell gives of
//! its operands' rows.
//!
//! Words are named, not copied: a row that was put together once is one word for all its readers, and an operand that has its width already
//! costs no line.
#![tactic(auto)]

mod cells;
mod choices;
mod constants;
mod lines;
mod numbers;
mod shifts;
mod sizes;

pub use cells::{binary, logic, reduce, unary};
pub use choices::{bmux, pmux};
pub use constants::{constant, filled};
pub use lines::{above, apply, join, mux};
pub use numbers::{compare, divide};
pub use shifts::{shift_any, shift_left, shift_right, shift_sign};
pub use sizes::{resize, slice};
