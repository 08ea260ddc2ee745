//! Word circuits: rows of literals that have the output rows of word-level cells, one call for each combinational line of the table of
//! cells.
//!
//! A row is lowest bit first. In every assignment that satisfies the clauses of the gates, the row that a call answers is the cell's
//! function of the operands' rows. No call makes an input. After an `Err` some gates may have been made, which say nothing of what was there
//! before; `TooMany` comes only where all variables are taken.
#![tactic(auto)]

mod bitwise;
mod choices;
mod division;
mod predicates;
mod shifts;

pub use bitwise::{binary, unary};
pub use choices::{bmux, concat, mux, pmux, slice};
pub use division::divide;
pub use predicates::{compare, logic, reduce};
pub use shifts::{shift_any, shift_left, shift_right, shift_sign};
