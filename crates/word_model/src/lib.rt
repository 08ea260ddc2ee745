//! The model of a flat design: its cells and connects as nodes over one row of bits, and its registers, inputs and statements.
#![tactic(auto)]

pub mod build;
pub mod laws;
mod nodes;
pub mod numbers;
mod registers;
mod rows;
mod statements;
