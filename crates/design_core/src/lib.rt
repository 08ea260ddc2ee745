//! A flat design as data: the table of cells, and a design of wires, cells and connects.
#![tactic(auto)]

pub mod cell;
pub mod connect;
pub mod design;
pub mod digit;
pub mod names;
pub mod next;
pub mod parts;
pub mod table;
pub mod wire;
