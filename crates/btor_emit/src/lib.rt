//! A model as BTOR2: its nodes as lines, its runs as the lines' runs.
#![tactic(auto)]

pub mod choices;
pub mod emit;
pub mod goal;
pub mod inputs;
pub mod laws;
pub mod nodes;
pub mod operands;
pub mod reads;
pub mod registers;
pub mod rows;
pub mod shape;
pub mod statements;
pub mod states;
pub mod table;
