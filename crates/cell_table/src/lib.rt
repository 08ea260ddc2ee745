//! The table of cells: the types, and what each gives of its inputs and holds for the next cycle.
#![tactic(auto)]

pub mod kind;
