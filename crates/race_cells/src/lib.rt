//! Cells that are set once, shared by the threads of a race, and notes of what each thread knows of them.
#![tactic(auto)]

mod cells;
mod notes;

pub use cells::{Cells, Settling};
pub use notes::Notes;
