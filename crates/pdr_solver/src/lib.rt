//! An incremental solver under assumptions, by conflict-driven clause learning. Nothing is promised of its answers but how
//! many conflicts they took.
#![tactic(auto)]

mod analysis;
mod clauses;
mod derived;
mod list;
mod needs;
mod order;
mod propagation;
mod reduction;
mod search;
mod solver;

pub use list::{at, narrow, set};
pub use search::Answer;
pub use solver::Solver;
