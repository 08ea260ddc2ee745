//! The jobs of a task over its model: what it means that one can be solved, and what is promised of its clauses.
#![tactic(auto)]

mod laws;

pub use laws::what_asks_nothing_cant_be_solved;
