//! A solver by conflict-driven clause learning, which logs a proof.
#![tactic(auto)]

mod analysis;
mod choose;
mod conflict;
mod eliminate;
mod eliminator;
mod extend;
mod facts;
mod laws;
mod learn;
mod learnts;
mod load;
mod log;
mod minimizer;
mod occurrences;
mod reduce;
mod refute;
mod restarts;
mod search;
mod solver;
mod stop;
mod thaw;
mod vivifier;
mod vivify;

pub use crate::laws::logged_lines_are_a_proof;
pub use crate::log::Log;
pub use crate::solver::{Solved, solve};
