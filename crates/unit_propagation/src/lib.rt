//! Unit propagation with two watched literals.
#![tactic(auto)]

mod assume;
mod file;
mod lists;
mod outcome;
mod propagator;
mod scan;
mod store;
mod trail;
mod visit;
mod walk;
mod watch;

pub use crate::outcome::Outcome;
pub use crate::propagator::Propagator;
