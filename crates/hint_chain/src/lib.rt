//! Ids of clauses, and the chains of hints by which clauses that have ids admit another.
#![tactic(auto)]

mod chain;
mod ids;
mod marks;

pub use crate::chain::Chain;
pub use crate::ids::Ids;
