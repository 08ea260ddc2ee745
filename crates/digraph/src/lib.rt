//! Directed graphs: which nodes are on a cycle, and an order of the others after all that they lead to.
//!
//! A graph is the row of each node's successors; nodes are numbered from 0.
#![tactic(auto)]

pub mod edges;
pub mod search;

pub use edges::{add_edge, without_edges};
pub use search::{Sorted, sort};
