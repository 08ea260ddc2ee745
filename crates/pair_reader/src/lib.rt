//! The file of a pair is read, exactly as it is written.
#![tactic(auto)]

mod lines;
mod reader;
mod scan;

pub use reader::{PairFault, read_pair};
