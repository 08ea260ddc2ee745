//! A search for inductive invariants by property-directed reachability. Nothing is promised of what it finds.
#![tactic(auto)]

mod blocking;
mod cones;
mod frames;
mod gates;
mod lifting;
mod meter;
mod obligations;
mod queries;
mod replay;
mod search;
mod stream;
mod trimming;
mod work;

pub use search::{Candidate, Invariant, find_candidate, write_stream};
pub use work::Work;
