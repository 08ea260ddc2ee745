//! An allowance of places, shared by threads without a lock: at most this many are held at a time.
#![tactic(auto)]

mod plays;
mod pool;
mod view;

pub use pool::{Place, Pool, PoolSeat};
