//! Rows of literals: circuits that have the rows of `sby_bits`, lowest bit first.
#![tactic(auto)]

mod bits;
mod places;
mod products;
mod sums;

pub use bits::{BitOp, chain, each, push};
pub use places::{extended, fill_of, moved_down, moved_up, negated};
pub use products::mul;
pub use sums::{add, at_least, save};
