//! The order in which variables are decided, and the phases that they are decided by. Of neither is anything promised.
#![tactic(auto)]

mod cover;
mod goals;
mod local_search;
mod lucky;
mod order;
mod passed;
mod queue;
mod rephasing;
mod unassigned;
mod weights;

pub use crate::local_search::rephase_by_local_search;
pub use crate::lucky::Lucky;
pub use crate::order::Order;
pub use crate::unassigned::{is_satisfied, is_unassigned, unassigned_in};
