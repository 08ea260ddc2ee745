//! The net of a task: of the slice of its model to what its jobs ask; and its jobs, each a function of it.
#![tactic(auto)]

mod kept;
mod laws;
mod net;
mod spreading;

pub use laws::jobs_of_tasks_are_encoded;
pub use net::{TaskNet, TooMany};
