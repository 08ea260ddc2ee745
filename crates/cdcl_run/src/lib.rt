//! The engine: the solver at work on a file, or on jobs that come over connections; its answer is a stream.
#![tactic(auto)]

mod fitting;
mod hinted;
mod laws;
mod log;
mod output;
mod piece;
mod proof;
mod run;
mod serving;
mod values;

pub use laws::{
    connections_are_answered, files_are_not_served, promise_is_kept, unknown_streams_are_unknown,
};
pub use output::offer;
pub use run::{budget_of, fault_line, refuse, run_engine};
