//! The net of a model: its states and inputs are the model's state bits and inputs in their order, and its cycles the model's.
#![tactic(auto)]

mod free;
mod laws;
mod net;
mod order;

pub use laws::{frames_are_frames, runs_are_runs};
pub use net::{TooMany, net_of};
