//! The engine that finds inductive invariants: its search at work on the file of a pair of cycles. What it finds is judged before it is
//! written.
#![tactic(auto)]

mod breaking;
mod deciding;
mod laws;
mod run;

pub use laws::{promise_is_kept, unknown_streams_are_unknown};
pub use run::run_pdr;
