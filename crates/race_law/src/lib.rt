//! What holds of every race, in whatever order the steps of its lanes come.
#![tactic(auto)]

mod laws;

pub use laws::{any_order, any_report_order};
