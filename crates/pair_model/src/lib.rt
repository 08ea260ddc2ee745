//! What the formula of two neighbouring cycles says of a model.
#![tactic(auto)]

mod laws;

pub use laws::{invariants_are_inductive, invariants_rule_out_breaks};
