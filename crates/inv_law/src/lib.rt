//! What a stream that is found to be a certificate says of a model.
#![tactic(auto)]

mod laws;

pub use laws::{found_rules_out_breaks, invariants_of_slices_rule_out_breaks};
