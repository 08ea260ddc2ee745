//! The fate of a stream of an invariant.
#![tactic(auto)]

mod laws;

pub use laws::{
    certificates_are_found, certificates_are_sound, fates_stay, found_is_a_certificate, one_fate,
    some_fate,
};
