//! The jobs of a model, made from its net.
#![tactic(auto)]

mod decoding;
mod encoding;
mod laws;

pub use decoding::decode;
pub use encoding::{cycles_of, encode, encode_again, surely_fits};
pub use laws::{
    assignments_tell_runs, free_variables_stand_for_bits, jobs_are_encoded, jobs_ask_nothing,
    jobs_tell_what_can_be_solved,
};
