//! The pair of a net: its two neighbouring cycles as a formula, a function of the net and of the numbers of its state bits; and what the
//! formula says of a model.
#![tactic(auto)]

mod cycles;
mod laws;
mod numbers;
mod pairing;

pub use laws::{
    pairs_are_of_models, state_bits_in_the_cone_have_literals, states_and_inputs_fix_all,
    states_have_literals, what_is_made_is_counted,
};
pub use numbers::states_at;
pub use pairing::{TooMany, fits, pair_again, pair_of_net};
