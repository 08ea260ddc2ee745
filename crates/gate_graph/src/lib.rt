//! Gates over literals, shared and folded, and the clauses that define them.
#![tactic(auto)]

mod circuit;
mod clauses;
mod gate;
mod gates;
mod kept;
mod laws;

pub use circuit::Circuit;
pub use gate::{Asked, Gate};
pub use gates::{GateFault, Gates};
pub use laws::{
    asked_twice, gates_grow, growth_goes_on, inputs_are_free, meanings_stay, operands_decide,
    order_is_free,
};
