//! The cone of influence of a model's asked statements, and the slice of the model to it.
//!
//! The slice is a model over the same places, in which what no asked statement and no assumption rests on is 0.
#![tactic(auto)]

pub mod asked;
pub mod cone;
mod givers;
pub mod laws;
mod marking;
pub mod slice;
