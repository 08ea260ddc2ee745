//! The formula of two neighbouring cycles, with the literals that speak of them, and its file.
#![tactic(auto)]

mod laws;
mod pair;
mod pieces;
mod text;

pub use laws::{texts_are_dimacs, texts_have_one_pair};
pub use pair::{BitLits, Frame, Pair};
pub use text::Text;
