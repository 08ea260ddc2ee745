//! The player: runs of a model, cycle by cycle, by what is chosen for them.
//!
//! One walk over the nodes is one cycle, over a table with a bit at each place.
#![tactic(auto)]

mod bits;
pub mod choices;
pub mod kept;
pub mod player;
mod registers;
mod table;
mod walk;
pub mod whole;
