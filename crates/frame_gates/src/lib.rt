//! A frame of a model as gates: one literal for each place.
//!
//! A frame knows no job: what a job asks is said over the literals of frames.
#![tactic(auto)]

mod frames;
mod nodes;
mod registers;
mod rows;
mod statements;

pub use frames::Frames;
