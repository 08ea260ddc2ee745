//! A net: the gates of one cycle of a design over its states and inputs. Its windows and runs, those of a part of it, and on which
//! variables literals rest, by register steps.
#![tactic(auto)]

mod laws;
mod levels;
mod net;
mod node;
mod search;

pub use laws::{
    every_choice_has_a_frame, levels_are_needs, levels_are_parts, levels_are_reached, parts_extend,
    two_levels_are_needs, windows_are_parts,
};
pub use levels::Levels;
pub use net::Net;
pub use node::{Node, State};
