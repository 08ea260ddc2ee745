//! Scenes: runs of the top call as lines of text, over files and output in memory and the children of scripts. For tests.
#![tactic(auto)]

mod child;
mod reading;
mod running;
mod scene;
mod texts;

pub use child::{Child, FINDS, script_of};
pub use reading::read_scene;
pub use running::{Ended, Ran, first_wrong, is_as_told, run, run_into};
pub use scene::{Placed, Scene};
pub use texts::{Named, joined, owned, push_text};
