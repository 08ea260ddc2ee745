//! Connections between a lane and an engine elsewhere, as traits with forms in memory; and what a job's request and an engine's answer
//! are on them. `Link` is one end of a connection, `Dial` makes connections, `Cut` ends one whose reader waits, `Door` takes them in.
#![tactic(auto)]

mod dial;
mod link;
mod mem_dial;
mod mem_door;
mod mem_link;
mod writing;

pub use dial::{Cut, Dial, Door};
pub use link::Link;
pub use mem_dial::{MemCut, MemDial};
pub use mem_door::MemDoor;
pub use mem_link::{LinkScript, MemLink};
pub use writing::offer;
