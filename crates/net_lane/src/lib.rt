//! The lane's end of an engine elsewhere: a start connects to it and sends the job, the pipe reads its answer, and a kill cuts the
//! connection. Nothing is trusted: the pipe gives bytes as a child's does.
#![tactic(auto)]

mod hold;
mod launch;
mod log;
mod opening;
mod sending;
mod words;

pub use hold::NetHold;
pub use launch::NetLaunch;
pub use opening::open;
