//! The outside of the runner as traits, and forms of it in memory.
#![tactic(auto)]

mod calls;
mod child;
mod contents;
mod job_file;
mod list_clock;
mod memory;
mod none;
mod outside;
mod script;
mod script_child;
mod script_yard;
mod scripted;
mod source;
mod stage;
mod told;

pub use calls::Calls;
pub use child::{Clock, Hold, Launch, Pipe, Yard};
pub use job_file::{FileReader, JobFile};
pub use list_clock::ListClock;
pub use memory::{MemFiles, MemSink};
pub use none::{NoBay, NoHold, NoPipe, NoYard, StillClock};
pub use outside::{Fail, Failed, Files, Got, Memory, Sink};
pub use script::{Call, CallFault, Exit, Gate, Script};
pub use script_child::{ScriptHold, ScriptPipe};
pub use script_yard::{LaneStarts, ScriptBay, ScriptYard, Started};
pub use scripted::Scripted;
pub use source::{Bytes, Source, fill};
pub use stage::Stage;
pub use told::{Nothing, Told, ToldBytes};
