//! Tasks of task files: the lines that hold for a task, and what they say.
#![tactic(auto)]

mod cycles;
mod draft;
mod engines;
mod expansion;
mod files;
pub mod laws;
mod marks;
mod proved;
mod scope;
mod task;
mod task_fault;
mod values;

pub use engines::Engines;
pub use expansion::{Task, expand};
pub use task_fault::{TaskFault, TaskKind};
