//! The request of a job on a connection: the lane's end writes it, the engine's end reads it. It is `SBYJOB1` and a line feed, the budget
//! of conflicts and the job's length as 8 bytes each, highest first, and the job's bytes. Memory is taken as bytes come, never by the
//! length that is announced.
#![tactic(auto)]

mod reading;
mod writing;

pub use reading::{Request, RequestFault, read_request};
pub use writing::write_request;
