//! An engine that serves requests over connections, whatever answers them: `serve_conn` reads the request of one connection and writes
//! its answer.
#![tactic(auto)]

mod answers;
mod serving;

pub use answers::Answers;
pub use serving::{Served, serve_conn};
