//! The answer of an engine on a connection: pieces, each with its length before it as 4 bytes, highest first, and a length of 0 at the
//! end. Every piece but the last has 65,536 bytes. `FramedSink` and `write_answer` write it, `NetPipe` reads it.
#![tactic(auto)]

mod laws;
mod pipe;
mod reader;
mod sink;
mod writer;

pub use laws::answers_are_read;
pub use pipe::NetPipe;
pub use sink::FramedSink;
pub use writer::write_answer;
