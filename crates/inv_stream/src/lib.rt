//! Streams that are certificates of an inductive invariant, read piece by piece. Of the bytes so far no more is kept than a stream of DRUP
//! text keeps, and which word of a part a line has begun.
#![tactic(auto)]

mod feeding;
mod laws;
mod mode;
mod parser;

pub use feeding::InvReceiver;
pub use laws::{faults_stay, pieces_join, pieces_say_the_same};
pub use mode::{InvFault, InvFaultKind, Line, Part, Spell};
pub use parser::InvParser;
