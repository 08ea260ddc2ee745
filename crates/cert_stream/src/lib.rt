//! Streams of lines that are certificates, read piece by piece: DRUP text, and hinted proofs (LRAT without negative hints). Of the bytes so
//! far no more is kept than the literals and ids of the line that they end in.
#![tactic(auto)]

mod feeding;
mod laws;
pub mod lrat;
mod mode;
mod parser;
mod steps;
mod word;

pub use feeding::{Fed, Receiver};
pub use laws::{
    comments_take_no_memory, fault_is_first, faults_have_reasons, faults_stay, lines_come_apart,
    pieces_join, pieces_say_the_same, sayings_are_within, sayings_go_on, sayings_stay_before_more,
    streams_say_lines, whole_lines_are_said, words_are_read,
};
pub use mode::{Event, ListKind, Mode, ParseFault, ParseFaultKind, Part};
pub use parser::{DrupParser, before_feed};
pub use steps::Steps;
