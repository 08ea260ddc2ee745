//! The text of a run, written and read, and its trace file.
#![tactic(auto)]

mod laws;
mod reading;
mod vcd_lines;
mod vcd_parts;
mod vcd_text;
mod waveform;
mod writing;

pub use laws::{
    text_has_one_run, text_is_its_cycles, text_shows_the_run, vcd_is_its_pieces, vcd_shows_the_run,
    written_run_is_trace,
};
pub use reading::{TextFault, read_text};
pub use vcd_text::VcdText;
pub use waveform::Waveform;
pub use writing::{cycle_text, text};
