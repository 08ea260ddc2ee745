//! A second description, by productions and by the printed form of a design, pins what the reader's grammar makes of a text.
#![tactic(auto)]

mod laws;

pub use laws::{
    cell_texts_are_read, constant_texts_are_read, file_texts_are_read, printed_designs_are_read,
    read_constants_have_texts, read_designs_are_printable, signal_texts_are_read,
    wire_texts_are_read,
};
