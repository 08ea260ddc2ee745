//! The reader of RTLIL text.
#![tactic(auto)]

mod cell_draft;
mod cell_text;
mod constant_text;
mod copies;
mod digit_rows;
mod draft;
mod fault;
mod kinds;
mod labels;
mod laws;
mod module_text;
mod names;
mod parameter_digits;
mod reader;
mod reading;
mod signal_text;
mod spot;
mod start;
mod step;
mod stop;
mod word;

pub use fault::{ReadFault, ReadFaultKind};
pub use laws::{each_reading_goes_on, refused_where_no_text_goes_on, texts_are_read};
pub use reading::{one_design, one_refusal, read, read_or_refused};
