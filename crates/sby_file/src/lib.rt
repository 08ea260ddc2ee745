//! Task files: their lines, and what they hold.
#![tactic(auto)]

mod config;
mod declaration;
mod fault;
mod headers;
pub mod laws;
mod line;
mod names;
mod prefix;
mod reader;
mod section;
mod seen;
mod text;
mod walk;

pub use config::{Config, Name, Row, StoredFile, copied_words};
pub use fault::{SbyFault, SbyKind};
pub use line::Bytes;
pub use names::Names;
pub use prefix::{is_block_end, is_negated, mark_name, opens_block, prefix_length};
pub use reader::read;
pub use section::Section;
pub use text::words;
