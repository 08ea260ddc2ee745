//! The text of BTOR2 models, written and read; and the grammar of such texts.
#![tactic(auto)]

mod find;
mod form;
pub mod laws;
mod names;
mod number;
mod reading;
mod scan;
mod widths;
mod writing;

pub use reading::{BtorFault, BtorKind, read};
pub use writing::write;
