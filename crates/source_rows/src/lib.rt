//! The bits that an `$anyseq` gives, as a row of places.
#![tactic(auto)]

mod rows;

pub use rows::source_rows;
