//! An encoding's formula, piece by piece: as text, and clause by clause.
#![tactic(auto)]

mod clauses;
mod pieces;
mod text;

pub use clauses::EncodedClauses;
pub use text::Text;
