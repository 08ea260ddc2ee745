//! A proof file of an ordinary solver, in text or binary, read piece by piece. Of the bytes so far no more is kept than the literals of
//! the line that they end in.
#![tactic(auto)]

mod binary;
mod file;
mod laws;
mod spot;
mod text;

pub use file::ProofParser;
pub use laws::{
    any_spelt_files_say_the_same, binary_files_say_whole_lines, faults_stay, files_say_lines,
    files_say_proof_lines, groups_are_read, pieces_join, pieces_say_the_same,
    spelt_files_say_the_same,
};
pub use spot::{Form, Groups, LineKind, Spot};
