//! Formulas in conjunctive normal form: literals, clauses, unit propagation, proofs in DRUP, and DIMACS.
#![tactic(auto)]

mod dimacs;
mod formula;
mod laws;
mod literal;
mod reader;
mod scan;

pub use dimacs::{dimacs_is_unambiguous, write_dimacs};
pub use formula::{Clauses, Formula};
pub use laws::{
    admission_is_monotone, admitted_is_true, closure_is_least, deletion_keeps_closure,
    proof_is_sound, proof_keeps_models,
};
pub use literal::{Lit, MAX_VARS, places_differ};
pub use reader::{DimacsFault, DimacsFaultKind, dimacs_faults_are_decided, read_dimacs};
