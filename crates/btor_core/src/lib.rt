//! Models of BTOR2, the format for word-level model checking of Niemetz, Preiner, Wolf and Biere (CAV 2018): their lines, what the
//! lines mean, and a builder.
#![tactic(auto)]

pub mod draft;
pub mod laws;
pub mod line;
pub mod model;
pub mod worked;
