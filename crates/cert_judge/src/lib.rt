//! Streams of every kind judged piece by piece: whether they are certificates for a formula.
#![tactic(auto)]

mod certificate;
mod certs;
mod judging;
mod laws;
mod lines;
mod output;
mod outputs;
mod spot;
mod stream;
mod values;

pub use certs::{
    certificates_are_found, certificates_are_found_before_more, found_fates_stay_before_more,
    outputs_hold_certificates,
};
pub use judging::Judge;
pub use laws::{
    any_spelt_files_have_the_same_fate, certificate_is_found, certificate_is_found_before_more,
    certificate_is_found_proof, fate_so_far_is_the_fate, fates_stay,
    found_proof_begins_certificate, found_sat_is_satisfiable, found_unsat_is_unsatisfiable,
    no_fate_within_most, one_fate, proof_files_show_unsat_alone, some_fate,
    spelt_files_have_the_same_fate,
};
pub use output::OutputJudge;
pub use outputs::{
    found_output_is_satisfiable, output_fate_so_far_is_the_fate, output_fates_stay,
    output_readings_go_on, outputs_are_read_by_lines, outputs_have_one_fate, proof_decides,
};
pub use spot::{AmidSpot, Spot};
pub use stream::{BadCert, CertKind, Kind, Outcome, StreamKind, cert_kind};
pub use values::Values;
