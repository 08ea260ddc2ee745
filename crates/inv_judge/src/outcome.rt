// Outcomes.

use cert_judge::BadCert;

/// The outcome of judging a stream of an invariant.
#[derive(Clone, Copy, Debug, PartialEq, Eq)]
pub enum InvOutcome {
    /// It is a certificate: its clauses are an invariant of the pair.
    Found,
    /// The engine doesn't know.
    Unknown,
    Bad(BadCert),
}
