// Where the evidence of a child comes from.

use cert_judge::{Kind, StreamKind};

/// Where the evidence of a child comes from.
#[derive(Clone, Copy, Debug, PartialEq, Eq)]
pub enum Evidence {
    /// Its output, a stream of this kind.
    Output(Kind),
    /// The values of its output, or, where it prints none and not that it doesn't know, the proof file that it leaves, of this kind.
    ProofFile(StreamKind),
}
