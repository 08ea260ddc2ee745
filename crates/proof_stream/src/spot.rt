// How the reading of a proof file stands.

use cert_stream::ParseFault;

/// What a proof file is written in.
#[derive(Clone, Copy, Debug, PartialEq, Eq)]
pub enum Form {
    /// Lines of DIMACS literals, with d before a deletion.
    Text,
    /// Lines that begin with a or d, their literals in groups of seven bits.
    Binary,
}

/// What a line of a proof is.
#[derive(Clone, Copy, Debug, PartialEq, Eq)]
pub enum LineKind {
    Clause,
    Deletion,
}

/// What was read of a literal: the value of its groups so far, the weight of the next one, and the place of its first byte.
#[derive(Clone, Copy, Debug, PartialEq, Eq)]
pub struct Groups {
    pub value: u64,
    pub weight: u64,
    pub place: u64,
}

/// Where the bytes of a binary proof so far end.
#[derive(Clone, Copy, Debug, PartialEq, Eq)]
pub enum Spot {
    /// Between two lines.
    Between,
    /// In a line, between two literals.
    Gap(LineKind),
    /// In a literal.
    InNumber(LineKind, Groups),
    Bad(ParseFault),
}
