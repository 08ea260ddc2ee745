// How the reading stands.

/// How the reading of a stream stands.
#[derive(Clone, Copy, Debug, PartialEq, Eq)]
pub enum Spot {
    /// No line was `sat` so far.
    Skipping,
    /// After such a line.
    Found,
    /// After the line of bads.
    Named,
    InStates,
    InInputs,
    Whole,
    /// The line that begins with this byte was refused.
    Refused(u64),
    /// Memory ran out.
    Lost,
}

/// What is seen in the bytes of a stream. A byte is told by its number in the stream, counted from 0.
#[derive(Clone, Copy, Debug, PartialEq, Eq)]
pub enum Seen {
    /// Nothing yet.
    More,
    /// A whole witness.
    Whole,
    /// The stream ended, and no line of it was `sat`.
    Unknown,
    /// The stream ended after this many bytes, with a line `sat` and no whole witness.
    EarlyEnd(u64),
    /// No witness goes on with the line that begins with this byte.
    BadWitness(u64),
}
