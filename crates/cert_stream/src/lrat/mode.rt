// How the reading of a line stands.

use crate::{ParseFault, Part};

/// The greatest id.
pub const MAX_ID: u64 = (1 << 63) - 1;

/// The greatest number of hints, or of deleted ids, in a line.
pub const MAX_HINTS: usize = 1 << 27;

/// A clause's id as a line names it: a number from 1 to `MAX_ID`, whether a minus stands before it, and the place of its first byte.
#[derive(Clone, Copy, Debug, PartialEq, Eq)]
pub struct Hint {
    pub id: u64,
    pub negated: bool,
    pub place: u64,
}

/// What a list of literals is.
#[derive(Clone, Copy, Debug, PartialEq, Eq)]
pub enum LitList {
    Clause,
    Values,
}

/// What a list of ids is.
#[derive(Clone, Copy, Debug, PartialEq, Eq)]
pub enum IdList {
    Hints,
    Deletion,
}

/// What was read of a word of a list of ids.
#[derive(Clone, Copy, Debug, PartialEq, Eq)]
pub enum IdPart {
    Gap,
    /// A minus, and its place.
    Minus(u64),
    Zero,
    Digits(Hint),
}

/// What was read of a line.
#[derive(Clone, Copy, Debug, PartialEq, Eq)]
pub enum Mode {
    /// White space alone; amid values or not.
    Start(bool),
    /// What claims nothing.
    Skip(bool),
    /// Its first byte, v.
    ValuesHead,
    /// Its first byte, s.
    StatusHead,
    /// s and white space.
    StatusGap,
    /// s and this many bytes of UNKNOWN.
    Spelled(u8),
    /// s, UNKNOWN and white space.
    Whole,
    /// The digits so far of its own id.
    InId(u64),
    /// Its id and white space.
    AfterId,
    /// Its id and d.
    DeletionHead,
    InLits(LitList, Part),
    InIds(IdList, IdPart),
    /// White space after its last 0.
    Closed,
    Bad(ParseFault),
}
