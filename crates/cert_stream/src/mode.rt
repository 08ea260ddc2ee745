// How the reading of a line stands.

use cnf_form::Lit;

/// What a list of literals is.
#[derive(Clone, Copy, Debug, PartialEq, Eq)]
pub enum ListKind {
    Clause,
    Deletion,
    Values,
}

/// What is wrong where no stream goes on.
#[derive(Clone, Copy, Debug, PartialEq, Eq)]
pub enum ParseFaultKind {
    /// The line's kind, its end, or what stands after its 0.
    BadLine,
    /// A word of a list is neither 0 nor a literal.
    BadLiteral,
    /// A line has more literals than there are variables.
    LineTooLong,
}

/// A fault: no stream begins with the bytes up to and with byte number `byte`, counted from 0, but some stream begins with those
/// before it.
#[derive(Clone, Copy, Debug, PartialEq, Eq)]
pub struct ParseFault {
    pub kind: ParseFaultKind,
    pub byte: u64,
}

/// What was read of a word of a list.
#[derive(Clone, Copy, Debug, PartialEq, Eq)]
pub enum Part {
    Gap,
    Minus,
    Zero,
    Digits(Lit),
}

/// What was read of a line.
#[derive(Clone, Copy, Debug, PartialEq, Eq)]
pub enum Mode {
    /// White space alone; amid values or not.
    Start(bool),
    /// What claims nothing.
    Skip(bool),
    /// Its first byte, d or v.
    Head(ListKind),
    /// Its first byte, s.
    StatusHead,
    /// s and white space.
    StatusGap,
    /// s and this many bytes of UNKNOWN.
    Spelled(u8),
    /// s, UNKNOWN and white space.
    Whole,
    InList(ListKind, Part),
    /// White space after its 0.
    Closed,
    Bad(ParseFault),
    /// Memory ran out.
    Lost,
}

/// What a byte says.
#[derive(Clone, Copy, Debug, PartialEq, Eq)]
pub enum Event {
    Clause,
    Delete,
    Value(Lit),
    ValuesEnd,
    Unknown,
}
