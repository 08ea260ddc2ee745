// Why a text is refused.

use thiserror::Error;

/// What is wrong with a text that is outside the grammar.
#[derive(Clone, Copy, PartialEq, Eq, Debug, Error)]
pub enum ReadFaultKind {
    #[error("limit")]
    Limit,
    #[error("syntax")]
    Syntax,
    #[error("name is not UTF-8")]
    NotUtf8Name,
    #[error("name is there already")]
    DoubleName,
    #[error("wire is not declared")]
    UnknownWire,
    #[error("index is past the signal")]
    Index,
    #[error("left out")]
    LeftOut,
    #[error("no module")]
    NoModule,
    #[error("several modules")]
    SeveralModules,
}

/// What is wrong, and at which byte of the text, counted from 0.
#[derive(Clone, Copy, PartialEq, Eq, Debug, Error)]
#[error("byte {byte}: {kind}")]
pub struct ReadFault {
    pub byte: u64,
    pub kind: ReadFaultKind,
}
