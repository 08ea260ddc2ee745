// What is wrong with a task file.

use thiserror::Error;

/// Why a task file is refused.
#[derive(Clone, Copy, Debug, PartialEq, Eq, Error)]
pub enum SbyKind {
    #[error("the line is not UTF-8")]
    NotText,
    #[error("the line stands where none can")]
    StrayLine,
    #[error("no section has this name")]
    UnknownSection,
    #[error("a second section of this name")]
    DoubleSection,
    #[error("a second task of this name")]
    DoubleTask,
    #[error("a prefix in a file without tasks")]
    PrefixWithoutTasks,
    #[error("no task or tag has this name")]
    UnknownTask,
    #[error("a second file of this name")]
    DoubleFile,
    #[error("more than a limit")]
    Limit,
}

/// The first line at fault, from 1, or 0 where the fault is no line's.
#[derive(Clone, Copy, Debug, PartialEq, Eq, Error)]
#[error("line {line}: {kind}")]
pub struct SbyFault {
    pub line: usize,
    pub kind: SbyKind,
}
