// What is wrong with a task.

use thiserror::Error;

/// Why a task is refused.
#[derive(Clone, Copy, Debug, PartialEq, Eq, Error)]
pub enum TaskKind {
    #[error("no task has this name")]
    UnknownTask,
    #[error("more engine lines than the limit")]
    Limit,
    #[error("no option has this name")]
    UnknownOption,
    #[error("a second option of this name")]
    DoubleOption,
    #[error("the value isn't one of these that are allowed")]
    BadValue,
    #[error("no mode is given")]
    NoMode,
    #[error("no engine is given")]
    NoEngine,
    #[error("the engine hands over no certificate")]
    LeftOutEngine,
    #[error("no engine has this name")]
    UnknownEngine,
    #[error("the script is another than one line `read_rtlil NAME`")]
    Script,
    #[error("no file has this name")]
    MissingFile,
    #[error("skip or stride in another mode than bmc, no cycle left, or more slices than the limit")]
    Slices,
    #[error("the marks of both paths don't stand once each")]
    Marks,
}

/// The first line at fault, from 1, or 0 where the fault is no line's.
#[derive(Clone, Copy, Debug, PartialEq, Eq, Error)]
#[error("line {line}: {kind}")]
pub struct TaskFault {
    pub line: usize,
    pub kind: TaskKind,
}
