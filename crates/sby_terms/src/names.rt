// Names that every layer shares.

/// What a task asks of its design.
#[derive(Clone, Copy, Debug, PartialEq, Eq)]
pub enum Mode {
    /// No assertion breaks within the depth.
    Bmc,
    /// No assertion ever breaks, by k-induction.
    Prove,
    /// No assertion ever breaks, by an inductive invariant.
    ProveInv,
    /// Each cover statement is reached within the depth.
    Cover,
}

/// A job of a task. Bmc has `Base(0)`, `Base(1)`, .., one for each slice of its cycles; prove has `Base(0)` and `Step`, or
/// `Base(0)` and `Inv` where it is by an invariant; cover has `Cover(0)`, `Cover(1)`, .. in the order of the `$cover` cells in the file.
#[derive(Clone, Copy, Debug, PartialEq, Eq)]
pub enum JobName {
    Base(u32),
    Step,
    Inv,
    Cover(u32),
}

/// Whether a job's formula can be satisfied.
#[derive(Clone, Copy, Debug, PartialEq, Eq)]
pub enum Answer {
    Sat,
    Unsat,
}

/// What the answers of a task's jobs decide.
#[derive(Clone, Copy, Debug, PartialEq, Eq)]
pub enum Verdict {
    Pass,
    Fail,
}

/// How a task ended.
#[derive(Clone, Copy, Debug, PartialEq, Eq)]
pub enum Status {
    Pass,
    Fail,
    Unknown,
    Error,
    Timeout,
    Memory,
}

/// What the end of an unsettled job says to the status.
#[derive(Clone, Copy, Debug, PartialEq, Eq)]
pub enum Event {
    /// Nothing: the engine didn't know, or the job wasn't served or was called off.
    Quiet,
    /// A failed start, read or hold, or a stream that is no certificate.
    Fault,
    /// The lane's own reading of the clock showed the limit.
    Stopped,
    /// Out of memory.
    Memory,
}
