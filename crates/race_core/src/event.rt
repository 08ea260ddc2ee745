// The events of a lane's job.

/// What a read of the child's pipe, or the proof file, was judged as.
#[derive(Drop)]
pub enum Judged<T> {
    /// Nothing yet. Neighbouring reads that are judged so share one entry.
    More,
    /// A certificate.
    Found(T),
    /// The engine doesn't know.
    Unknown,
    /// No certificate: the number of the fault, from 41 to 49, and the byte, clause or frame.
    Bad { no: u8, at: u64 },
    /// The read failed.
    Failed,
    /// Memory ran out for the judging, or for a copy of what was found. That follows as an entry of its own.
    Unjudged,
}

/// What a poll of the child found, where it doesn't just run on.
#[derive(Clone, Copy, Debug, PartialEq, Eq)]
pub enum Polled {
    /// It ended by itself.
    Exited,
    /// The poll failed.
    Failed,
}

/// An event of a lane's job: one entry of the reader's list (`Read`, `File`, `Settle`, `ReaderMemory`), or of the keeper's (the
/// others).
#[derive(Drop)]
pub enum LaneEvent<T> {
    /// Reads of this many bytes together, and what they were judged as. A read of 0 bytes is the stream's end.
    Read { bytes: u64, progress: Judged<T> },
    /// The proof file after the stream's end, and what it was judged as.
    File { bytes: u64, progress: Judged<T> },
    /// A set-once exchange of the reader's finding on the job's cell, and whether it was won.
    Settle { won: bool },
    /// The reader ran out of memory.
    ReaderMemory,
    /// This many turns of the keeper that found the child running, and nothing new. Neighbours share one entry.
    Turns(u64),
    /// A poll that found something else.
    Poll(Polled),
    /// A reading of the clock, in milliseconds.
    Clock(u64),
    /// A look at the cell at this place, and what the lane then knows of it.
    Look { cell: u32, known: Option<T> },
    /// The keeper's kill of the child.
    Kill,
    /// The keeper ran out of memory.
    KeeperMemory,
    /// A place under the allowance was taken.
    Took,
    /// The child was started.
    Start,
    /// The child was reaped and finished.
    Finish,
    /// The place was given back.
    Gave,
}
