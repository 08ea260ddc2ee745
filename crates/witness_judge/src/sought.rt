// What is sought in runs of a model.

use btor_emit::goal::Goal;

/// A goal, to be reached in a cycle from `first` on and before `last`, counted from 0.
#[derive(Clone, Copy, Debug, PartialEq, Eq)]
pub struct Sought {
    pub goal: Goal,
    pub first: u32,
    pub last: u32,
}
