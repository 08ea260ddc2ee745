// What is asked of a net.

/// What is asked for in a cycle.
#[derive(Clone, Copy, Debug, PartialEq, Eq)]
pub enum Asked {
    /// That an assertion is broken.
    Asserts,
    /// That this cover statement, counted from 0, is reached.
    Cover(u32),
}

/// Over which cycles it is asked for. The last cycle of what solves it is one of `count`, neither before `first` nor before `end`, and
/// the only one from `first` on in which it is met.
#[derive(Clone, Copy, Debug, PartialEq, Eq)]
pub struct Cycles {
    /// Whether the first cycle is a start, and not any state.
    pub start: bool,
    /// The first cycle in which it counts that it is met.
    pub first: u32,
    /// The first cycle that may be the last.
    pub end: u32,
    /// How many cycles there are.
    pub count: u32,
}
