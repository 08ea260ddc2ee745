// What a scene is made of.

use sby_edge::Scripted;
use std::alloc::Global;

/// A path, and what stands there.
#[derive(Drop)]
pub struct Placed {
    pub path: String,
    pub bytes: Vec<u8>,
}

/// What stands outside of a run and its words, what it must print and leave, and its exit status.
#[derive(Drop)]
pub struct Scene {
    /// The files before the run, which are put in this order.
    pub files: Vec<Placed>,
    pub words: Vec<String>,
    /// The calls of the file store that fail, from 1; the first ones put the files.
    pub failing: Vec<u64>,
    /// The calls of the sink that fail, from 1.
    pub cut: Vec<u64>,
    /// The children; all others say that they don't know.
    pub scripts: Vec<Scripted>,
    /// The readings of the clock: 0 alone, or 0, then 400, then this from then on.
    pub last: Option<u64>,
    pub rc: u8,
    pub printed: Vec<u8>,
    /// Files after the run.
    pub left: Vec<Placed>,
    /// Paths where no file stands after the run.
    pub missing: Vec<String>,
    /// The words of children that are started, between single spaces.
    pub starts: Vec<String>,
}

impl Scene {
    /// Nothing stands outside, no words are given, and nothing must be printed.
    pub fn new(alloc: Global) -> Scene {
        Scene {
            files: Vec::new(alloc),
            words: Vec::new(alloc),
            failing: Vec::new(alloc),
            cut: Vec::new(alloc),
            scripts: Vec::new(alloc),
            last: None,
            rc: 0,
            printed: Vec::new(alloc),
            left: Vec::new(alloc),
            missing: Vec::new(alloc),
            starts: Vec::new(alloc),
        }
    }
}
