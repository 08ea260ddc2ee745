// How much an attempt may spend, and what it spent.

use std::alloc::{AllocError, AllocFailed};

// Why an attempt stops without an answer.
#[derive(Clone, Copy, Debug, PartialEq, Eq)]
pub(crate) enum Stop {
    Spent,
    OutOfMemory,
}

impl From<AllocError> for Stop {
    fn from(_: AllocError) -> Stop {
        Stop::OutOfMemory
    }
}

impl<T: Drop> From<AllocFailed<T>> for Stop {
    fn from(_: AllocFailed<T>) -> Stop {
        Stop::OutOfMemory
    }
}

#[derive(Clone, Copy, Debug, PartialEq, Eq)]
pub(crate) struct Meter {
    left: u64,
    conflicts: u64,
    queries: u64,
}

impl Meter {
    pub fn new(left: u64) -> Self {
        Meter {
            left,
            conflicts: 0,
            queries: 0,
        }
    }

    pub fn left(&self) -> u64 {
        self.left
    }

    pub fn conflicts(&self) -> u64 {
        self.conflicts
    }

    pub fn queries(&self) -> u64 {
        self.queries
    }

    // Counts a query, if something is left.
    pub fn count_query(&mut self) -> Result<(), Stop> {
        if self.left == 0 {
            return Err(Stop::Spent);
        }
        self.left -= 1;
        self.queries = self.queries.saturating_add(1);
        Ok(())
    }

    // Counts what another that began with as much spent.
    pub fn add(&mut self, other: &Meter) {
        self.left = other.left;
        self.conflicts = self.conflicts.saturating_add(other.conflicts);
        self.queries = self.queries.saturating_add(other.queries);
    }

    // Counts conflicts, at most as many as are left.
    pub fn count_conflicts(&mut self, conflicts: u64) {
        let counted = conflicts.min(self.left);
        self.left -= counted;
        self.conflicts = self.conflicts.saturating_add(counted);
    }
}
