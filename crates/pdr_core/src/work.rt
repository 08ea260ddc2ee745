// What a search may spend.

ghost use Rattle.std.specs.Prelude.{◌≡◌, ◌+◌, ◌-◌, ◌≤◌, min, true, false};
ghost use Rattle.pdr_core.specs.Work.{GoesOn, spent};

use std::marker::Model;

/// What a search may spend, and what it has: a conflict costs one, and so does a query, or the beginning of a search.
#[derive(Drop)]
pub struct Work {
    budget: u64,
    conflicts: u64,
    queries: u64,
}

impl Model for Work {
    ghost use Rattle.std.specs.Prelude.{◌+◌, ◌≤◌};
    ghost use Rattle.pdr_core.specs.Work.{WorkOf};

    ghost Value = { WorkOf };

    ghost view = { λ w. record { budget = w.budget; conflicts = w.conflicts; queries = w.queries } };

    ghost invariant = { λ w. w.conflicts + w.queries ≤ w.budget };
}

impl Work {
    /// Nothing is spent yet.
    pub fn new(budget: u64) -> Self
        ensures { result ≡ record { budget = budget; conflicts = 0; queries = 0 } }
    {
        Work {
            budget,
            conflicts: 0,
            queries: 0,
        }
    }

    /// How much is left.
    pub fn left(&self) -> u64
        ensures { result ≡ self.now.budget - spent self.now }
    {
        self.budget - (self.conflicts + self.queries)
    }

    /// The conflicts so far.
    pub fn conflicts(&self) -> u64
        ensures { result ≡ self.now.conflicts }
    {
        self.conflicts
    }

    /// The queries so far.
    pub fn queries(&self) -> u64
        ensures { result ≡ self.now.queries }
    {
        self.queries
    }

    /// Counts a query, if something is left.
    pub fn count_query(&mut self) -> bool
        ensures goes_on { GoesOn self.old self.new }
        ensures counted { result ≡ true → spent self.new ≡ spent self.old + 1 }
        ensures within { spent self.new ≤ self.new.budget }
        ensures spent { result ≡ false → (self.new ≡ self.old) × (spent self.old ≡ self.old.budget) }
    {
        if self.left() == 0 {
            return false;
        }
        self.queries += 1;
        true
    }

    /// Counts conflicts and then queries, as far as something is left.
    pub fn spend(&mut self, conflicts: u64, queries: u64)
        ensures goes_on { GoesOn self.old self.new }
        ensures conflicts { self.new.conflicts ≡ self.old.conflicts + min conflicts (self.old.budget - spent self.old) }
        ensures queries { self.new.queries ≡ self.old.queries + min queries (self.old.budget - (self.new.conflicts + self.old.queries)) }
    {
        self.conflicts += conflicts.min(self.left());
        self.queries += queries.min(self.left());
    }
}
