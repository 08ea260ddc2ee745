// The calls of a form in memory: how many were made, which of them are to fail, and how many did.

ghost use Rattle.std.specs.Prelude.{◌≡◌, ◌≤◌, ◌↔◌, ◌⊎◌, false, IsErr, IsTrue, OnErr, OnOk};
ghost use Rattle.sby_edge.specs.Calls.{NextFails, failed, served, uncalled};
ghost use Rattle.sby_edge.specs.Cause.{HasPlainCause, greatest};

use crate::Failed;
use std::marker::Model;

/// The calls of a form in memory. Contracts see which are to fail, how many were made and how many failed.
#[derive(Drop)]
pub struct Calls {
    failing: Vec<u64>,
    made: u64,
    faults: u64,
}

impl Model for Calls {
    ghost use Rattle.sby_edge.specs.Calls.{CallsOf};

    ghost Value = { CallsOf };

    ghost view = { λ c. record { failing = c.failing.items; made = c.made; faults = c.faults } };
}

impl Calls {
    /// The listed calls fail, counted from 1.
    pub fn new(failing: Vec<u64>) -> Self
        ensures { result ≡ uncalled failing.items }
    {
        Calls {
            failing,
            made: 0,
            faults: 0,
        }
    }

    pub(crate) fn next_fails(&self) -> bool
        ensures { IsTrue result ↔ NextFails self.now }
    {
        self.failing.contains(&self.made.saturating_add(1))
    }

    pub(crate) fn serve(&mut self)
        ensures { self.new ≡ served self.old }
    {
        self.made = self.made.saturating_add(1);
    }

    pub(crate) fn fail(&mut self)
        ensures calls { self.new ≡ failed self.old }
        ensures later { self.old.faults ≤ self.new.faults }
        ensures stays { self.old.faults ≡ greatest → self.new.faults ≡ self.old.faults }
    {
        self.made = self.made.saturating_add(1);
        self.faults = self.faults.saturating_add(1);
    }

    /// Counts a call. It fails where it is listed to, and where it can't be served.
    pub fn call(&mut self, can_serve: bool) -> Result<(), Failed>
        ensures fails { IsErr result ↔ (NextFails self.old ⊎ (can_serve ≡ false)) }
        ensures ok { OnOk result (self.new ≡ served self.old) }
        ensures err { OnErr result (self.new ≡ failed self.old) }
        ensures cause { HasPlainCause self.old.faults self.new.faults result }
    {
        if !can_serve || self.next_fails() {
            self.fail();
            return Err(Failed);
        }
        self.serve();
        Ok(())
    }

    /// How many calls failed; it stays at the greatest u64.
    pub fn faults(&self) -> u64
        ensures { result ≡ self.now.faults }
    {
        self.faults
    }
}
