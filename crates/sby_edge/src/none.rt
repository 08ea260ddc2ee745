// A yard without children, and a clock that stands.

ghost use Rattle.std.specs.Prelude.{◌≡◌, ℕ, ◌<◌, None, Some, true, cond, IsErr};
ghost use Rattle.sby_edge.specs.Cause.{HasCause, HasPlainCause, RisesBy, counted};

use crate::{Clock, Exit, Fail, Failed, Got, Hold, JobFile, Launch, Memory, Pipe, Yard};
use sby_terms::JobName;
use std::alloc::Global;
use std::marker::Model;

/// The pipe of a child that never started. Nothing makes one; each call fails. Contracts see its count.
pub struct NoPipe {
    faults: u64,
}

impl Model for NoPipe {
    ghost use Rattle.std.specs.Prelude.{ℕ};

    ghost Value = { ℕ };

    ghost view = { λ p. p.faults };
}

impl Pipe for NoPipe {
    ghost told = { λ _. None };

    ghost faults = { λ p. p };

    fn read(&mut self, _buf: &mut [u8]) -> Result<usize, Failed>
        ensures fails { IsErr result }
        ensures cause { HasPlainCause self.old self.new result }
    {
        self.faults = self.faults.saturating_add(1);
        Err(Failed)
    }
}

/// The hold of a child that never started. Nothing makes one; each call fails. Contracts see what was called and its count.
pub struct NoHold {
    is_killed: bool,
    is_reaped: bool,
    faults: u64,
}

impl Model for NoHold {
    ghost use Rattle.sby_edge.specs.NoChild.{NoHoldOf};

    ghost Value = { NoHoldOf };

    ghost view = { λ h. record { is_killed = h.is_killed; is_reaped = h.is_reaped; faults = h.faults } };
}

impl Hold for NoHold {
    // The pipe gives nothing.
    ghost killed = { λ h. cond h.is_killed (Some 0) None };

    ghost is_reaped = { λ h. h.is_reaped };

    ghost exit = { λ _. None };

    ghost faults = { λ h. h.faults };

    fn poll(&mut self) -> Result<Option<Exit>, Failed>
        ensures fails { IsErr result }
        ensures calls { self.new ≡ record self.old { faults = counted self.old.faults } }
        ensures cause { HasPlainCause self.old.faults self.new.faults result }
    {
        self.faults = self.faults.saturating_add(1);
        Err(Failed)
    }

    fn kill(&mut self) -> Result<(), Failed>
        ensures fails { IsErr result }
        ensures calls { self.new ≡ record self.old { is_killed = true; faults = counted self.old.faults } }
        ensures cause { HasPlainCause self.old.faults self.new.faults result }
    {
        self.is_killed = true;
        self.faults = self.faults.saturating_add(1);
        Err(Failed)
    }

    fn reap(&mut self) -> Result<Exit, Failed>
        ensures fails { IsErr result }
        ensures calls { self.new ≡ record self.old { is_reaped = true; faults = counted self.old.faults } }
        ensures cause { HasPlainCause self.old.faults self.new.faults result }
    {
        self.is_reaped = true;
        self.faults = self.faults.saturating_add(1);
        Err(Failed)
    }
}

/// A bay whose every start fails. Contracts see its counts.
#[derive(Drop)]
pub struct NoBay {
    starts: u64,
    reads: u64,
    holds: u64,
}

impl Model for NoBay {
    ghost use Rattle.sby_edge.specs.Cause.{CountsOf};

    ghost Value = { CountsOf };

    ghost view = { λ b. record { starts = b.starts; reads = b.reads; holds = b.holds } };
}

impl Launch for NoBay {
    type Pipe = NoPipe;

    type Hold = NoHold;

    ghost told = { λ _. None };

    ghost start_faults = { λ b. b.starts };

    ghost read_faults = { λ b. b.reads };

    ghost hold_faults = { λ b. b.holds };

    fn start<F: JobFile>(
        &mut self,
        _alloc: Global,
        _job: JobName,
        _words: &[String],
        _file: &F,
    ) -> Result<(NoPipe, NoHold), Fail>
        ensures fails { result ≡ Err Fail.Failed }
        ensures counts { self.new ≡ record self.old { starts = counted self.old.starts } }
        ensures starts { HasCause self.old.starts self.new.starts result }
    {
        self.starts = self.starts.saturating_add(1);
        Err(Fail::Failed)
    }

    fn proof(&mut self, _alloc: Global, _job: JobName, _path: &str, _most: u64) -> Result<Got, Fail>
        ensures fails { result ≡ Err Fail.Failed }
        ensures counts { self.new ≡ record self.old { reads = counted self.old.reads } }
        ensures reads { HasCause self.old.reads self.new.reads result }
    {
        self.reads = self.reads.saturating_add(1);
        Err(Fail::Failed)
    }

    fn kill(&self, _pipe: &NoPipe, hold: &mut NoHold) -> Result<(), Failed>
        ensures fails { IsErr result }
        ensures calls { hold.new ≡ record hold.old { is_killed = true; faults = counted hold.old.faults } }
        ensures cause { HasPlainCause hold.old.faults hold.new.faults result }
    {
        hold.kill()
    }

    fn finish(&mut self, pipe: NoPipe, hold: NoHold) {
        let NoPipe { faults: reads } = pipe;
        let NoHold {
            is_killed: _,
            is_reaped: _,
            faults: holds,
        } = hold;
        self.reads = risen(self.reads, reads);
        self.holds = risen(self.holds, holds);
    }
}

// The count after a part with this many faults is spent.
pub(crate) fn risen(count: u64, part: u64) -> u64
    ensures { RisesBy part count result }
{
    if part > 0 {
        count.saturating_add(1)
    } else {
        count
    }
}

/// A yard of such bays. Contracts see its counts.
#[derive(Drop)]
pub struct NoYard {
    starts: u64,
    reads: u64,
    holds: u64,
}

impl Model for NoYard {
    ghost use Rattle.sby_edge.specs.Cause.{CountsOf};

    ghost Value = { CountsOf };

    ghost view = { λ y. record { starts = y.starts; reads = y.reads; holds = y.holds } };
}

impl NoYard {
    pub fn new() -> Self
        ensures { result ≡ record { starts = 0; reads = 0; holds = 0 } }
    {
        NoYard {
            starts: 0,
            reads: 0,
            holds: 0,
        }
    }
}

impl Yard for NoYard {
    type Bay = NoBay;

    ghost told = { λ _. None };

    ghost started = { λ _. None };

    ghost start_faults = { λ y. y.starts };

    ghost read_faults = { λ y. y.reads };

    ghost hold_faults = { λ y. y.holds };

    fn bay(&mut self, _alloc: Global, _task: u32, _lane: u32) -> Result<NoBay, Memory>
        ensures made { result ≡ Ok (record { starts = 0; reads = 0; holds = 0 }) }
        ensures same { self.new ≡ self.old }
    {
        Ok(NoBay {
            starts: 0,
            reads: 0,
            holds: 0,
        })
    }

    fn back(&mut self, bay: NoBay) {
        let NoBay {
            starts,
            reads,
            holds,
        } = bay;
        self.starts = risen(self.starts, starts);
        self.reads = risen(self.reads, reads);
        self.holds = risen(self.holds, holds);
    }
}

/// A clock whose every reading is this number of milliseconds.
#[derive(Clone, Copy, Debug)]
pub struct StillClock(pub u64);

impl Clock for StillClock {
    ghost may_read = { λ clock reading. reading ≡ clock.0 };

    fn now(&self) -> u64
        ensures { result ≡ self.now.0 }
    {
        self.0
    }

    fn pause(&self, _millis: u32) {}
}
