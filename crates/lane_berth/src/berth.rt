// A bay, and its seat under an allowance.

ghost use Rattle.std.specs.Prelude.{◌≡◌, ◌≤◌, ℕ, cond, false, true, IfErr, IfOk, None, Some, IfNone, IfSome, length, map, option_map, string_bytes};
ghost use Rattle.lane_berth.specs.Berths.{BerthOf, IsIdle, MayStart};
ghost use Rattle.sby_edge.specs.Cause.{HasCause, HasPlainCause, RisesBy};
ghost use Rattle.sby_edge.specs.Child.{KillsAt, ProofFrom, finished, pipe_of, started};
ghost use Rattle.sby_edge.specs.Files.{GotFits};

use jobs_pool::{Place, Pool, PoolSeat};
use sby_edge::{Fail, Failed, Got, Hold, JobFile, Launch, Pipe};
use sby_terms::JobName;
use std::alloc::Global;
use std::marker::Model;

// A seat, and its pool.
struct Seated<'a> {
    pool: &'a Pool,
    seat: PoolSeat,
}

impl<'a> Seated<'a> {
    // Asks for a place. Whether it is held now.
    fn take(&mut self) -> bool
        requires pool { self.old.seat.id ≡ self.old.pool.now.id }
        requires none { self.old.seat.view.held ≡ 0 }
        ensures same { (self.new.pool ≡ self.old.pool) × (self.new.seat.id ≡ self.old.seat.id) }
        ensures held { self.new.seat.view.held ≡ cond result 1 0 }
    {
        matches!(self.seat.take(self.pool), Place::Taken)
    }

    // A bay in another seat of the pool.
    fn berth<L>(&mut self, bay: L) -> Berth<'a, L>
        requires pool { self.old.seat.id ≡ self.old.pool.now.id }
        ensures same { (self.new.pool ≡ self.old.pool) × (self.new.seat ≡ self.old.seat) }
        ensures berth { result ≡ record { bay = bay; pool = Some self.old.pool.now; holds = false; stands = false } }
    {
        let pool = self.pool;
        let seat = self.seat.split(pool);
        Berth::seated(bay, pool, seat)
    }

    // Gives the place back.
    fn give(&mut self)
        requires pool { self.old.seat.id ≡ self.old.pool.now.id }
        requires one { self.old.seat.view.held ≡ 1 }
        ensures same { (self.new.pool ≡ self.old.pool) × (self.new.seat.id ≡ self.old.seat.id) }
        ensures none { self.new.seat.view.held ≡ 0 }
    {
        self.seat.give(self.pool);
    }
}

/// A lane's bay and, under an allowance, its seat. It starts a child only while no other of its own stands and, under an allowance, its
/// seat holds a place; the place is given back only while none stands. Nothing drops it, so that no place is lost.
pub struct Berth<'a, L> {
    bay: L,
    seat: Option<Seated<'a>>,
    // A place is held.
    holds: bool,
    // A child was started, and isn't finished.
    stands: bool,
}

impl<'a, L> Model for Berth<'a, L> {
    ghost use Rattle.std.specs.Prelude.{◌≡◌, ◌⊎◌, Bool, true, false, cond, option_map};
    ghost use Rattle.std.specs.Option.{ForSome};
    ghost use Rattle.lane_berth.specs.Berths.{BerthOf};

    ghost Value = { BerthOf L };

    ghost view = { λ b. record { bay = b.bay; pool = option_map (λ s. s.pool.now) b.seat; holds = b.holds; stands = b.stands } };

    ghost invariant = { λ b. ForSome b.seat (λ s. (s.seat.id ≡ s.pool.now.id) × (s.seat.view.held ≡ cond b.holds 1 0) × (b.stands ≡ true → b.holds ≡ true)) };
}

impl<'a, L> Berth<'a, L> {
    /// A bay without an allowance.
    pub fn free(bay: L) -> Self
        ensures { result ≡ record { bay = bay; pool = None; holds = false; stands = false } }
    {
        Berth {
            bay,
            seat: None,
            holds: false,
            stands: false,
        }
    }

    /// A bay under an allowance, with a seat that holds no place.
    pub fn seated(bay: L, pool: &'a Pool, seat: PoolSeat) -> Self
        requires pool { seat.id ≡ pool.now.id }
        requires none { seat.view.held ≡ 0 }
        ensures { result ≡ record { bay = bay; pool = Some pool.now; holds = false; stands = false } }
    {
        Berth {
            bay,
            seat: Some(Seated { pool, seat }),
            holds: false,
            stands: false,
        }
    }

    /// Whether there is an allowance.
    pub fn is_seated(&self) -> bool
        ensures seated { result ≡ true → IfNone self.now.pool ⊥ }
        ensures free { result ≡ false → IfSome self.now.pool (λ _. ⊥) }
    {
        self.seat.is_some()
    }

    /// Asks for a place, if there is an allowance: one look and one try. Whether a child may be started.
    pub fn take(&mut self) -> bool
        requires { IsIdle self.old }
        ensures taken { result ≡ true → MayStart self.new }
        ensures none { result ≡ false → IsIdle self.new × IfNone self.old.pool ⊥ }
        ensures free { IfNone self.old.pool (self.new.holds ≡ false) }
        ensures same { self.new ≡ record self.old { holds = self.new.holds } }
    {
        let Some(seated) = &mut self.seat else {
            return true;
        };
        self.holds = seated.take();
        self.holds
    }

    /// Gives the place back, where one is held.
    pub fn give(&mut self)
        requires { MayStart self.old }
        ensures { self.new ≡ record self.old { holds = false } }
    {
        if let Some(seated) = &mut self.seat {
            seated.give();
        }
        self.holds = false;
    }

    /// The bay of a berth whose seat, where it has one, holds no place.
    pub fn into_bay(self) -> L
        requires { IsIdle self }
        ensures { result ≡ self.entry.bay }
    {
        let Berth {
            bay,
            seat,
            holds: _,
            stands: _,
        } = self;
        match seat {
            Some(Seated { pool: _, seat }) => {
                seat.leave();
                bay
            }
            None => bay,
        }
    }
}

impl<'a, L: Launch> Berth<'a, L> {
    /// Starts the job's child.
    pub fn start<F: JobFile>(
        &mut self,
        alloc: Global,
        job: JobName,
        words: &[String],
        file: &F,
    ) -> Result<(L::Pipe, L::Hold), Fail>
        requires { MayStart self.old }
        ensures same { self.new ≡ record self.old { bay = self.new.bay; stands = self.new.stands } }
        ensures stands { IfOk result (λ _. self.new.stands ≡ true) }
        ensures away { IfErr result (λ _. self.new.stands ≡ false) }
        ensures told { L.told self.new.bay ≡ option_map (started result job (map string_bytes words.now) (F.bytes file.now)) (L.told self.old.bay) }
        ensures pipe { IfOk result (λ child. L.Pipe.told child.0 ≡ option_map (λ bay. pipe_of (bay.scripts job) (length bay.starts)) (L.told self.old.bay)) }
        ensures exit { IfOk result (λ child. L.Hold.exit child.1 ≡ option_map (λ bay. (bay.scripts job).exit) (L.told self.old.bay)) }
        ensures fresh { IfOk result (λ child. (L.Hold.killed child.1 ≡ None) × (L.Hold.is_reaped child.1 ≡ false)
            × (L.Pipe.faults child.0 ≡ 0) × (L.Hold.faults child.1 ≡ 0)) }
        ensures starts { HasCause (L.start_faults self.old.bay) (L.start_faults self.new.bay) result }
        ensures reads { L.read_faults self.new.bay ≡ L.read_faults self.old.bay }
        ensures holds { L.hold_faults self.new.bay ≡ L.hold_faults self.old.bay }
    {
        let child = self.bay.start(alloc, job, words, file)?;
        self.stands = true;
        Ok(child)
    }

    /// Asks a child to end whose pipe is read no more.
    pub fn kill(&self, pipe: &L::Pipe, hold: &mut L::Hold) -> Result<(), Failed>
        ensures killed { KillsAt (L.Pipe.told pipe.now) (L.Hold.killed hold.old) (L.Hold.killed hold.new) }
        ensures reaped { L.Hold.is_reaped hold.new ≡ L.Hold.is_reaped hold.old }
        ensures exit { L.Hold.exit hold.new ≡ L.Hold.exit hold.old }
        ensures cause { HasPlainCause (L.Hold.faults hold.old) (L.Hold.faults hold.new) result }
    {
        self.bay.kill(pipe, hold)
    }

    /// The end of a child that was reaped.
    pub fn finish(&mut self, pipe: L::Pipe, hold: L::Hold)
        requires reaped { L.Hold.is_reaped hold ≡ true }
        requires stands { self.old.stands ≡ true }
        ensures same { self.new ≡ record self.old { bay = self.new.bay; stands = false } }
        ensures place { MayStart self.new }
        ensures told { L.told self.new.bay ≡ option_map (finished (L.Pipe.told pipe) (L.Hold.killed hold)) (L.told self.old.bay) }
        ensures starts { L.start_faults self.new.bay ≡ L.start_faults self.old.bay }
        ensures reads { RisesBy (L.Pipe.faults pipe) (L.read_faults self.old.bay) (L.read_faults self.new.bay) }
        ensures holds { RisesBy (L.Hold.faults hold) (L.hold_faults self.old.bay) (L.hold_faults self.new.bay) }
    {
        self.bay.finish(pipe, hold);
        self.stands = false;
    }

    /// The proof file that the job's child left at this path: all of it, or its first `most + 1` bytes exactly where it is longer than
    /// `most`.
    pub fn proof(&mut self, alloc: Global, job: JobName, path: &str, most: u64) -> Result<Got, Fail>
        ensures same { self.new ≡ record self.old { bay = self.new.bay } }
        ensures content { IfOk result (λ got. ProofFrom (L.told self.old.bay) job most got) }
        ensures fits { IfOk result (λ got. GotFits most got) }
        ensures told { L.told self.new.bay ≡ L.told self.old.bay }
        ensures starts { L.start_faults self.new.bay ≡ L.start_faults self.old.bay }
        ensures reads { HasCause (L.read_faults self.old.bay) (L.read_faults self.new.bay) result }
        ensures holds { L.hold_faults self.new.bay ≡ L.hold_faults self.old.bay }
    {
        self.bay.proof(alloc, job, path, most)
    }
}

/// An allowance: a pool, and a seat of it that holds no place, from which those of lanes are split; or none. Contracts see the pool.
pub struct Allowance<'a> {
    seated: Option<Seated<'a>>,
}

impl<'a> Model for Allowance<'a> {
    ghost use Rattle.std.specs.Prelude.{◌≡◌, Option, option_map};
    ghost use Rattle.std.specs.Option.{ForSome};
    ghost use Rattle.jobs_pool.specs.Places.{PoolOf};

    ghost Value = { Option PoolOf };

    ghost view = { λ a. option_map (λ s. s.pool.now) a.seated };

    ghost invariant = { λ a. ForSome a.seated (λ s. (s.seat.id ≡ s.pool.now.id) × (s.seat.view.held ≡ 0)) };
}

impl<'a> Allowance<'a> {
    /// No allowance: a place is always had.
    pub fn none() -> Self
        ensures { result ≡ None }
    {
        Allowance { seated: None }
    }

    /// The allowance of a pool.
    pub fn of(pool: &'a Pool, seat: PoolSeat) -> Self
        requires pool { seat.id ≡ pool.now.id }
        requires none { seat.view.held ≡ 0 }
        ensures { result ≡ Some pool.now }
    {
        Allowance {
            seated: Some(Seated { pool, seat }),
        }
    }

    /// The pool, where there is an allowance.
    pub fn pool(&self) -> Option<&'a Pool>
        ensures { option_map (λ p. p.now) result ≡ self.now }
    {
        match &self.seated {
            None => None,
            Some(seated) => Some(seated.pool),
        }
    }

    /// A bay under the allowance, in a seat of its own.
    pub fn berth<L>(&mut self, bay: L) -> Berth<'a, L>
        ensures same { self.new ≡ self.old }
        ensures berth { result ≡ record { bay = bay; pool = self.old; holds = false; stands = false } }
    {
        match &mut self.seated {
            None => Berth::free(bay),
            Some(seated) => seated.berth(bay),
        }
    }

    /// Its end.
    pub fn end(self) {
        let Allowance { seated } = self;
        if let Some(Seated { pool: _, seat }) = seated {
            seat.leave();
        }
    }
}
