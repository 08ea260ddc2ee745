// The pool and its seats.

ghost use Rattle.std.specs.Prelude.{◌≡◌, ◌≢◌, ◌≤◌, [], IfOk, not};
ghost use Rattle.jobs_pool.specs.Places.{blank};
ghost use Rattle.jobs_pool.specs.Takes.{Takes};

use crate::plays::{Allowance, Fresh, Give, Look, Try};
use crate::view::View;
use atomic_table::{Seat, Table};
use std::alloc::{AllocError, Global};
use std::marker::Model;

/// What came of asking for a place.
#[derive(Clone, Copy, Debug, PartialEq, Eq)]
pub enum Place {
    /// The seat holds a place now.
    Taken,
    /// All places were held at that look.
    Full,
    /// A place was free at the look, which saw `seen` places held; then another thread was faster, and the try found `found`.
    Again { seen: u64, found: u64 },
}

/// An allowance of places: over all its seats at most this many are held, at every moment. Contracts see which pool it is, and the
/// allowance.
#[derive(Drop)]
pub struct Pool {
    table: Table<(), View, u64, Allowance, Global>,
    most: u64,
}

impl Model for Pool {
    ghost use Rattle.std.specs.Prelude.{◌≡◌};
    ghost use Rattle.jobs_pool.specs.Places.{PoolOf};

    ghost Value = { PoolOf };

    ghost view = { λ p. record { id = p.table.shared.table_id; most = p.most } };

    ghost invariant = { λ p. (p.table.shared.table_id.words ≡ 1) × (p.table.shared.key ≡ p.most) };
}

/// A seat of a pool: it holds at most one place, and may go from thread to thread. It isn't `Drop`: it ends by `join` or by `leave`, and
/// both ask that it holds no place, so that no place is ever lost. Contracts see of which pool it is, and its view.
pub struct PoolSeat {
    seat: Seat<(), View>,
    held: u64,
}

impl Model for PoolSeat {
    ghost use Rattle.std.specs.Prelude.{◌≡◌, ◌≤◌, []};
    ghost use Rattle.jobs_pool.specs.Places.{SeatOf};

    ghost Value = { SeatOf };

    ghost view = { λ s. record { id = s.seat.table_id; view = s.seat.me.0 } };

    ghost invariant = { λ s. (s.seat.me.1 ≡ []) × (s.seat.me.0.held ≡ s.held) × (s.held ≤ 1) };
}

impl Pool {
    /// A pool of this many places, none of them held, and its first seat. Fails only when out of memory.
    pub fn new(alloc: Global, most: u64) -> Result<(Pool, PoolSeat), AllocError>
        ensures most { IfOk result (λ r. r.0.most ≡ most) }
        ensures seat { IfOk result (λ r. r.1 ≡ record { id = r.0.id; view = blank }) }
    {
        let (table, seat) = Table::of_words(alloc, &[0], &most)?;
        Ok((Pool { table, most }, PoolSeat { seat, held: 0 }))
    }
}

impl PoolSeat {
    /// The places that this seat holds: 0 or 1.
    pub fn held(&self) -> u64
        ensures held { result ≡ self.now.view.held }
        ensures few { result ≤ 1 }
    {
        self.held
    }

    /// Another seat of the pool, which holds no place. Takes no memory.
    pub fn split(&mut self, pool: &Pool) -> PoolSeat
        requires { self.old.id ≡ pool.now.id }
        ensures same { self.new ≡ self.old }
        ensures fresh { result ≡ record { id = self.old.id; view = blank } }
    {
        PoolSeat {
            seat: pool.table.shared.split_seat::<Fresh>(&mut self.seat),
            held: 0,
        }
    }

    /// Takes in another seat of the pool, which holds no place. Takes no memory.
    pub fn join(&mut self, pool: &Pool, other: PoolSeat)
        requires pool { (self.old.id ≡ pool.now.id) × (other.id ≡ pool.now.id) }
        requires other { other.view.held ≡ 0 }
        ensures { self.new ≡ self.old }
    {
        let PoolSeat { seat, held: _ } = other;
        pool.table.shared.join_seat::<Fresh>(&mut self.seat, seat);
    }

    /// Asks for a place: one look at how many are held, and, where one was free at that look, one try. Never waits, takes no memory.
    pub fn take(&mut self, pool: &Pool) -> Place
        requires pool { self.old.id ≡ pool.now.id }
        requires none { self.old.view.held ≡ 0 }
        ensures same { self.new.id ≡ self.old.id }
        ensures takes { Takes pool.now.most self.old.view self.new.view result }
    {
        let shared = &pool.table.shared;
        let seen = shared.load::<Look>(&mut self.seat, 0);
        if seen == pool.most {
            return Place::Full;
        }
        let found = shared.compare_exchange::<Try>(&mut self.seat, 0, seen, seen.saturating_add(1));
        if found == seen {
            self.held = 1;
            Place::Taken
        } else {
            Place::Again { seen, found }
        }
    }

    /// Gives the place back. Can't fail, takes no memory.
    pub fn give(&mut self, pool: &Pool)
        requires pool { self.old.id ≡ pool.now.id }
        requires one { self.old.view.held ≡ 1 }
        ensures same { self.new.id ≡ self.old.id }
        ensures gives { self.new.view ≡ record self.old.view { held = 0 } }
    {
        pool.table.shared.fetch_sub::<Give>(&mut self.seat, 0, 1);
        self.held = 0;
    }

    /// The end of a seat that holds no place.
    pub fn leave(self)
        requires { self.view.held ≡ 0 }
    {
        let PoolSeat { seat: _, held: _ } = self;
    }
}
