// An allowance of places: never more are held than it has, also among threads.

ghost use Rattle.std.specs.Prelude.{◌≡◌};

use jobs_pool::{Place, Pool, PoolSeat};
use std::sync::atomic::AtomicU64;
use std::sync::atomic::Ordering::SeqCst;
use std::test::*;
use std::thread;
use std::thread::Threads;

// How many hold a place at one moment, at most, and how often one was taken.
#[derive(Drop)]
struct Held {
    now: AtomicU64,
    most: AtomicU64,
    times: AtomicU64,
}

impl Held {
    fn enter(&self) {
        let now = self.now.fetch_add(1, SeqCst).wrapping_add(1);
        self.most.fetch_max(now, SeqCst);
        self.times.fetch_add(1, SeqCst);
    }

    fn leave(&self) {
        self.now.fetch_sub(1, SeqCst);
    }
}

// Asks this many times, and gives back what it got.
fn ask(pool: &Pool, seat: &mut PoolSeat, held: &Held, times: u64)
    requires pool { seat.old.id ≡ pool.now.id }
    requires none { seat.old.view.held ≡ 0 }
    ensures pool { seat.new.id ≡ pool.now.id }
    ensures none { seat.new.view.held ≡ 0 }
{
    for _ in 0..times {
        match seat.take(pool) {
            Place::Taken => {
                held.enter();
                thread::yield_now();
                held.leave();
                seat.give(pool);
            }
            Place::Full | Place::Again { seen: _, found: _ } => thread::yield_now(),
        }
    }
}

// Gives back what the seat holds.
fn give_back(pool: &Pool, seat: &mut PoolSeat)
    requires { seat.old.id ≡ pool.now.id }
    ensures pool { seat.new.id ≡ pool.now.id }
    ensures none { seat.new.view.held ≡ 0 }
{
    if seat.held() == 1 {
        seat.give(pool);
    }
}

// Two threads that ask.
fn ask_both<R: Threads + Sync>(rt: &R, pool: &Pool, seat: &mut PoolSeat, held: &Held, times: u64)
    requires pool { seat.old.id ≡ pool.now.id }
    requires none { seat.old.view.held ≡ 0 }
    ensures pool { seat.new.id ≡ pool.now.id }
    ensures none { seat.new.view.held ≡ 0 }
{
    let mut other = seat.split(pool);
    thread::join_mut(
        rt,
        &mut ||
            requires pool { seat.now.id ≡ pool.now.id }
            requires none { seat.now.view.held ≡ 0 }
        { ask(pool, seat, held, times) },
        &mut ||
            requires pool { other.id ≡ pool.now.id }
            requires none { other.view.held ≡ 0 }
        { ask(pool, &mut other, held, times) },
    );
    seat.join(pool, other);
}

#[test]
fn never_more_are_held_than_the_allowance(rt: HostRuntime) -> Result<(), Fail> {
    let (pool, mut seat) = Pool::new(rt.alloc(), 1)?;
    let held = Held {
        now: AtomicU64::new(0),
        most: AtomicU64::new(0),
        times: AtomicU64::new(0),
    };
    ask_both(&rt, &pool, &mut seat, &held, 500);
    let last = seat.take(&pool);
    give_back(&pool, &mut seat);
    seat.leave();
    assert_eq!(rt; held.most.load(SeqCst), 1);
    assert!(rt; held.times.load(SeqCst) > 0);
    assert_eq!(rt; held.now.load(SeqCst), 0);
    assert_eq!(rt; last, Place::Taken);
    Ok(())
}

#[test]
fn a_full_pool_refuses_until_a_place_is_given_back(rt: HostRuntime) -> Result<(), Fail> {
    let (pool, mut seat) = Pool::new(rt.alloc(), 1)?;
    let mut other = seat.split(&pool);
    let first = seat.take(&pool);
    let second = other.take(&pool);
    give_back(&pool, &mut seat);
    give_back(&pool, &mut other);
    let third = other.take(&pool);
    give_back(&pool, &mut other);
    seat.join(&pool, other);
    seat.leave();
    assert_eq!(rt;
        (first, second, third),
        (Place::Taken, Place::Full, Place::Taken)
    );
    Ok(())
}
