// The clock of the system.

use libc::types::timespec;
use sby_edge::Clock;
use std::sync::atomic::{AtomicU64, Ordering};
use std::thread;
use std::time::{Clock as SystemClock, Duration};

// The system's clock that never goes back, in milliseconds; 0 where it can't be read.
pub(crate) fn millis<R: SystemClock>(rt: &R) -> u64 {
    match rt.monotonic() {
        Ok(since) => u64::try_from(since.as_millis()).unwrap_or(u64::MAX),
        Err(_) => 0,
    }
}

// The reading of that clock, for what is handed to other threads and so keeps no handle.
pub(crate) fn monotonic_millis() -> u64 {
    let mut time = timespec {
        tv_sec: 0,
        tv_nsec: 0,
    };
    if libc::clock_gettime(libc::CLOCK_MONOTONIC, &mut time) != 0 {
        return 0;
    }
    let seconds = u64::try_from(time.tv_sec).unwrap_or(0);
    let nanos = u64::try_from(time.tv_nsec).unwrap_or(0);
    seconds
        .saturating_mul(1000)
        .saturating_add(nanos / 1_000_000)
}

/// The system's clock that never goes back, in milliseconds. A reading that fails is the last one that didn't, so it shows no limit that
/// an earlier one hasn't shown, and a limit that begins with it isn't over at once.
#[derive(Drop)]
pub struct RealClock<'a, R: SystemClock + Sync> {
    rt: &'a R,
    last: AtomicU64,
}

impl<'a, R: SystemClock + Sync> RealClock<'a, R> {
    /// The clock, read once.
    pub fn new(rt: &'a R) -> Self {
        let clock = RealClock {
            rt,
            last: AtomicU64::new(0),
        };
        let _first = clock.now();
        clock
    }
}

impl<'a, R: SystemClock + Sync> Clock for RealClock<'a, R> {
    ghost may_read = { λ _ _. Unit {0} };

    fn now(&self) -> u64 {
        match self.rt.monotonic() {
            Ok(since) => {
                let now = u64::try_from(since.as_millis()).unwrap_or(u64::MAX);
                self.last.store(now, Ordering::SeqCst);
                now
            }
            Err(_) => self.last.load(Ordering::SeqCst),
        }
    }

    fn pause(&self, millis: u32) {
        thread::sleep(self.rt, Duration::from_millis(u64::from(millis)));
    }
}
