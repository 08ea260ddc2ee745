// A clock that reads from a list.

ghost use Rattle.std.specs.Prelude.{◌≡◌, ◌<◌, Contains, length};

use crate::Clock;
use std::sync::atomic::AtomicUsize;
use std::sync::atomic::Ordering::SeqCst;
use std::thread;

/// A clock that gives its readings, in milliseconds, one after the other to whoever asks, and then the last one for ever.
#[derive(Drop)]
pub struct ListClock {
    readings: Vec<u64>,
    asked: AtomicUsize,
    ghost some: { 0 < length readings.items },
}

impl ListClock {
    pub fn new(readings: Vec<u64>) -> Self
        requires { 0 < length readings.items }
        ensures { result.readings ≡ readings }
    {
        ListClock {
            readings,
            asked: AtomicUsize::new(0),
        }
    }
}

impl Clock for ListClock {
    ghost may_read = { λ clock reading. Contains clock.readings.items reading };

    fn now(&self) -> u64 {
        let last = self.readings.len() - 1;
        let place = self.asked.fetch_add(1, SeqCst).min(last);
        self.readings[place]
    }

    fn pause(&self, _millis: u32) {
        thread::yield_now();
    }
}
