// When the search begins again at level 0. It goes in stretches, in turns in focused mode, where it restarts whenever the glue of the
// clauses learnt lately is worse than that of those before (Audemard and Simon, 2012), which refutes sooner, and in stable mode, where it
// restarts by a sequence (Luby, Sinclair and Zuckerman, 1993), which finds values sooner (Oh, 2015). Nothing is promised of it.

use cnf_form::Lit;
use std::alloc::{AllocError, Global};
use unit_propagation::Propagator;

// In focused mode, at least this many conflicts come between one restart and the next.
const LEAST: u64 = 50;

// In focused mode, at least this many do where the formula is that of a job over several cycles.
const LEAST_OF_JOB: u64 = 10;

// In stable mode, the conflicts between one restart and the next are a multiple of this.
const STABLE_UNIT: u64 = 1024;

// The first stretches have this many conflicts, and each later pair half as many more.
const FIRST_STRETCH: u64 = 1000;

// The fast and the slow average are over this many of the clauses learnt last.
const FAST_WINDOW: u64 = 32;

const SLOW_WINDOW: u64 = 8192;

// The numbers 1, 1, 2, 1, 1, 2, 4, 1, ..: each power of two comes half as often as the one before it.
#[derive(Drop)]
struct Waits {
    place: u64,
    wait: u64,
}

impl Waits {
    fn advance(&mut self) {
        let double = self.wait.saturating_mul(2);
        if double > 0 && self.place % double != self.wait {
            self.wait = double;
        } else {
            self.place = self.place.saturating_add(1);
            self.wait = 1;
        }
    }
}

// The averages are over the glue of the learnt clauses: how many levels the literals of one became false on. They have 32 binary
// places.
#[derive(Drop)]
pub(crate) struct Restarts {
    stamps: Vec<u64>,
    clock: u64,
    counted: u64,
    since: u64,
    least: u64,
    fast: u64,
    slow: u64,
    stable: bool,
    change: u64,
    stretch: u64,
    waits: Waits,
}

// The level on which a literal became true.
fn level_of(core: &Propagator, l: Lit) -> usize {
    if l.var() > core.vars() {
        return 0;
    }
    if !core.is_true(l) {
        return 0;
    }
    let place = core.place(l);
    let mut low: usize = 0;
    let mut high = core.levels();
    for _ in 0..64 {
        let middle = low / 2 + high / 2;
        if low >= high || middle >= core.levels() {
            break;
        }
        if core.limit(middle) <= place {
            low = middle.saturating_add(1);
        } else {
            high = middle;
        }
    }
    low
}

// Returns the exponential moving average after one more value.
fn moved(average: u64, value: u64, count: u64) -> u64 {
    if count == 0 {
        return value;
    }
    average
        .saturating_sub(average / count)
        .saturating_add(value / count)
}

impl Restarts {
    pub fn new(alloc: Global, vars: u32, has_goal: bool) -> Result<Self, AllocError> {
        let stamps = vec![in alloc; 0; vars as usize + 1]?;
        Ok(Restarts {
            stamps,
            clock: 0,
            counted: 0,
            since: 0,
            least: if has_goal { LEAST_OF_JOB } else { LEAST },
            fast: 0,
            slow: 0,
            stable: false,
            change: FIRST_STRETCH,
            stretch: FIRST_STRETCH,
            waits: Waits { place: 1, wait: 1 },
        })
    }

    // Forgets the conflicts that were counted.
    pub fn begin(&mut self) {
        self.counted = 0;
        self.since = 0;
        self.fast = 0;
        self.slow = 0;
    }

    // The glue of a clause: on how many levels its literals became false.
    pub fn glue(&mut self, core: &Propagator, clause: &[Lit]) -> u32 {
        self.clock = self.clock.saturating_add(1);
        let mut glue: u32 = 0;
        for l in clause {
            let level = level_of(core, l.negate());
            if level < self.stamps.len() && self.stamps[level] != self.clock {
                self.stamps[level] = self.clock;
                glue = glue.saturating_add(1);
            }
        }
        glue
    }

    // Whether a literal became true on one of the levels of the clause whose glue was counted last.
    pub fn has_level(&self, core: &Propagator, l: Lit) -> bool {
        let level = level_of(core, l);
        level < self.stamps.len() && self.stamps[level] == self.clock
    }

    // Counts a conflict, and the clause that is learnt from it. Returns its glue.
    pub fn count(&mut self, core: &Propagator, clause: &[Lit]) -> u32 {
        let glue = self.glue(core, clause);
        let scaled = glue as u64 * (1 << 32);
        self.since = self.since.saturating_add(1);
        self.counted = self.counted.saturating_add(1);
        // While there are fewer, an average is over all: else it would begin far too low.
        self.fast = moved(self.fast, scaled, self.counted.min(FAST_WINDOW));
        self.slow = moved(self.slow, scaled, self.counted.min(SLOW_WINDOW));
        glue
    }

    // Begins the next stretch where it is time to.
    fn change_mode(&mut self) {
        if self.counted < self.change {
            return;
        }
        self.stable = !self.stable;
        if !self.stable {
            self.stretch = self.stretch.saturating_add(self.stretch / 2);
        }
        self.change = self.counted.saturating_add(self.stretch);
        self.since = 0;
    }

    pub fn is_stable(&self) -> bool {
        self.stable
    }

    // Whether the search is to restart.
    pub fn is_due(&mut self) -> bool {
        self.change_mode();
        let due = if self.stable {
            self.since >= self.waits.wait.saturating_mul(STABLE_UNIT)
        } else {
            self.since >= self.least && self.fast / 10 * 9 > self.slow
        };
        if due {
            self.since = 0;
            if self.stable {
                self.waits.advance();
            }
        }
        due
    }
}
