// When local search goes on. It begins before the search by conflicts. Where it comes near to values that satisfy all clauses, it goes
// on at restarts, each time for a share of what the other search did since then: where one of the two is unlucky the other answers.
// Nothing is promised of it.

use crate::local_search::Paused;

// Local search came near where it left at most one false clause in this many.
const NEAR: usize = 250;

// This many literals become unassigned before local search first goes on, and half as many more before each later time.
const FIRST_WAIT: u64 = 1 << 19;

// For each of those literals it looks at this many clauses.
const LOOKS: u64 = 30;

// How often local search began or went on, and how many clauses it left false at best. How many literals became unassigned since
// then, and how many are to before it goes on.
#[derive(Drop)]
pub(crate) struct Rephasing {
    paused: Option<Paused>,
    count: u64,
    least: usize,
    unassigned: u64,
    wait: u64,
    is_over: bool,
}

impl Rephasing {
    pub fn new() -> Self {
        Rephasing {
            paused: None,
            count: 0,
            least: 0,
            unassigned: 0,
            wait: 0,
            is_over: false,
        }
    }

    // How often local search began or went on.
    pub fn count(&self) -> u64 {
        self.count
    }

    // Counts a literal that became unassigned.
    pub fn count_unassigned(&mut self) {
        self.unassigned = self.unassigned.saturating_add(1);
    }

    // Whether it is time for local search.
    pub fn is_due(&self) -> bool {
        !self.is_over && self.unassigned >= self.wait
    }

    // How many clauses local search looks at where it goes on.
    pub fn looks(&self) -> u64 {
        self.unassigned.saturating_mul(LOOKS)
    }

    // Ends local search for good.
    pub fn end(&mut self) {
        self.is_over = true;
    }

    // Takes the paused search, if there is one.
    pub fn resume(&mut self) -> Option<Paused> {
        self.paused.take()
    }

    // Keeps a search that left `least` of the clauses false. It is over where it didn't come near, or where the first resumed search,
    // which is longer than the first one, found nothing better.
    pub fn pause(&mut self, paused: Paused, least: usize, clauses: usize) {
        self.count = self.count.saturating_add(1);
        self.wait = if self.count == 1 {
            FIRST_WAIT
        } else {
            self.wait.saturating_add(self.wait / 2)
        };
        self.unassigned = 0;
        let is_far = least > clauses / NEAR;
        if least == 0 || is_far || (self.count == 2 && least >= self.least) {
            self.end();
        } else {
            self.paused = Some(paused);
        }
        self.least = least;
    }
}
