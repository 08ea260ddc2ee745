// Which learnt clauses are worth keeping: those of low glue, of which few levels made the literals false (Audemard and Simon, 2009), and
// those that conflicts rested on lately. Nothing is promised of it.

use crate::restarts::Restarts;
use cnf_form::Formula;
use decision_order::is_satisfied;
use std::alloc::{AllocError, Global};
use unit_propagation::Propagator;

// This many conflicts come before the first reduction.
const FIRST_INTERVAL: u64 = 1000;

// The interval between reductions grows by this many conflicts.
const INTERVAL_STEP: u64 = 150;

// Clauses of this glue or less are kept.
const GOOD_GLUE: u32 = 3;

// In a long search only clauses of this glue or less are kept.
const BEST_GLUE: u32 = 2;

// A clause of this glue is never to go, since clauses of variables that were eliminated follow from it and others like it.
pub(crate) const KEPT: u32 = 0;

// A clause up to this glue is in the second tier: it is kept through two reductions after the last conflict that rested on it, others
// through one (Chanseok Oh, 2015).
const MIDDLE_GLUE: u32 = 6;

// From this many conflicts on a search is long: propagation would slow down with all the clauses that are kept.
const LONG: u64 = 32_000;

// Whether a search of this many conflicts is long.
pub(crate) fn is_long(conflicts: u64) -> bool {
    conflicts >= LONG
}

// Through how many reductions a clause is kept since a conflict rested on it.
fn turns(glue: u32) -> u8 {
    if glue <= MIDDLE_GLUE { 2 } else { 1 }
}

// A clause that may go. The greatest is the worst.
#[derive(Clone, Copy, PartialEq, Eq, PartialOrd, Ord)]
struct Candidate {
    glue: u32,
    length: usize,
    number: u32,
}

// What is known of the learnt clauses: the number of the first, and the glue of each from there on, and through how many reductions it is
// kept since a conflict rested on it. Those before the first one are never to go. The first learnt ones, as many as `fresh`, were listed
// to be vivified; `round` counts how often clauses were deleted or got new numbers. The sums are of literals: of the clauses before the
// first learnt one, and of the learnt clauses left at the last collection and those learnt or thawed since.
#[derive(Drop)]
pub(crate) struct Learnts {
    first: usize,
    glues: Vec<u32>,
    used: Vec<u8>,
    fresh: usize,
    round: u64,
    given: usize,
    learnt: usize,
    due: u64,
    interval: u64,
}

impl Learnts {
    pub fn new(alloc: Global, formula: &Formula) -> Self {
        let clauses = formula.clauses();
        let mut given: usize = 0;
        for place in 0..clauses.len() {
            given = given.saturating_add(clauses.get(place).len());
        }
        Learnts {
            first: clauses.len(),
            glues: Vec::new(alloc),
            used: Vec::new(alloc),
            fresh: 0,
            round: 0,
            given,
            learnt: 0,
            due: FIRST_INTERVAL,
            interval: FIRST_INTERVAL,
        }
    }

    // Adds a learnt clause of this many literals.
    pub fn push(&mut self, glue: u32, length: usize) -> Result<(), AllocError> {
        self.glues.push(glue)?;
        self.used.push(turns(glue))?;
        self.learnt = self.learnt.saturating_add(length);
        Ok(())
    }

    // Adds a thawed clause of this many literals: it is worth keeping for a while, or never to go.
    pub fn push_thawed(&mut self, length: usize, kept: bool) -> Result<(), AllocError> {
        self.push(if kept { KEPT } else { GOOD_GLUE }, length)
    }

    // The number of the first learnt clause.
    pub fn first(&self) -> usize {
        self.first
    }

    // Whether a clause is never to go.
    pub fn is_kept(&self, number: usize) -> bool {
        if number < self.first {
            return true;
        }
        match self.glues.get(number - self.first) {
            Some(glue) => *glue == KEPT,
            None => false,
        }
    }

    // A clause is never to go from now on.
    pub fn keep(&mut self, number: u32) {
        let place = (number as usize).wrapping_sub(self.first);
        if place < self.glues.len() {
            self.glues[place] = KEPT;
        }
    }

    // Conflicts rested on these clauses: the glue of one may have fallen.
    pub fn use_all(&mut self, core: &Propagator, restarts: &mut Restarts, numbers: &[u32]) {
        for number in numbers {
            let place = (*number as usize).wrapping_sub(self.first);
            if place >= self.used.len() || place >= self.glues.len() {
                continue;
            }
            let fresh = self.used[place] == 0;
            self.used[place] = turns(self.glues[place]);
            if !fresh {
                continue;
            }
            if self.glues[place] <= BEST_GLUE || *number as usize >= core.len() {
                continue;
            }
            if let Some(clause) = core.clause(*number) {
                self.glues[place] = self.glues[place].min(restarts.glue(core, clause));
            }
        }
    }

    // Whether clauses are to be deleted or frozen after this many conflicts.
    pub fn is_due(&mut self, conflicts: u64) -> bool {
        if conflicts < self.due {
            return false;
        }
        self.round = self.round.saturating_add(1);
        self.interval = self.interval.saturating_add(INTERVAL_STEP);
        self.due = conflicts.saturating_add(self.interval);
        true
    }

    // How often clauses were deleted or got new numbers.
    pub fn round(&self) -> u64 {
        self.round
    }

    // Lists the clauses of low glue that are worth being vivified, each once.
    pub fn list_fresh(
        &mut self,
        core: &Propagator,
        numbers: &mut Vec<u32>,
    ) -> Result<(), AllocError> {
        for place in self.fresh..self.glues.len() {
            let number = self.first.saturating_add(place);
            if number >= core.len() {
                break;
            }
            if self.glues[place] != KEPT && self.glues[place] <= MIDDLE_GLUE {
                numbers.push(number as u32)?;
            }
        }
        self.fresh = self.glues.len();
        Ok(())
    }

    // A clause isn't worth keeping any more. Returns the glue that it had.
    pub fn retire(&mut self, number: u32) -> u32 {
        let place = (number as usize).wrapping_sub(self.first);
        if place >= self.used.len() || place >= self.glues.len() {
            return GOOD_GLUE;
        }
        let glue = self.glues[place];
        self.glues[place] = u32::MAX;
        self.used[place] = 0;
        glue
    }

    fn candidate(&self, core: &Propagator, place: usize, good: u32) -> Option<Candidate> {
        let number = self.first.saturating_add(place);
        if number >= core.len() || place >= self.glues.len() || place >= self.used.len() {
            return None;
        }
        let glue = self.glues[place];
        if self.used[place] > 0 || glue <= good {
            return None;
        }
        let number = number as u32;
        let clause = core.clause(number)?;
        if clause.len() <= 2 || is_satisfied(core, clause) {
            return None;
        }
        Some(Candidate {
            glue,
            length: clause.len(),
            number,
        })
    }

    // The worse half of the clauses that may go, the worst first; in a long search all but one in forty.
    pub fn worst(
        &mut self,
        alloc: Global,
        core: &Propagator,
        long: bool,
    ) -> Result<Vec<u32>, AllocError> {
        let good = if long { BEST_GLUE } else { GOOD_GLUE };
        let mut candidates = Vec::new(alloc);
        for place in 0..self.used.len() {
            if let Some(candidate) = self.candidate(core, place, good) {
                candidates.push(candidate)?;
            }
            self.used[place] = self.used[place].saturating_sub(1);
        }
        candidates.sort_unstable();
        let mut worst = Vec::new(alloc);
        let count = if long {
            candidates.len() - candidates.len() / 40
        } else {
            candidates.len() / 2
        };
        for _ in 0..count {
            if let Some(candidate) = candidates.pop() {
                worst.push(candidate.number)?;
            }
        }
        Ok(worst)
    }

    // Whether more than a third of all literals are those of clauses that were deleted or frozen.
    pub fn is_sparse(&self, core: &Propagator) -> bool {
        let mut left: usize = 0;
        for number in self.first..core.len() {
            if let Some(clause) = core.clause(number as u32) {
                left = left.saturating_add(clause.len());
            }
        }
        self.learnt.saturating_sub(left) > self.given.saturating_add(left) / 2
    }

    // The clauses that are left get new numbers, in the same order. Those that are never to go come before the first learnt one as far as
    // they did or follow each other there.
    pub fn renumber(&mut self, alloc: Global, core: &Propagator) -> Result<(), AllocError> {
        let mut glues = Vec::new(alloc);
        let mut used = Vec::new(alloc);
        let mut first: usize = 0;
        let mut fresh: usize = 0;
        self.given = 0;
        self.learnt = 0;
        for number in 0..core.len() {
            let Some(clause) = core.clause(number as u32) else {
                continue;
            };
            if glues.is_empty() && self.is_kept(number) {
                first = first.saturating_add(1);
                self.given = self.given.saturating_add(clause.len());
                continue;
            }
            let place = number.wrapping_sub(self.first);
            if place >= self.glues.len() || place >= self.used.len() {
                break;
            }
            glues.push(self.glues[place])?;
            used.push(self.used[place])?;
            if place < self.fresh {
                fresh = used.len();
            }
            self.learnt = self.learnt.saturating_add(clause.len());
        }
        self.first = first;
        self.round = self.round.saturating_add(1);
        self.glues = glues;
        self.used = used;
        self.fresh = fresh;
        Ok(())
    }
}
