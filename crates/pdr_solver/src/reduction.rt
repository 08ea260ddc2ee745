// Deletion of the learnt clauses that served least lately.

use crate::list::{at, narrow, set};
use crate::solver::{NO_CLAUSE, Solver};
use std::alloc::AllocError;

// There may be this many learnt clauses, and a third of the number of the others.
const LEAST: usize = 2_000;

impl Solver {
    // Whether a literal rests on a clause.
    fn is_reason(&self, clause: u32) -> bool {
        match self.clauses.get(clause).first() {
            Some(first) => self.is_true(*first) && self.reason(*first) == clause,
            None => false,
        }
    }

    // Deletes half of the learnt clauses where there are many. At level 0.
    pub(crate) fn reduce_if_due(&mut self) -> Result<(), AllocError> {
        let others = self.clauses.len().saturating_sub(self.learnts.len());
        if self.derived.is_wanted() || self.learnts.len() < LEAST.saturating_add(others / 3) {
            return Ok(());
        }
        let mean = self.mean_activity();
        let mut kept = 0;
        for place in 0..self.learnts.len() {
            let clause = at(&self.learnts, place, NO_CLAUSE);
            if self.clauses.activity(clause) >= mean || self.is_reason(clause) {
                set(&mut self.learnts, kept, clause);
                kept = kept.saturating_add(1);
            } else {
                self.clauses.delete(clause);
            }
        }
        self.learnts.truncate(kept);
        Ok(())
    }

    fn mean_activity(&self) -> u32 {
        let mut sum: u64 = 0;
        for place in 0..self.learnts.len() {
            let clause = at(&self.learnts, place, NO_CLAUSE);
            sum = sum.saturating_add(u64::from(self.clauses.activity(clause)));
        }
        let mean = sum / (self.learnts.len() as u64).max(1);
        narrow(mean as usize)
    }
}
