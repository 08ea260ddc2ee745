// The analysis of a conflict: the clause of its first unique implication point (Marques-Silva and Sakallah, 1996), without literals that
// the others imply (Sörensson and Biere, 2009).

use crate::derived::Premise;
use crate::list::{at, set};
use crate::solver::{NO_CLAUSE, Solver};
use cnf_form::Lit;
use std::alloc::AllocError;

// Where a clause's activity is lessened with all others.
const MAX_ACTIVITY: u32 = 1 << 30;

impl Solver {
    fn is_seen(&self, l: Lit) -> bool {
        at(&self.seen, l.var() as usize, false)
    }

    fn mark(&mut self, l: Lit) -> Result<(), AllocError> {
        set(&mut self.seen, l.var() as usize, true);
        self.marked.push(l.var())?;
        Ok(())
    }

    fn unmark_all(&mut self) {
        for place in 0..self.marked.len() {
            let var = at(&self.marked, place, 0);
            set(&mut self.seen, var as usize, false);
        }
        self.marked.clear();
    }

    // Marks a false literal of a clause that the conflict rests on. Returns whether it is one more of the last level.
    fn take(&mut self, l: Lit) -> Result<bool, AllocError> {
        if self.is_seen(l) {
            return Ok(false);
        }
        let level = self.level(l);
        if level == 0 {
            self.derived.note(Premise::Fixed(l.var()))?;
            return Ok(false);
        }
        self.mark(l)?;
        self.order.bump(l.var());
        if level >= self.depth() {
            return Ok(true);
        }
        self.clause.push(l)?;
        Ok(false)
    }

    // Marks the literals of a clause, but one. Returns how many more of the last level there are.
    fn take_all(&mut self, clause: u32, but: Option<Lit>) -> Result<usize, AllocError> {
        self.derived.note(Premise::Clause(clause))?;
        self.activate(clause);
        let mut count: usize = 0;
        for place in 0..self.clauses.get(clause).len() {
            let Some(l) = self.clauses.get(clause).get(place) else {
                break;
            };
            let l = *l;
            if Some(l) != but && self.take(l)? {
                count = count.saturating_add(1);
            }
        }
        Ok(count)
    }

    // A conflict rested on a clause.
    fn activate(&mut self, clause: u32) {
        if !self.clauses.is_learnt(clause) {
            return;
        }
        let activity = self.clauses.activity(clause).saturating_add(self.step);
        self.clauses.set_activity(clause, activity);
        if activity > MAX_ACTIVITY {
            for place in 0..self.learnts.len() {
                let number = at(&self.learnts, place, NO_CLAUSE);
                let lessened = self.clauses.activity(number) >> 20;
                self.clauses.set_activity(number, lessened);
            }
            self.step = (self.step >> 20).max(1);
        }
    }

    // Resolves a conflict until one literal of the last level is left. Returns that one.
    fn walk(&mut self, conflict: u32) -> Result<Option<Lit>, AllocError> {
        let mut open = self.take_all(conflict, None)?;
        let mut place = self.trail.len();
        for _ in 0..self.trail.len() {
            place = place.saturating_sub(1);
            let Some(l) = self.trail.get(place) else {
                return Ok(None);
            };
            let l = *l;
            if !self.is_seen(l) {
                continue;
            }
            if open <= 1 {
                return Ok(Some(l));
            }
            let reason = self.reason(l);
            let more = self.take_all(reason, Some(l))?;
            open = open.saturating_sub(1).saturating_add(more);
        }
        Ok(None)
    }

    // Learns from a conflict above level 0, and backtracks to the level where the clause makes a literal true.
    pub(crate) fn learn(&mut self, conflict: u32) -> Result<(), AllocError> {
        self.clause.clear();
        let first = self.walk(conflict)?;
        let Some(first) = first else {
            self.unmark_all();
            return self.cancel(0);
        };
        self.minimize()?;
        self.unmark_all();
        self.keep(first.negate())?;
        self.order.decay();
        self.step = self.step.saturating_add(self.step / 512 + 1);
        Ok(())
    }

    // Adds the clause of this literal and the others, and makes the former true.
    fn keep(&mut self, first: Lit) -> Result<(), AllocError> {
        let mut clause = Vec::new(self.alloc);
        clause.push(first)?;
        clause.extend_from_slice(&self.clause)?;
        let level = self.put_highest_second(&mut clause);
        self.cancel(level)?;
        let number = self.attach(&clause, true)?;
        self.clauses.set_activity(number, self.step);
        if clause.len() > 2 {
            self.learnts.push(number)?;
        }
        self.derived.learn(number)?;
        self.assign(first, number)
    }

    // Moves the literal of the highest level among the others to the second place. Returns that level.
    fn put_highest_second(&self, clause: &mut Vec<Lit>) -> u32 {
        let mut best = 1;
        let mut level = 0;
        for place in 1..clause.len() {
            let own = self.level(clause[place]);
            if own > level {
                level = own;
                best = place;
            }
        }
        if best < clause.len() && clause.len() > 1 {
            clause.swap(1, best);
        }
        level
    }

    // Removes literals that the others imply.
    fn minimize(&mut self) -> Result<(), AllocError> {
        let mut kept = 0;
        for place in 0..self.clause.len() {
            let Some(l) = self.clause.get(place) else {
                break;
            };
            let l = *l;
            if !self.is_implied(l)? {
                set(&mut self.clause, kept, l);
                kept = kept.saturating_add(1);
            }
        }
        self.clause.truncate(kept);
        Ok(())
    }

    // Whether a false literal follows from marked ones, so far as reasons lead to nothing else.
    fn is_implied(&mut self, l: Lit) -> Result<bool, AllocError> {
        if self.reason(l) == NO_CLAUSE {
            return Ok(false);
        }
        let top = self.marked.len();
        self.stack.clear();
        self.stack.push(l)?;
        for _ in 0..u64::MAX {
            let Some(l) = self.stack.pop() else {
                break;
            };
            if !self.push_premises(l)? {
                self.unmark_from(top);
                return Ok(false);
            }
        }
        self.note_reason(l)?;
        Ok(true)
    }

    // The clause that a literal came from is a premise of the clause in the making, as far as premises are wanted: all its other
    // literals are marked then, or of level 0.
    fn note_reason(&mut self, l: Lit) -> Result<(), AllocError> {
        if !self.derived.is_wanted() {
            return Ok(());
        }
        let reason = self.reason(l);
        self.derived.note(Premise::Clause(reason))?;
        for place in 0..self.clauses.get(reason).len() {
            let Some(m) = self.clauses.get(reason).get(place) else {
                break;
            };
            let m = *m;
            if self.level(m) == 0 {
                self.derived.note(Premise::Fixed(m.var()))?;
            }
        }
        Ok(())
    }

    // Takes back the marks after some.
    fn unmark_from(&mut self, top: usize) {
        for place in top..self.marked.len() {
            let var = at(&self.marked, place, 0);
            set(&mut self.seen, var as usize, false);
        }
        self.marked.truncate(top);
    }

    // Pushes the other literals of the clause that a literal came from on the stack, if all have such a clause or are marked.
    fn push_premises(&mut self, l: Lit) -> Result<bool, AllocError> {
        let reason = self.reason(l);
        for place in 0..self.clauses.get(reason).len() {
            let Some(m) = self.clauses.get(reason).get(place) else {
                break;
            };
            let m = *m;
            if m.var() == l.var() || self.is_seen(m) || self.level(m) == 0 {
                continue;
            }
            if self.reason(m) == NO_CLAUSE || self.derived.is_wanted() {
                return Ok(false);
            }
            self.mark(m)?;
            self.stack.push(m)?;
        }
        Ok(true)
    }

    // Finds the assumptions that a false one rests on.
    pub(crate) fn explain(&mut self, l: Lit) -> Result<(), AllocError> {
        self.core.clear();
        self.core.push(l)?;
        self.mark(l)?;
        if self.level(l) == 0 {
            self.derived.note(Premise::Fixed(l.var()))?;
        }
        let start = at(&self.limits, 0, self.trail.len());
        let mut place = self.trail.len();
        for _ in start..self.trail.len() {
            place = place.saturating_sub(1);
            let Some(m) = self.trail.get(place) else {
                break;
            };
            let m = *m;
            if self.is_seen(m) {
                self.explain_true(m)?;
            }
        }
        self.unmark_all();
        self.derived.conclude()
    }

    // A true literal rests on the clause that it came from; one that has none is an assumption.
    fn explain_true(&mut self, l: Lit) -> Result<(), AllocError> {
        let reason = self.reason(l);
        if reason == NO_CLAUSE {
            self.core.push(l)?;
            return Ok(());
        }
        self.derived.note(Premise::Clause(reason))?;
        for place in 0..self.clauses.get(reason).len() {
            let Some(m) = self.clauses.get(reason).get(place) else {
                break;
            };
            let m = *m;
            if self.level(m) == 0 {
                self.derived.note(Premise::Fixed(m.var()))?;
            } else if !self.is_seen(m) {
                self.mark(m)?;
            }
        }
        Ok(())
    }

    // A clause is false at level 0.
    pub(crate) fn refute(&mut self, clause: u32) -> Result<(), AllocError> {
        self.refuted = true;
        self.derived.note(Premise::Clause(clause))?;
        for l in self.clauses.get(clause) {
            self.derived.note(Premise::Fixed(l.var()))?;
        }
        self.derived.conclude()
    }
}
