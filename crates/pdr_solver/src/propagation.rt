// Unit propagation by two watched literals (Moskewicz and others, 2001) with blocking literals.

use crate::list::{at, set};
use crate::solver::{Solver, Watch};
use cnf_form::Lit;
use std::alloc::AllocError;
use std::mem;

impl Solver {
    // Propagates what is true. Returns the clause that is false then, if there is one.
    pub(crate) fn propagate(&mut self) -> Result<Option<u32>, AllocError> {
        for _ in 0..u64::MAX {
            let Some(l) = self.trail.get(self.head) else {
                return Ok(None);
            };
            let l = l.negate();
            self.head = self.head.saturating_add(1);
            let conflict = self.visit(l)?;
            if conflict.is_some() {
                return Ok(conflict);
            }
        }
        Ok(None)
    }

    // Visits the clauses that watch a literal that is false now.
    fn visit(&mut self, l: Lit) -> Result<Option<u32>, AllocError> {
        if l.index() >= self.watches.len() {
            return Ok(None);
        }
        let none = Vec::new(self.alloc);
        let mut list = mem::replace(&mut self.watches[l.index()], none);
        let mut kept = 0;
        let mut conflict = None;
        for place in 0..list.len() {
            let Watch { clause, other } = list[place];
            if self.stays(l, clause, other, &mut conflict)? {
                set(&mut list, kept, Watch { clause, other });
                kept = kept.saturating_add(1);
            }
        }
        list.truncate(kept);
        self.put_back(l, list);
        Ok(conflict)
    }

    // The list is that of the clauses that watch a literal.
    fn put_back(&mut self, l: Lit, list: Vec<Watch>) {
        if l.index() < self.watches.len() {
            self.watches[l.index()] = list;
        }
    }

    // Whether a clause goes on watching a literal that is false now. After a conflict each does, and above level 0 one with a variable
    // that is left out.
    fn stays(
        &mut self,
        l: Lit,
        clause: u32,
        blocker: Lit,
        conflict: &mut Option<u32>,
    ) -> Result<bool, AllocError> {
        if conflict.is_some() || self.is_true(blocker) {
            return Ok(true);
        }
        if self.is_outside(blocker.var()) && self.depth() > 0 {
            return Ok(true);
        }
        self.look(l, clause, conflict)
    }

    // Whether a clause goes on watching a literal that is false now. Where all others are false but one, that becomes true, and where
    // all are, the clause is the conflict.
    fn look(
        &mut self,
        l: Lit,
        clause: u32,
        conflict: &mut Option<u32>,
    ) -> Result<bool, AllocError> {
        let [first, second, ..] = self.clauses.get(clause) else {
            return Ok(false);
        };
        let other = if *first == l { *second } else { *first };
        if *first == l {
            self.clauses.swap(clause, 0, 1);
        }
        if !self.is_true(other) {
            if let Some(place) = self.open_place(clause) {
                return self.move_watch(clause, place, other);
            }
            if self.is_false(other) {
                *conflict = Some(clause);
            } else {
                self.assign(other, clause)?;
            }
        }
        Ok(true)
    }

    // The place of a literal after the second that isn't false.
    fn open_place(&self, clause: u32) -> Option<usize> {
        let lits = self.clauses.get(clause);
        for place in 2..lits.len() {
            if !self.is_false(lits[place]) {
                return Some(place);
            }
        }
        None
    }

    // Watches the literal at a place in place of the second.
    fn move_watch(&mut self, clause: u32, place: usize, other: Lit) -> Result<bool, AllocError> {
        self.clauses.swap(clause, 1, place);
        let l = at(self.clauses.get(clause), 1, other);
        self.watch(l, clause, other)?;
        Ok(false)
    }
}
