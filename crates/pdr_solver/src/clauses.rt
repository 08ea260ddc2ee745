// Clauses, whose literals lie in one list.

use crate::list::{at, narrow, set};
use cnf_form::Lit;
use std::alloc::{AllocError, Global};

// Where the literals of a clause lie, and how active it was lately. A clause of the formula has no activity.
#[derive(Clone, Copy)]
struct Head {
    start: u32,
    count: u32,
    activity: u32,
    learnt: bool,
}

const NONE: Head = Head {
    start: 0,
    count: 0,
    activity: 0,
    learnt: false,
};

// Clauses by their numbers. A deleted one has no literals.
#[derive(Drop)]
pub(crate) struct Clauses {
    lits: Vec<Lit>,
    heads: Vec<Head>,
}

impl Clauses {
    pub fn new(alloc: Global) -> Self {
        Clauses {
            lits: Vec::new(alloc),
            heads: Vec::new(alloc),
        }
    }

    // How many there are, deleted ones among them.
    pub fn len(&self) -> usize {
        self.heads.len()
    }

    // How many literals the list has, those of deleted clauses among them.
    pub fn room(&self) -> usize {
        self.lits.len()
    }

    // Adds a clause after the others. Returns its number.
    pub fn push(&mut self, clause: &[Lit], learnt: bool) -> Result<u32, AllocError> {
        let number = narrow(self.heads.len());
        let head = Head {
            start: narrow(self.lits.len()),
            count: narrow(clause.len()),
            activity: 0,
            learnt,
        };
        self.lits.extend_from_slice(clause)?;
        self.heads.push(head)?;
        Ok(number)
    }

    fn head(&self, number: u32) -> Head {
        at(&self.heads, number as usize, NONE)
    }

    // The literals of a clause.
    pub fn get(&self, number: u32) -> &[Lit] {
        let head = self.head(number);
        let start = head.start as usize;
        let end = start.saturating_add(head.count as usize);
        if end > self.lits.len() {
            return &self.lits[..0];
        }
        &self.lits[start..end]
    }

    pub fn is_learnt(&self, number: u32) -> bool {
        self.head(number).learnt
    }

    pub fn activity(&self, number: u32) -> u32 {
        self.head(number).activity
    }

    pub fn set_activity(&mut self, number: u32, activity: u32) {
        let head = Head {
            activity,
            ..self.head(number)
        };
        set(&mut self.heads, number as usize, head);
    }

    // Removes the literals of a clause.
    pub fn delete(&mut self, number: u32) {
        let head = Head {
            count: 0,
            ..self.head(number)
        };
        set(&mut self.heads, number as usize, head);
    }

    // Exchanges the literals at two places of a clause.
    pub fn swap(&mut self, number: u32, one: usize, other: usize) {
        let start = self.head(number).start as usize;
        let one = start.saturating_add(one);
        let other = start.saturating_add(other);
        if one < self.lits.len() && other < self.lits.len() {
            self.lits.swap(one, other);
        }
    }
}
