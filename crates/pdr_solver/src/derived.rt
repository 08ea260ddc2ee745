// What learnt clauses were derived from: other clauses, and variables that have a value at level 0.

use crate::list::at;
use std::alloc::{AllocError, Global};

/// A premise: a clause, or the value of a variable at level 0.
#[derive(Clone, Copy, Debug, PartialEq, Eq)]
pub enum Premise {
    Clause(u32),
    Fixed(u32),
}

// Premises of each learnt clause, the end of them in the list by the order of the learnt clauses, and those that answers rested on.
#[derive(Drop)]
pub struct Derived {
    wanted: bool,
    premises: Vec<Premise>,
    learnts: Vec<u32>,
    ends: Vec<usize>,
    roots: Vec<Premise>,
}

impl Derived {
    pub(crate) fn new(alloc: Global, wanted: bool) -> Self {
        Derived {
            wanted,
            premises: Vec::new(alloc),
            learnts: Vec::new(alloc),
            ends: Vec::new(alloc),
            roots: Vec::new(alloc),
        }
    }

    pub(crate) fn is_wanted(&self) -> bool {
        self.wanted
    }

    // A premise of the clause that is being learnt.
    pub(crate) fn note(&mut self, premise: Premise) -> Result<(), AllocError> {
        if self.wanted {
            self.premises.push(premise)?;
        }
        Ok(())
    }

    // The clause whose premises were noted was learnt, with this number.
    pub(crate) fn learn(&mut self, clause: u32) -> Result<(), AllocError> {
        if self.wanted {
            self.learnts.push(clause)?;
            self.ends.push(self.premises.len())?;
        }
        Ok(())
    }

    // What was noted is what an answer rests on.
    pub(crate) fn conclude(&mut self) -> Result<(), AllocError> {
        let start = self.last_end();
        for place in start..self.premises.len() {
            self.roots.push(self.premises[place])?;
        }
        self.premises.truncate(start);
        Ok(())
    }

    fn last_end(&self) -> usize {
        match self.ends.last() {
            Some(end) => *end,
            None => 0,
        }
    }

    // The numbers of the learnt clauses, in the order in which they were learnt.
    pub(crate) fn learnts(&self) -> &[u32] {
        self.learnts.as_slice()
    }

    // What answers rested on.
    pub(crate) fn roots(&self) -> &[Premise] {
        self.roots.as_slice()
    }

    // The premises of the learnt clause with this place among them.
    pub(crate) fn premises(&self, place: usize) -> &[Premise] {
        let end = at(&self.ends, place, 0);
        let start = match place.checked_sub(1) {
            Some(before) => at(&self.ends, before, 0),
            None => 0,
        };
        if start > end || end > self.premises.len() {
            return &self.premises[..0];
        }
        &self.premises[start..end]
    }
}
