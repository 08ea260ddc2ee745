// Variables that the order passes over: they are decided last. Nothing is promised of it.

use crate::unassigned::is_unassigned;
use cnf_form::Lit;
use std::alloc::{AllocError, Global};
use unit_propagation::Propagator;

// The marks are by variable. The variables before `next` have values.
#[derive(Drop)]
pub(crate) struct Passed {
    pub(crate) marks: Vec<bool>,
    vars: Vec<u32>,
    next: usize,
}

// Whether a variable is marked.
pub(crate) fn is_marked(marks: &[bool], var: u32) -> bool {
    match marks.get(var as usize) {
        Some(mark) => *mark,
        None => false,
    }
}

impl Passed {
    pub fn new(alloc: Global, vars: u32) -> Result<Self, AllocError> {
        let marks = vec![in alloc; false; vars as usize + 1]?;
        Ok(Passed {
            marks,
            vars: Vec::new(alloc),
            next: 0,
        })
    }

    pub fn has(&self, var: u32) -> bool {
        is_marked(&self.marks, var)
    }

    pub fn push(&mut self, var: u32) -> Result<(), AllocError> {
        let index = var as usize;
        if index < self.marks.len() && !self.marks[index] {
            self.vars.push(var)?;
            self.marks[index] = true;
        }
        Ok(())
    }

    // A variable is unassigned again.
    pub fn unassign(&mut self, var: u32) {
        if self.has(var) {
            self.next = 0;
        }
    }

    // The next unassigned variable, or 0.
    pub fn next(&mut self, core: &Propagator) -> u32 {
        for place in self.next..self.vars.len() {
            let var = self.vars[place];
            if 0 < var && var <= core.vars() && is_unassigned(core, Lit::new(var, false)) {
                self.next = place;
                return var;
            }
        }
        self.next = self.vars.len();
        0
    }
}
