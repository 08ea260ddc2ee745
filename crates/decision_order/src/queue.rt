// The order in which variables are decided in focused mode: those that a conflict rested on last come first (VMTF: Ryan, 2004; Biere and
// Fröhlich, 2015). Nothing is promised of it.

ghost use Rattle.std.specs.Prelude.{◌<◌};

use crate::cover::{at, set};
use crate::passed::is_marked;
use crate::unassigned::is_unassigned;
use cnf_form::Lit;
use std::alloc::{AllocError, Global};
use unit_propagation::Propagator;

// A variable that a conflict rested on, and when it was moved last.
#[derive(Clone, Copy, PartialEq, Eq, PartialOrd, Ord)]
struct Moved {
    stamp: u64,
    var: u32,
}

// The variables in a list, from the one that was moved first to the one that was moved last: by variable the one before it and the one
// after it, or 0, and when it was moved. Those after `next` have values, or are passed over.
#[derive(Drop)]
pub(crate) struct Queue {
    before: Vec<u32>,
    after: Vec<u32>,
    stamps: Vec<u64>,
    last: u32,
    next: u32,
    clock: u64,
    moves: Vec<Moved>,
}

fn stamp_of(stamps: &[u64], var: u32) -> u64 {
    match stamps.get(var as usize) {
        Some(stamp) => *stamp,
        None => 0,
    }
}

impl Queue {
    // The first variables come first.
    pub fn new(alloc: Global, vars: u32) -> Result<Self, AllocError>
        requires { vars < 0xffff_ffff }
    {
        let mut before = Vec::new(alloc);
        let mut after = Vec::new(alloc);
        let mut stamps = Vec::new(alloc);
        before.push(0)?;
        after.push(0)?;
        stamps.push(0)?;
        for place in 0..vars {
            before.push(if place + 1 < vars { place + 2 } else { 0 })?;
            after.push(place)?;
            stamps.push(vars as u64 - place as u64)?;
        }
        let last = if vars > 0 { 1 } else { 0 };
        Ok(Queue {
            before,
            after,
            stamps,
            last,
            next: last,
            clock: vars as u64,
            moves: Vec::new(alloc),
        })
    }

    // A variable is unassigned again.
    pub fn unassign(&mut self, var: u32) {
        if stamp_of(&self.stamps, var) > stamp_of(&self.stamps, self.next) {
            self.next = var;
        }
    }

    // The unassigned variable that was moved last and isn't passed over, or 0.
    pub fn front(&mut self, core: &Propagator, passed: &[bool]) -> u32 {
        let mut var = self.next;
        for _ in 0..core.vars() {
            if var == 0 || var > core.vars() {
                break;
            }
            if !is_marked(passed, var) && is_unassigned(core, Lit::new(var, false)) {
                self.next = var;
                return var;
            }
            var = at(&self.before, var as usize);
        }
        self.next = var;
        0
    }

    // A conflict rested on a variable, which has a value.
    pub fn push(&mut self, var: u32) -> Result<(), AllocError> {
        let stamp = stamp_of(&self.stamps, var);
        self.moves.push(Moved { stamp, var })?;
        Ok(())
    }

    // Moves a variable to the end.
    fn move_last(&mut self, var: u32) {
        if var == self.last || var as usize >= self.stamps.len() {
            return;
        }
        let before = at(&self.before, var as usize);
        let after = at(&self.after, var as usize);
        if self.next == var {
            self.next = if before == 0 { after } else { before };
        }
        if before != 0 {
            set(&mut self.after, before as usize, after);
        }
        set(&mut self.before, after as usize, before);
        set(&mut self.after, self.last as usize, var);
        set(&mut self.before, var as usize, self.last);
        set(&mut self.after, var as usize, 0);
        self.last = var;
        self.clock = self.clock.saturating_add(1);
        self.stamps[var as usize] = self.clock;
    }

    // Moves the variables that the last conflict rested on to the end, in the order that they had.
    pub fn move_all(&mut self) {
        self.moves.sort_unstable();
        for k in 0..self.moves.len() {
            if let Some(moved) = self.moves.get(k) {
                let var = moved.var;
                self.move_last(var);
            }
        }
        self.moves.clear();
    }
}
