// The clauses that local search looks at, and which of them have a literal. Nothing is promised of it.

ghost use Rattle.cnf_form.specs.Cnf.{ClauseWithin};

use crate::unassigned::is_satisfied;
use cnf_form::Lit;
use std::alloc::{AllocError, Global};
use unit_propagation::Propagator;

// The value at a place of a list, or 0 after its end.
pub(crate) fn at(list: &[u32], place: usize) -> u32 {
    match list.get(place) {
        Some(value) => *value,
        None => 0,
    }
}

pub(crate) fn set(list: &mut [u32], place: usize, value: u32) {
    if place < list.len() {
        list[place] = value;
    }
}

// The number as one of 32 bits, or the greatest of those.
pub(crate) fn narrow(number: usize) -> u32 {
    if number < 0xffff_ffff {
        number as u32
    } else {
        0xffff_ffff
    }
}

// Where the part with this number begins, of parts that end there.
fn start_of(ends: &[u32], number: usize) -> usize {
    if number == 0 {
        0
    } else {
        at(ends, number - 1) as usize
    }
}

// The clauses that level 0 doesn't satisfy, without their false literals, one after the other, and where each ends. The numbers of the
// clauses of each literal, in the order of the literals' indices, and where those of each end.
#[derive(Drop)]
pub(crate) struct Cover {
    lits: Vec<Lit>,
    ends: Vec<u32>,
    clauses: Vec<u32>,
    limits: Vec<u32>,
}

impl Cover {
    // Of the first clauses of the propagator, at level 0.
    pub fn new(alloc: Global, core: &Propagator, given: usize) -> Result<Self, AllocError> {
        let limits = vec![in alloc; 0; 2 * core.vars() as usize + 2]?;
        let mut cover = Cover {
            lits: Vec::new(alloc),
            ends: Vec::new(alloc),
            clauses: Vec::new(alloc),
            limits,
        };
        for k in 0..core.len() {
            if k >= given {
                break;
            }
            if let Some(clause) = core.clause(k as u32) {
                cover.add(core, clause)?;
            }
        }
        cover.clauses = vec![in alloc; 0; cover.lits.len()]?;
        cover.count();
        cover.list();
        Ok(cover)
    }

    fn add(&mut self, core: &Propagator, clause: &[Lit]) -> Result<(), AllocError>
        requires { ClauseWithin core.now.vars clause.now }
    {
        if is_satisfied(core, clause) {
            return Ok(());
        }
        for l in clause {
            let l = *l;
            if l.var() <= core.vars() && !core.is_true(l.negate()) {
                self.lits.push(l)?;
            }
        }
        self.ends.push(narrow(self.lits.len()))?;
        Ok(())
    }

    // Counts the clauses of each literal, and finds where the first of them is to stand.
    fn count(&mut self) {
        for place in 0..self.lits.len() {
            let index = self.lits[place].index();
            let count = at(&self.limits, index);
            set(&mut self.limits, index, count.saturating_add(1));
        }
        let mut sum: u32 = 0;
        for index in 0..self.limits.len() {
            let count = at(&self.limits, index);
            set(&mut self.limits, index, sum);
            sum = sum.saturating_add(count);
        }
    }

    // Puts the clauses of each literal where they are to stand.
    fn list(&mut self) {
        for clause in 0..self.ends.len() {
            for place in start_of(&self.ends, clause)..at(&self.ends, clause) as usize {
                if place >= self.lits.len() {
                    break;
                }
                let index = self.lits[place].index();
                let next = at(&self.limits, index);
                set(&mut self.clauses, next as usize, narrow(clause));
                set(&mut self.limits, index, next.saturating_add(1));
            }
        }
    }

    // How many clauses there are.
    pub fn len(&self) -> usize {
        self.ends.len()
    }

    // How many literals they have.
    pub fn literals(&self) -> usize {
        self.lits.len()
    }

    // The literals of a clause.
    pub fn clause(&self, number: usize) -> &[Lit] {
        let start = start_of(&self.ends, number);
        let end = at(&self.ends, number) as usize;
        if start > end || end > self.lits.len() {
            return &self.lits[..0];
        }
        &self.lits[start..end]
    }

    // The numbers of the clauses that have a literal.
    pub fn clauses_of(&self, l: Lit) -> &[u32] {
        let start = start_of(&self.limits, l.index());
        let end = at(&self.limits, l.index()) as usize;
        if start > end || end > self.clauses.len() {
            return &self.clauses[..0];
        }
        &self.clauses[start..end]
    }
}
