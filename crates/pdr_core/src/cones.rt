// The variables on which literals rest: those of the clauses that define them, and of the clauses of frames that have one of them. Values
// of a cone that satisfy its clauses can be extended: all other clauses of frames hold in a start.

use crate::gates::Gates;
use cnf_form::{Formula, Lit};
use pdr_solver::{at, narrow, set};
use std::alloc::{AllocError, Global};

// The variables of a cone, of which the first belong to each one; how many of them were followed; and which those are, by their numbers.
// Variables that clauses of frames join are a ring each: by variables the next one, and one on the way to the ring's own.
#[derive(Drop)]
pub(crate) struct Cones {
    vars: Vec<u32>,
    kept: usize,
    followed: usize,
    within: Vec<bool>,
    nexts: Vec<u32>,
    owners: Vec<u32>,
}

impl Cones {
    // A cone without variables, of those up to `vars`.
    pub fn new(alloc: Global, vars: u32) -> Result<Self, AllocError> {
        let mut cones = Cones {
            vars: Vec::new(alloc),
            kept: 0,
            followed: 0,
            within: vec![in alloc; false; vars as usize + 1]?,
            nexts: vec![in alloc; 0; vars as usize + 1]?,
            owners: vec![in alloc; 0; vars as usize + 1]?,
        };
        cones.part();
        Ok(cones)
    }

    // The variables of the cone.
    pub fn vars(&self) -> &[u32] {
        self.vars.as_slice()
    }

    // A cone begins, with the variables that belong to each.
    pub fn begin(&mut self) -> Result<(), AllocError> {
        for place in self.kept..self.vars.len() {
            let var = at(&self.vars, place, 0);
            set(&mut self.within, var as usize, false);
        }
        self.vars.truncate(self.kept);
        self.followed = self.kept;
        for place in 0..self.kept {
            let var = at(&self.vars, place, 0);
            self.add_next(var)?;
        }
        Ok(())
    }

    // The variables so far belong to each cone.
    pub fn keep(&mut self) {
        self.kept = self.vars.len();
    }

    // A clause of frames has these variables: a cone that has one of them has all.
    pub fn join(&mut self, vars: &[u32]) {
        for place in 1..vars.len() {
            self.join_two(at(vars, place - 1, 0), at(vars, place, 0));
        }
    }

    // Two rings become one, where they are two.
    fn join_two(&mut self, first: u32, second: u32) {
        let owner = self.owner(first);
        let other = self.owner(second);
        if owner != other {
            set(&mut self.owners, other as usize, owner);
            let next = at(&self.nexts, first as usize, first);
            let next_other = at(&self.nexts, second as usize, second);
            set(&mut self.nexts, first as usize, next_other);
            set(&mut self.nexts, second as usize, next);
        }
    }

    // The variable that stands for a ring, to which the way gets shorter.
    fn owner(&mut self, var: u32) -> u32 {
        let mut var = var;
        for _ in 0..u64::MAX {
            let owner = at(&self.owners, var as usize, var);
            if owner == var {
                break;
            }
            let above = at(&self.owners, owner as usize, owner);
            set(&mut self.owners, var as usize, above);
            var = above;
        }
        var
    }

    // There are no clauses of frames: each variable is a ring of its own.
    pub fn part(&mut self) {
        for var in 0..self.nexts.len() {
            set(&mut self.nexts, var, narrow(var));
            set(&mut self.owners, var, narrow(var));
        }
    }

    fn push(&mut self, var: u32) -> Result<(), AllocError> {
        if !at(&self.within, var as usize, true) {
            set(&mut self.within, var as usize, true);
            self.vars.push(var)?;
        }
        Ok(())
    }

    // The variables belong to the cone on which this literal rests.
    pub fn add(&mut self, formula: &Formula, gates: &Gates, root: Lit) -> Result<(), AllocError> {
        self.push(root.var())?;
        for _ in 0..u64::MAX {
            let Some(var) = self.vars.get(self.followed) else {
                break;
            };
            let var = *var;
            self.followed = self.followed.saturating_add(1);
            self.add_below(formula, gates.of(var))?;
            self.add_next(var)?;
        }
        Ok(())
    }

    // The variables of clauses belong to the cone.
    fn add_below(&mut self, formula: &Formula, numbers: &[u32]) -> Result<(), AllocError> {
        let clauses = formula.clauses();
        for number in numbers {
            if (*number as usize) < clauses.len() {
                for l in clauses.get(*number as usize) {
                    self.push(l.var())?;
                }
            }
        }
        Ok(())
    }

    // The next variable of a ring belongs to the cone.
    fn add_next(&mut self, var: u32) -> Result<(), AllocError> {
        let next = at(&self.nexts, var as usize, var);
        self.push(next)
    }
}
