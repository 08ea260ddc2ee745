// Which learnt clauses answers rest on.

use crate::derived::Premise;
use crate::list::{at, narrow, set};
use crate::solver::{NO_CLAUSE, Solver};
use std::alloc::AllocError;

// The needed clauses and values at level 0, the place of each learnt clause among them, and premises that are still to be followed.
#[derive(Drop)]
struct Needs {
    clauses: Vec<bool>,
    fixed: Vec<bool>,
    places: Vec<u32>,
    open: Vec<Premise>,
}

// Sets a place of a table. Returns whether it wasn't set.
fn claim(table: &mut [bool], place: u32) -> bool {
    let is_new = !at(table, place as usize, true);
    set(table, place as usize, true);
    is_new
}

impl Needs {
    fn new(solver: &Solver) -> Result<Self, AllocError> {
        let alloc = solver.alloc;
        let mut needs = Needs {
            clauses: vec![in alloc; false; solver.clauses.len()]?,
            fixed: vec![in alloc; false; solver.levels.len()]?,
            places: vec![in alloc; NO_CLAUSE; solver.clauses.len()]?,
            open: Vec::new(alloc),
        };
        let learnts = solver.derived.learnts();
        for place in 0..learnts.len() {
            let number = learnts[place] as usize;
            set(&mut needs.places, number, narrow(place));
        }
        Ok(needs)
    }

    // A premise is needed.
    fn push(&mut self, premise: Premise) -> Result<(), AllocError> {
        let is_new = match premise {
            Premise::Clause(number) => claim(&mut self.clauses, number),
            Premise::Fixed(var) => claim(&mut self.fixed, var),
        };
        if is_new {
            self.open.push(premise)?;
        }
        Ok(())
    }

    // What a premise rests on is needed too.
    fn follow(&mut self, solver: &Solver, premise: Premise) -> Result<(), AllocError> {
        match premise {
            Premise::Clause(number) => {
                let place = at(&self.places, number as usize, NO_CLAUSE);
                for premise in solver.derived.premises(place as usize) {
                    self.push(*premise)?;
                }
            }
            Premise::Fixed(var) => {
                let reason = at(&solver.reasons, var as usize, NO_CLAUSE);
                self.push(Premise::Clause(reason))?;
                for l in solver.clauses.get(reason) {
                    self.push(Premise::Fixed(l.var()))?;
                }
            }
        }
        Ok(())
    }
}

// The numbers of the learnt clauses that answers rest on, in the order in which they were learnt.
pub(crate) fn needed(solver: &Solver) -> Result<Vec<u32>, AllocError> {
    let mut needs = Needs::new(solver)?;
    for premise in solver.derived.roots() {
        needs.push(*premise)?;
    }
    for _ in 0..u64::MAX {
        let Some(premise) = needs.open.pop() else {
            break;
        };
        needs.follow(solver, premise)?;
    }
    let mut numbers = Vec::new(solver.alloc);
    for number in solver.derived.learnts() {
        if at(&needs.clauses, *number as usize, false) {
            numbers.push(*number)?;
        }
    }
    Ok(numbers)
}
