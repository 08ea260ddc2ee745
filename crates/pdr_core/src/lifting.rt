// Lifting: a cube of state bits that, with the inputs of an assignment, has the values of some literals. Each value is followed back
// through one clause that implies it, the cheapest in state bits (justification, as in Eén, Mishchenko and Brayton, 2011, by clauses in
// place of ternary values).

use crate::gates::Gates;
use cnf_form::{Formula, Lit, MAX_VARS};
use pdr_solver::{Solver, at, narrow, set};
use std::alloc::{AllocError, Global};

// The cost of what isn't possible.
const DEAR: u32 = 0xffff_ffff;

// By variables: whether it lies in the cone of what is asked, whether its value is needed, and how many state bits it costs.
#[derive(Drop)]
pub(crate) struct Lifting {
    cone: Vec<bool>,
    needed: Vec<bool>,
    costs: Vec<u32>,
}

// The cost of a clause as the reason of a variable's value; none where it doesn't imply it.
fn reason_cost(costs: &[u32], solver: &Solver, clause: &[Lit], var: u32) -> Option<u32> {
    let mut cost: u32 = 0;
    for l in clause {
        if l.var() == var {
            if !solver.is_true(*l) {
                return None;
            }
        } else if solver.is_true(*l) {
            return None;
        } else {
            cost = cost.saturating_add(at(costs, l.var() as usize, DEAR));
        }
    }
    Some(cost)
}

impl Lifting {
    pub fn new(alloc: Global, vars: u32) -> Result<Self, AllocError> {
        let places = vars as usize + 1;
        Ok(Lifting {
            cone: vec![in alloc; false; places]?,
            needed: vec![in alloc; false; places]?,
            costs: vec![in alloc; 0; places]?,
        })
    }

    // Marks what the literals rest on, and what each of that costs.
    fn weigh(&mut self, formula: &Formula, gates: &Gates, solver: &Solver, roots: &[Lit]) {
        for l in roots {
            set(&mut self.cone, l.var() as usize, true);
        }
        let vars = self.cone.len();
        for above in 0..vars {
            let var = vars - 1 - above;
            if at(&self.cone, var, false) {
                self.mark_below(formula, gates.of(narrow(var)));
            }
        }
        for var in 1..self.cone.len() {
            if at(&self.cone, var, false) {
                let cost = self.cost(formula, gates, solver, narrow(var));
                set(&mut self.costs, var, cost);
            }
        }
    }

    // Marks the variables of clauses.
    fn mark_below(&mut self, formula: &Formula, numbers: &[u32]) {
        let clauses = formula.clauses();
        for number in numbers {
            if (*number as usize) < clauses.len() {
                for l in clauses.get(*number as usize) {
                    set(&mut self.cone, l.var() as usize, true);
                }
            }
        }
    }

    // What a variable's value costs: one state bit, nothing for an input, or what its cheapest reason does.
    fn cost(&self, formula: &Formula, gates: &Gates, solver: &Solver, var: u32) -> u32 {
        if gates.bit(var) != 0 {
            return 1;
        }
        if gates.of(var).is_empty() {
            return 0;
        }
        match self.reason(formula, gates, solver, var) {
            Some((_, cost)) => cost,
            None => DEAR,
        }
    }

    // The cheapest clause that implies a variable's value.
    fn reason<'a>(
        &self,
        formula: &'a Formula,
        gates: &Gates,
        solver: &Solver,
        var: u32,
    ) -> Option<(&'a [Lit], u32)> {
        let clauses = formula.clauses();
        let mut best: Option<(&'a [Lit], u32)> = None;
        for number in gates.of(var) {
            if (*number as usize) >= clauses.len() {
                continue;
            }
            let clause = clauses.get(*number as usize);
            let Some(cost) = reason_cost(&self.costs, solver, clause, var) else {
                continue;
            };
            let better = match best {
                Some((_, least)) => cost < least,
                None => true,
            };
            if better {
                best = Some((clause, cost));
            }
        }
        best
    }

    // The values of the state bits on which these true literals rest, beside inputs, by the numbers of the bits.
    pub fn lift(
        &mut self,
        alloc: Global,
        formula: &Formula,
        gates: &Gates,
        solver: &Solver,
        roots: &[Lit],
    ) -> Result<Vec<Lit>, AllocError> {
        self.weigh(formula, gates, solver, roots);
        for l in roots {
            set(&mut self.needed, l.var() as usize, true);
        }
        let mut cube = Vec::new(alloc);
        let vars = self.cone.len();
        for above in 0..vars {
            let var = vars - 1 - above;
            set(&mut self.cone, var, false);
            if at(&self.needed, var, false) {
                set(&mut self.needed, var, false);
                self.follow(formula, gates, solver, narrow(var), &mut cube)?;
            }
        }
        cube.reverse();
        Ok(cube)
    }

    // A needed value is one of a state bit, or needs those of its reason.
    fn follow(
        &mut self,
        formula: &Formula,
        gates: &Gates,
        solver: &Solver,
        var: u32,
        cube: &mut Vec<Lit>,
    ) -> Result<(), AllocError> {
        let number = gates.bit(var);
        if number != 0 && number <= MAX_VARS && 0 < var && var <= MAX_VARS {
            let negated = !solver.is_true(Lit::new(var, false));
            cube.push(Lit::new(number, negated))?;
            return Ok(());
        }
        if let Some((clause, _)) = self.reason(formula, gates, solver, var) {
            for l in clause {
                if l.var() < var {
                    set(&mut self.needed, l.var() as usize, true);
                }
            }
        }
        Ok(())
    }
}
