// The clauses that define each variable of a formula that was made from gates: those of several literals in which it is the greatest.

use cnf_form::{Formula, Lit};
use pair_form::Pair;
use pdr_solver::{at, narrow, set};
use std::alloc::{AllocError, Global};

// The numbers of the clauses that define each variable, and where each variable's end; the state bit of each variable, or 0; and the
// formula's units.
#[derive(Drop)]
pub(crate) struct Gates {
    clauses: Vec<u32>,
    ends: Vec<u32>,
    bits: Vec<u32>,
    units: Vec<Lit>,
}

// The greatest variable of a clause of several literals, or 0.
fn defined(clause: &[Lit]) -> usize {
    let mut greatest = 0;
    if clause.len() < 2 {
        return 0;
    }
    for l in clause {
        greatest = greatest.max(l.var());
    }
    greatest as usize
}

impl Gates {
    pub fn new(alloc: Global, pair: &Pair) -> Result<Self, AllocError> {
        let formula = pair.formula();
        let vars = formula.vars() as usize;
        let mut gates = Gates {
            clauses: vec![in alloc; 0; formula.clauses().len()]?,
            ends: vec![in alloc; 0; vars + 1]?,
            bits: vec![in alloc; 0; vars + 1]?,
            units: Vec::new(alloc),
        };
        gates.count(formula)?;
        gates.list(formula);
        for place in 0..pair.bits().len() {
            if let Some(lits) = pair.bits()[place] {
                let number = narrow(place).saturating_add(1);
                set(&mut gates.bits, lits.first.var() as usize, number);
            }
        }
        Ok(gates)
    }

    // Counts each variable's clauses, and finds where the first of them is to stand.
    fn count(&mut self, formula: &Formula) -> Result<(), AllocError> {
        let clauses = formula.clauses();
        for place in 0..clauses.len() {
            let clause = clauses.get(place);
            let var = defined(clause);
            let count = at(&self.ends, var, 0);
            set(&mut self.ends, var, count.saturating_add(1));
            if let [unit] = clause {
                self.units.push(*unit)?;
            }
        }
        let mut sum: u32 = 0;
        for var in 0..self.ends.len() {
            let count = at(&self.ends, var, 0);
            set(&mut self.ends, var, sum);
            sum = sum.saturating_add(count);
        }
        Ok(())
    }

    // Puts the clauses of each variable where they are to stand.
    fn list(&mut self, formula: &Formula) {
        let clauses = formula.clauses();
        for place in 0..clauses.len() {
            let var = defined(clauses.get(place));
            let next = at(&self.ends, var, 0);
            set(&mut self.clauses, next as usize, narrow(place));
            set(&mut self.ends, var, next.saturating_add(1));
        }
    }

    // The numbers of the clauses that define a variable.
    pub fn of(&self, var: u32) -> &[u32] {
        let end = at(&self.ends, var as usize, 0) as usize;
        let start = match (var as usize).checked_sub(1) {
            Some(before) => at(&self.ends, before, 0) as usize,
            None => end,
        };
        if start > end || end > self.clauses.len() {
            return &self.clauses[..0];
        }
        &self.clauses[start..end]
    }

    // The number of the state bit that a variable is in the first cycle, or 0.
    pub fn bit(&self, var: u32) -> u32 {
        at(&self.bits, var as usize, 0)
    }

    pub fn units(&self) -> &[Lit] {
        self.units.as_slice()
    }
}
