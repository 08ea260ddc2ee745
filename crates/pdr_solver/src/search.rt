// The search under assumptions.

ghost use Rattle.std.specs.Prelude.{◌≡◌, ◌≤◌, IfOk};
ghost use Rattle.pdr_solver.specs.declared.search.Answer.TheVariants.{Spent};

use crate::list::{at, set};
use crate::solver::{NO_CLAUSE, Solver};
use cnf_form::{Lit, MAX_VARS};
use std::alloc::AllocError;

// Conflicts of the first stretch between restarts, which grow as Luby's sequence does.
const STRETCH: u64 = 64;

/// What a call answers.
#[derive(Clone, Copy, Debug, PartialEq, Eq)]
pub enum Answer {
    /// All variables have values that satisfy the clauses, the assumptions among them.
    Sat,
    /// There are none.
    Unsat,
    /// As many conflicts were met as were allowed.
    Spent,
}

// The result of a step.
enum Step {
    Satisfied,
    Refuted,
    Decided,
    Learnt,
}

// The number of the sequence 1, 1, 2, 1, 1, 2, 4, .. at a place (Luby, Sinclair and Zuckerman, 1993).
fn luby(place: u64) -> u64 {
    let mut size: u64 = 1;
    let mut level: u32 = 0;
    for _ in 0..40 {
        if size > place {
            break;
        }
        size = size.saturating_mul(2).saturating_add(1);
        level = level.saturating_add(1);
    }
    let mut place = place;
    for _ in 0..40 {
        if size.saturating_sub(1) == place || size <= 1 {
            break;
        }
        size = (size - 1) / 2;
        level = level.saturating_sub(1);
        place %= size.max(1);
    }
    1u64 << level.min(40)
}

impl Solver {
    /// Searches for values under the assumptions. Returns the answer, and how many conflicts were met: no more than are allowed, and all of these
    /// where they are spent. It fails at out of memory alone.
    pub fn solve(&mut self, assumptions: &[Lit], most: u64) -> Result<(Answer, u64), AllocError>
        ensures bounded { IfOk result (λ answer. answer.1 ≤ most) }
        ensures spent { IfOk result (λ answer. answer.0 ≡ Spent → answer.1 ≡ most) }
    {
        self.cancel(0)?;
        self.core.clear();
        if self.refuted {
            return Ok((Answer::Unsat, 0));
        }
        let mut conflicts: u64 = 0;
        let mut stretch: u64 = 0;
        let mut due = STRETCH;
        while conflicts < most {
            if conflicts >= due {
                stretch = stretch.saturating_add(1);
                due = conflicts.saturating_add(luby(stretch).saturating_mul(STRETCH));
                self.cancel(0)?;
                self.reduce_if_due()?;
            }
            match self.search(assumptions)? {
                Some(true) => return Ok((Answer::Sat, conflicts)),
                Some(false) => return Ok((Answer::Unsat, conflicts)),
                None => conflicts += 1,
            }
        }
        Ok((Answer::Spent, conflicts))
    }

    // Goes on until it is known whether there are values, or a clause was learnt.
    fn search(&mut self, assumptions: &[Lit]) -> Result<Option<bool>, AllocError> {
        for _ in 0..u64::MAX {
            match self.step(assumptions)? {
                Step::Satisfied => return Ok(Some(true)),
                Step::Refuted => return Ok(Some(false)),
                Step::Learnt => return Ok(None),
                Step::Decided => {}
            }
        }
        Ok(None)
    }

    // Propagates, and learns or decides.
    fn step(&mut self, assumptions: &[Lit]) -> Result<Step, AllocError> {
        if let Some(conflict) = self.propagate()? {
            if self.depth() == 0 {
                self.refute(conflict)?;
                return Ok(Step::Refuted);
            }
            self.learn(conflict)?;
            return Ok(Step::Learnt);
        }
        self.decide(assumptions)
    }

    // Decides the next assumption that isn't true, or else an unassigned variable.
    fn decide(&mut self, assumptions: &[Lit]) -> Result<Step, AllocError> {
        for place in self.limits.len()..assumptions.len() {
            let l = assumptions[place];
            if self.is_false(l) {
                self.explain(l)?;
                return Ok(Step::Refuted);
            }
            self.limits.push(self.trail.len())?;
            if !self.is_true(l) {
                self.assign(l, NO_CLAUSE)?;
                return Ok(Step::Decided);
            }
        }
        match self.next_decision() {
            Some(l) => {
                self.limits.push(self.trail.len())?;
                self.assign(l, NO_CLAUSE)?;
                Ok(Step::Decided)
            }
            None => Ok(Step::Satisfied),
        }
    }

    // The most active unassigned variable, with its last phase.
    fn next_decision(&mut self) -> Option<Lit> {
        for _ in 0..u64::MAX {
            let var = self.order.pop();
            if var == 0 || var > self.vars() || var > MAX_VARS {
                return None;
            }
            let l = Lit::new(var, at(&self.phases, var as usize, true));
            if self.is_open(l) {
                return Some(l);
            }
        }
        None
    }

    /// Takes the last phases of the variables up to `vars` from another solver.
    pub fn take_phases(&mut self, other: &Solver, vars: u32) {
        for var in 0..vars as usize + 1 {
            let phase = at(&other.phases, var, true);
            set(&mut self.phases, var, phase);
        }
    }

    /// Makes a literal true, with what follows from it by propagation, until the next call.
    pub fn assume_alone(&mut self, l: Lit) -> Result<(), AllocError> {
        self.cancel(0)?;
        self.limits.push(self.trail.len())?;
        if self.is_open(l) {
            self.assign(l, NO_CLAUSE)?;
            self.propagate()?;
        }
        Ok(())
    }
}
