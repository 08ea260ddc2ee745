// Which literals of a clause that is to be learnt follow from its others, through the clauses that made them false (minimization:
// Sörensson and Biere, 2009). Nothing is promised of it: who removes literals looks at those clauses again.

use crate::analysis::Analysis;
use crate::restarts::Restarts;
use cnf_form::Lit;
use std::alloc::{AllocError, Global};
use unit_propagation::Propagator;

// At most this many literals are visited at once, each for the one before it.
const MAX_DEPTH: usize = 500;

// What was found of a true literal: nothing yet; that it follows from literals that are marked; that it is marked, and does not; or
// neither.
#[derive(Clone, Copy, PartialEq, Eq)]
enum Finding {
    Nothing,
    Implied,
    Kept,
    Failed,
}

// A literal, the number of the clause that made it true, and how many literals of that were visited.
#[derive(Clone, Copy)]
struct Step {
    lit: Lit,
    clause: u32,
    place: usize,
}

// `findings` is by variable, `touched` has the variables of which something was found.
#[derive(Drop)]
pub(crate) struct Minimizer {
    findings: Vec<Finding>,
    touched: Vec<u32>,
    steps: Vec<Step>,
    implied: Vec<Lit>,
}

impl Minimizer {
    pub fn new(alloc: Global, vars: u32) -> Result<Self, AllocError> {
        let findings = vec![in alloc; Finding::Nothing; vars as usize + 1]?;
        Ok(Minimizer {
            findings,
            touched: Vec::new(alloc),
            steps: Vec::new(alloc),
            implied: Vec::new(alloc),
        })
    }

    // No literal is to be removed.
    pub fn clear(&mut self) {
        self.implied.clear();
    }

    // The literals that follow from marked ones, each after those that it follows from.
    pub fn implied(&self) -> &[Lit] {
        self.implied.as_slice()
    }

    fn finding(&self, l: Lit) -> Finding {
        match self.findings.get(l.var() as usize) {
            Some(finding) => *finding,
            None => Finding::Failed,
        }
    }

    fn set(&mut self, l: Lit, finding: Finding) -> Result<(), AllocError> {
        let index = l.var() as usize;
        if index < self.findings.len() {
            self.findings[index] = finding;
            self.touched.push(l.var())?;
        }
        Ok(())
    }

    // What is found where a literal does not follow from others.
    fn fail(&mut self, analysis: &Analysis, l: Lit) -> Result<(), AllocError> {
        if analysis.has(l) {
            self.set(l, Finding::Kept)
        } else {
            self.set(l, Finding::Failed)
        }
    }

    // Begins with a literal of which nothing was found.
    fn enter(
        &mut self,
        core: &Propagator,
        restarts: &Restarts,
        analysis: &Analysis,
        l: Lit,
        root: usize,
    ) -> Result<(), AllocError> {
        if l.var() > core.vars() || !core.is_true(l) {
            return self.fail(analysis, l);
        }
        if core.place(l) < root {
            return self.set(l, Finding::Implied);
        }
        let clause = core.reason(l);
        if clause as usize >= core.len() || self.steps.len() >= MAX_DEPTH {
            return self.fail(analysis, l);
        }
        if !analysis.has(l) && !restarts.has_level(core, l) {
            return self.fail(analysis, l);
        }
        self.steps.push(Step {
            lit: l,
            clause,
            place: 0,
        })?;
        Ok(())
    }

    // Goes on with the last step: a literal of its clause of which nothing was found comes next.
    fn advance(
        &mut self,
        core: &Propagator,
        restarts: &Restarts,
        analysis: &Analysis,
        step: Step,
        root: usize,
    ) -> Result<(), AllocError> {
        let Step { lit, clause, place } = step;
        if clause as usize >= core.len() {
            return self.fail(analysis, lit);
        }
        let Some(lits) = core.clause(clause) else {
            return self.fail(analysis, lit);
        };
        for k in place..lits.len() {
            if lits[k] == lit {
                continue;
            }
            let other = lits[k].negate();
            match self.finding(other) {
                Finding::Implied => continue,
                Finding::Kept => continue,
                Finding::Failed => return self.fail(analysis, lit),
                Finding::Nothing => {
                    self.steps.push(Step {
                        lit,
                        clause,
                        place: k,
                    })?;
                    return self.enter(core, restarts, analysis, other, root);
                }
            }
        }
        self.set(lit, Finding::Implied)?;
        self.implied.push(lit)?;
        Ok(())
    }

    // Goes through the marked literals before the last level.
    pub fn run(
        &mut self,
        core: &Propagator,
        restarts: &mut Restarts,
        analysis: &Analysis,
        root: usize,
    ) -> Result<(), AllocError> {
        self.implied.clear();
        let _glue = restarts.glue(core, analysis.lower());
        for m in analysis.lower() {
            let l = m.negate();
            if self.finding(l) == Finding::Nothing {
                self.enter(core, restarts, analysis, l, root)?;
            }
            for _ in 0..u32::MAX {
                let Some(step) = self.steps.pop() else {
                    break;
                };
                self.advance(core, restarts, analysis, step, root)?;
            }
        }
        self.steps.clear();
        for k in 0..self.touched.len() {
            let index = self.touched[k] as usize;
            if index < self.findings.len() {
                self.findings[index] = Finding::Nothing;
            }
        }
        self.touched.clear();
        Ok(())
    }
}
