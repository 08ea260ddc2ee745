// A falsified clause at level 0.

ghost use Rattle.std.specs.Prelude.{◌≡◌, [], IsTrue, IfErr, OnOk};
ghost use Rattle.cnf_form.specs.Cnf.{IsAdmitted};
ghost use Rattle.unit_propagation.specs.Propagation.{HasFalsified};
ghost use Rattle.unit_propagation.specs.Propagator.{clauses_of};
ghost use Rattle.hint_chain.specs.Chains.{Hints};
ghost use Rattle.cdcl_core.specs.Searching.{IsSolver, StepFits, Stops};
ghost use Rattle.cdcl_core.specs.declared.solver.Solved.TheVariants.{Unsat};
ghost use Rattle.cdcl_core.specs.declared.solver.Step.TheVariants.{Answered};

use crate::log::Log;
use crate::solver::Solver;
use crate::stop::Stop;
use cnf_form::Lit;
use std::alloc::AllocError;
use unit_propagation::Propagator;

// Whether all literals of a clause are false.
fn is_falsified(core: &Propagator, clause: &[Lit]) -> bool {
    for l in clause {
        if l.var() > core.vars() || !core.is_true(l.negate()) {
            return false;
        }
    }
    true
}

// The number of a falsified clause, if there is one.
fn find_falsified(core: &Propagator) -> u32 {
    for k in 0..core.len() {
        if let Some(clause) = core.clause(k as u32) {
            if is_falsified(core, clause) {
                return k as u32;
            }
        }
    }
    u32::MAX
}

impl Solver {
    // Finds the hints of the empty clause, where they are wanted.
    fn find_last_hints(&mut self) -> Result<(), AllocError>
        requires admitted { IsAdmitted (clauses_of self.old.core.slots) [] }
        ensures core { self.new.core ≡ self.old.core }
        ensures frozen { self.new.frozen ≡ self.old.frozen }
        ensures pending { self.new.pending ≡ self.old.pending }
        ensures conflicts { self.new.conflicts ≡ self.old.conflicts }
        ensures deletions { self.new.deletions ≡ self.old.deletions }
        ensures analysis { self.new.analysis ≡ self.old.analysis }
        ensures ids { self.new.ids ≡ self.old.ids }
        ensures hints { OnOk result (IsTrue self.old.ids.wanted → Hints self.old.core.slots self.old.ids [] self.new.chain) }
    {
        if !self.ids.are_wanted() {
            return Ok(());
        }
        let k = find_falsified(&self.core);
        self.chain.find(&self.core, &self.ids, &[], &[], &[k])
    }

    // Logs the empty clause.
    fn end_empty<L: Log>(&mut self, log: &mut L) -> Result<(), Stop>
        requires solver { IsSolver self.old }
        requires admitted { IsAdmitted (clauses_of self.old.core.slots) [] }
        ensures solver { OnOk result (IsSolver self.new) }
        ensures fits { OnOk result (StepFits L.takes L.fails L.faults self.old self.new log.old log.new (Answered Unsat)) }
        ensures stopped { IfErr result (λ e. Stops L.takes L.fails L.faults self.old log.old log.new e) }
    {
        self.find_last_hints()?;
        let id = self.ids.next()?;
        if log.clause(&[], id, self.chain.hints()).is_err() {
            return Err(Stop::Failed);
        }
        Ok(())
    }

    // Notes the literals of level 0, and then logs the empty clause.
    pub(crate) fn refute<L: Log>(&mut self, log: &mut L) -> Result<(), Stop>
        requires solver { IsSolver self.old }
        requires admitted { IsAdmitted (clauses_of self.old.core.slots) [] }
        ensures solver { OnOk result (IsSolver self.new) }
        ensures fits { OnOk result (StepFits L.takes L.fails L.faults self.old self.new log.old log.new (Answered Unsat)) }
        ensures stopped { IfErr result (λ e. Stops L.takes L.fails L.faults self.old log.old log.new e) }
    {
        self.note_facts(log)?;
        self.end_empty(log)
    }
}
