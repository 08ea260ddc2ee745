// The literals of level 0 as unit clauses of their own, so that a hint stands for each of them.

ghost use Rattle.std.specs.Prelude.{◌≡◌, ◌≤◌, [], Contains, IsTrue, IfErr, OnOk, length};
ghost use Rattle.cdcl_core.specs.Searching.{IsSolver, Leads, Stops};

use crate::log::Log;
use crate::solver::Solver;
use crate::stop::Stop;
use cnf_form::Lit;
use unit_propagation::Propagator;

// How many literals level 0 has.
pub(crate) fn fixed_count(core: &Propagator) -> usize
    ensures { result ≤ length core.now.trail }
{
    if core.levels() == 0 {
        return core.trail().len();
    }
    core.limit(0)
}

impl Solver {
    // Logs a true literal as a unit clause, if the clause that made it true admits that together with facts.
    fn note_fact<L: Log>(&mut self, log: &mut L, l: Lit) -> Result<(), Stop>
        requires solver { IsSolver self.old }
        requires on { Contains self.old.core.trail l }
        ensures core { self.new.core ≡ self.old.core }
        ensures frozen { self.new.frozen ≡ self.old.frozen }
        ensures pending { self.new.pending ≡ self.old.pending }
        ensures conflicts { self.new.conflicts ≡ self.old.conflicts }
        ensures deletions { self.new.deletions ≡ self.old.deletions }
        ensures analysis { self.new.analysis ≡ self.old.analysis }
        ensures leads { OnOk result (Leads L.takes L.faults self.old self.new log.old log.new) }
        ensures stopped { IfErr result (λ e. Stops L.takes L.fails L.faults self.old log.old log.new e) }
    {
        let _within = self.core.trail().len();
        let k = self.core.reason(l);
        if !self.chain.follow(&self.core, &self.ids, &[l], &[], &[k])? {
            return Ok(());
        }
        let id = self.ids.next()?;
        if log.fact(l, id, self.chain.hints()).is_err() {
            return Err(Stop::Failed);
        }
        self.ids.set_fact(l, id);
        Ok(())
    }

    // Logs the literals that are new at level 0 as unit clauses, where ids are wanted.
    pub(crate) fn note_facts<L: Log>(&mut self, log: &mut L) -> Result<(), Stop>
        requires solver { IsSolver self.old }
        ensures solver { OnOk result (IsSolver self.new) }
        ensures core { self.new.core ≡ self.old.core }
        ensures frozen { self.new.frozen ≡ self.old.frozen }
        ensures pending { self.new.pending ≡ self.old.pending }
        ensures conflicts { self.new.conflicts ≡ self.old.conflicts }
        ensures deletions { self.new.deletions ≡ self.old.deletions }
        ensures analysis { self.new.analysis ≡ self.old.analysis }
        ensures leads { OnOk result (Leads L.takes L.faults self.old self.new log.old log.new) }
        ensures stopped { IfErr result (λ e. Stops L.takes L.fails L.faults self.old log.old log.new e) }
    {
        if !self.ids.are_wanted() {
            return Ok(());
        }
        let count = fixed_count(&self.core);
        for place in self.noted..count {
            let l = self.core.trail()[place];
            self.note_fact(log, l)?;
        }
        self.noted = count;
        Ok(())
    }
}
