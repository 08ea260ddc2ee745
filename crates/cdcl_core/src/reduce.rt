// Learnt clauses are deleted, and clauses are frozen, at level 0 (freezing: Audemard, Lagniez, Mazure and Saïs, 2011).

ghost use Rattle.std.specs.Prelude.{◌≡◌, ◌+◌, ◌*◌, ◌-◌, ◌<◌, ◌≤◌, ◌^◌, [], true, false, length, Contains, IsTrue, IfErr, OnOk, None};
ghost use Rattle.cnf_form.specs.Cnf.{ClauseWithin, LitOf};
ghost use Rattle.cdcl_core.specs.Logged.{IsProper};
ghost use Rattle.unit_propagation.specs.Propagator.{clauses_of};
ghost use Rattle.cdcl_core.specs.Searching.{IsAtRest, IsOf, IsSolver, Leads, Moves, Reduces, Stops, present_of};
ghost use Rattle.cdcl_core.specs.Present.{SameOrders};

use crate::eliminator::is_passed;
use crate::learn::restart;
use crate::learnts::is_long;
use crate::log::Log;
use crate::solver::Solver;
use crate::stop::Stop;
use crate::thaw::are_settled;
use cnf_form::Lit;
use decision_order::is_satisfied;
use frozen_clauses::Frozen;
use std::alloc::AllocError;
use unit_propagation::Propagator;

// Whether one more deletion leaves the deletions at most half of the additions.
fn may_delete(additions: u64, deletions: u64) -> bool
    ensures { IsTrue result → 2 * (deletions + 1) ≤ additions }
{
    deletions < additions / 2
}

// Whether a line may have an id.
fn is_writable(id: u64) -> bool
    ensures { IsTrue result → id < 2 ^ 63 }
{
    id < 1 << 63
}

// Whether a clause has no true literal, and no more literals than there are variables.
fn is_loose(core: &Propagator, clause: &[Lit]) -> bool
    requires { ClauseWithin core.now.vars clause.now }
    ensures proper { IsTrue result → IsProper core.now.vars clause.now }
    ensures untrue { IsTrue result → (l : LitOf) → Contains clause.now l → Contains core.now.trail l → ⊥ }
{
    let vars = core.vars() as usize;
    if clause.len() > vars {
        return false;
    }
    if is_satisfied(core, clause) {
        return false;
    }
    true
}

// Whether more than half of the frozen clauses were removed.
fn is_sparse(frozen: &Frozen) -> bool {
    let mut gone: usize = 0;
    for k in 0..frozen.len() {
        if frozen.clause(k as u32).is_none() {
            gone = gone.saturating_add(1);
        }
    }
    gone > frozen.len() / 2
}

impl Solver {
    // Deletes a watched clause, unless a literal of it is true: what is true then follows without it.
    fn delete<L: Log>(&mut self, log: &mut L, k: u32) -> Result<(), Stop>
        requires solver { IsSolver self.old }
        requires rest { IsAtRest self.old }
        requires clause { k < length self.old.core.slots }
        requires few { 2 * (self.old.deletions + 1) ≤ self.old.conflicts }
        ensures reduces { OnOk result (Reduces L.takes L.faults self.old self.new log.old log.new) }
        ensures stopped { IfErr result (λ e. Stops L.takes L.fails L.faults self.old log.old log.new e) }
    {
        let Some(clause) = self.core.clause(k) else {
            return Ok(());
        };
        if !is_loose(&self.core, clause) {
            return Ok(());
        }
        let id = self.ids.watched(k);
        if !is_writable(id) {
            return Ok(());
        }
        let _fixpoint = self.core.conflict();
        if log.delete(clause, id).is_err() {
            return Err(Stop::Failed);
        }
        self.core.remove_clause(k);
        self.deletions += 1;
        Ok(())
    }

    // Freezes a watched clause, unless it is empty or a literal of it is true.
    pub(crate) fn freeze(&mut self, k: u32) -> Result<(), AllocError>
        requires solver { IsSolver self.old }
        requires rest { IsAtRest self.old }
        requires clause { k < length self.old.core.slots }
        ensures solver { OnOk result (IsSolver self.new) }
        ensures rest { OnOk result (IsAtRest self.new) }
        ensures moves { OnOk result (Moves self.old self.new) }
    {
        let Some(clause) = self.core.clause(k) else {
            return Ok(());
        };
        if clause.is_empty() || is_satisfied(&self.core, clause) {
            return Ok(());
        }
        let _fixpoint = self.core.conflict();
        self.frozen.push(clause)?;
        self.ids.freeze(k)?;
        self.core.remove_clause(k);
        Ok(())
    }

    // Deletes a learnt clause, or freezes it in a long search where the deletions would be more than half of the additions.
    fn drop_next<L: Log>(&mut self, log: &mut L, k: u32) -> Result<(), Stop>
        requires solver { IsSolver self.old }
        requires rest { IsAtRest self.old }
        ensures reduces { OnOk result (Reduces L.takes L.faults self.old self.new log.old log.new) }
        ensures stopped { IfErr result (λ e. Stops L.takes L.fails L.faults self.old log.old log.new e) }
    {
        if (k as usize) < self.learnts.first() || k as usize >= self.core.len() {
            return Ok(());
        }
        if may_delete(self.conflicts, self.deletions) {
            return self.delete(log, k);
        }
        if is_long(self.conflicts) {
            self.freeze(k)?;
        }
        Ok(())
    }

    // Deletes or freezes one learnt clause after another.
    fn drop_all<L: Log>(&mut self, log: &mut L, worst: &[u32]) -> Result<(), Stop>
        requires solver { IsSolver self.old }
        requires rest { IsAtRest self.old }
        ensures reduces { OnOk result (Reduces L.takes L.faults self.old self.new log.old log.new) }
        ensures stopped { IfErr result (λ e. Stops L.takes L.fails L.faults self.old log.old log.new e) }
    {
        for k in worst {
            self.drop_next(log, *k)?;
        }
        Ok(())
    }

    // Deletes a frozen clause, unless a literal of it is true, a variable of it was eliminated, or the deletions would be more than half of
    // the additions.
    fn delete_frozen<L: Log>(&mut self, log: &mut L, k: u32) -> Result<(), Stop>
        requires solver { IsSolver self.old }
        requires rest { IsAtRest self.old }
        requires clause { k < length self.old.frozen.slots }
        ensures count { length self.new.frozen.slots ≡ length self.old.frozen.slots }
        ensures reduces { OnOk result (Reduces L.takes L.faults self.old self.new log.old log.new) }
        ensures stopped { IfErr result (λ e. Stops L.takes L.fails L.faults self.old log.old log.new e) }
    {
        if !may_delete(self.conflicts, self.deletions) {
            return Ok(());
        }
        let Some(clause) = self.frozen.clause(k) else {
            return Ok(());
        };
        if is_passed(&self.order, clause) {
            return Ok(());
        }
        if !is_loose(&self.core, clause) {
            return Ok(());
        }
        let id = self.ids.frozen(k);
        if !is_writable(id) {
            return Ok(());
        }
        let _fixpoint = self.core.conflict();
        if log.delete(clause, id).is_err() {
            return Err(Stop::Failed);
        }
        self.frozen.remove_clause(k);
        self.deletions += 1;
        Ok(())
    }

    // Deletes all frozen clauses that may go, the oldest first.
    fn delete_all_frozen<L: Log>(&mut self, log: &mut L) -> Result<(), Stop>
        requires solver { IsSolver self.old }
        requires rest { IsAtRest self.old }
        ensures reduces { OnOk result (Reduces L.takes L.faults self.old self.new log.old log.new) }
        ensures stopped { IfErr result (λ e. Stops L.takes L.fails L.faults self.old log.old log.new e) }
    {
        for k in 0..self.frozen.len() {
            self.delete_frozen(log, k as u32)?;
        }
        Ok(())
    }

    // Gives back memory where much of it is that of clauses that were deleted or frozen.
    fn tidy(&mut self) -> Result<(), AllocError>
        requires solver { IsSolver self.old }
        requires rest { IsAtRest self.old }
        ensures solver { OnOk result (IsSolver self.new) }
        ensures moves { OnOk result (Moves self.old self.new) }
    {
        if !self.learnts.is_sparse(&self.core) {
            return Ok(());
        }
        self.collect()
    }

    // Gives back the memory of clauses that were deleted or frozen: the others get new numbers.
    pub(crate) fn collect(&mut self) -> Result<(), AllocError>
        requires solver { IsSolver self.old }
        requires rest { IsAtRest self.old }
        ensures solver { OnOk result (IsSolver self.new) }
        ensures moves { OnOk result (Moves self.old self.new) }
    {
        self.learnts.renumber(self.alloc, &self.core)?;
        self.ids.collect(&self.core)?;
        self.core.collect()?;
        Ok(())
    }

    // Gives back the memory of frozen clauses that were removed, where they are more than half.
    fn tidy_frozen(&mut self) -> Result<(), AllocError>
        requires solver { IsSolver self.old }
        ensures solver { OnOk result (IsSolver self.new) }
        ensures moves { OnOk result (Moves self.old self.new) }
    {
        if is_sparse(&self.frozen) {
            self.ids.collect_frozen(&self.frozen)?;
            self.frozen.collect()?;
        }
        Ok(())
    }

    // At rest: deletes the frozen clauses and the worst learnt ones as far as it is allowed, and freezes what is left of the latter
    // in a long search.
    fn shrink<L: Log>(&mut self, log: &mut L) -> Result<(), Stop>
        requires solver { IsSolver self.old }
        requires rest { IsAtRest self.old }
        ensures reduces { OnOk result (Reduces L.takes L.faults self.old self.new log.old log.new) }
        ensures stopped { IfErr result (λ e. Stops L.takes L.fails L.faults self.old log.old log.new e) }
    {
        let worst = self
            .learnts
            .worst(self.alloc, &self.core, is_long(self.conflicts))?;
        self.delete_all_frozen(log)?;
        self.drop_all(log, &worst)
    }

    // Restarts, and thaws the frozen clauses at which something is left to do. Returns whether nothing is left to do at any then.
    pub(crate) fn come_to_rest(&mut self) -> Result<bool, AllocError>
        requires solver { IsSolver self.old }
        requires conflict { self.old.core.conflict ≡ false }
        ensures solver { OnOk result (IsSolver self.new) }
        ensures moves { OnOk result (Moves self.old self.new) }
        ensures rest { result ≡ Ok true → IsAtRest self.new }
    {
        restart(&mut self.core, &mut self.order)?;
        self.pending = None;
        self.thaw_unsettled()?;
        if self.core.conflict() {
            return Ok(false);
        }
        Ok(are_settled(&self.core, &self.frozen))
    }

    // Deletes and freezes learnt clauses where no frozen one has anything left to do.
    fn reduce<L: Log>(&mut self, log: &mut L) -> Result<(), Stop>
        requires solver { IsSolver self.old }
        requires conflict { self.old.core.conflict ≡ false }
        ensures solver { OnOk result (IsSolver self.new) }
        ensures conflicts { OnOk result (self.new.conflicts ≡ self.old.conflicts) }
        ensures leads { OnOk result (Leads L.takes L.faults self.old self.new log.old log.new) }
        ensures stopped { IfErr result (λ e. Stops L.takes L.fails L.faults self.old log.old log.new e) }
    {
        if !self.come_to_rest()? {
            return Ok(());
        }
        self.note_facts(log)?;
        self.shrink(log)?;
        self.tidy()?;
        self.tidy_frozen()?;
        Ok(())
    }

    // Reduces where it is time to and no clause is falsified.
    pub(crate) fn reduce_if_due<L: Log>(&mut self, log: &mut L) -> Result<(), Stop>
        requires solver { IsSolver self.old }
        ensures solver { OnOk result (IsSolver self.new) }
        ensures conflicts { OnOk result (self.new.conflicts ≡ self.old.conflicts) }
        ensures leads { OnOk result (Leads L.takes L.faults self.old self.new log.old log.new) }
        ensures stopped { IfErr result (λ e. Stops L.takes L.fails L.faults self.old log.old log.new e) }
    {
        if self.pending.is_some() || self.core.conflict() {
            return Ok(());
        }
        if !self.learnts.is_due(self.conflicts) {
            return Ok(());
        }
        self.reduce(log)
    }
}
