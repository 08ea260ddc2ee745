// Bounded variable elimination (Eén and Biere, 2005): at level 0 the resolvents of a variable's clauses are added, and then those
// clauses are frozen.

ghost use Rattle.std.specs.Prelude.{◌≡◌, ◌≢◌, ◌↔◌, ◌+◌, ◌<◌, ◌++◌, ◌∷◌, [], true, false, length, List, Contains, IsTrue, IfOk, IfErr, OnOk, Ok, None};
ghost use Rattle.cnf_form.specs.Cnf.{LitOf, ClauseWithin, IsAdmitted};
ghost use Rattle.unit_propagation.specs.Propagator.{clauses_of, slot_at};
ghost use Rattle.cdcl_core.specs.Analysis.{IsUnmarked};
ghost use Rattle.cdcl_core.specs.Levels.{IsPending};
ghost use Rattle.cdcl_core.specs.Logged.{IsContingent, IsNew, IsProper};
ghost use Rattle.cdcl_core.specs.Present.{all_of};
ghost use Rattle.cdcl_core.specs.Searching.{Ended, Grows, IsAddable, IsAtRest, IsIndexed, IsSolver, Leads, Moves, Stops};

use crate::eliminator::{Proposal, is_passed};
use crate::log::Log;
use crate::solver::Solver;
use crate::stop::Stop;
use cnf_form::{Formula, Lit};
use frozen_clauses::Frozen;
use std::alloc::{AllocError, Global};
use unit_propagation::Propagator;

// No more resolvents are proposed in a round.
const MOST_PROPOSALS: u64 = 20_000_000;

// Whether a literal is in a clause.
fn has(clause: &[Lit], lit: Lit) -> bool
    ensures { IsTrue result ↔ Contains clause.now lit }
{
    for m in clause {
        if *m == lit {
            return true;
        }
    }
    false
}

// Whether a clause has all literals of another one but this.
fn has_all_but(clause: &[Lit], other: &[Lit], but: Lit) -> bool
    ensures { IsTrue result → (m : LitOf) → Contains other.now m → m ≢ but → Contains clause.now m }
{
    for m in other {
        let m = *m;
        if m != but {
            if !has(clause, m) {
                return false;
            }
        }
    }
    true
}

// Whether a clause has a literal, and none together with its negation.
fn is_contingent(clause: &[Lit]) -> bool
    ensures full { IsTrue result → 0 < length clause.now }
    ensures contingent { IsTrue result → IsContingent clause.now }
{
    if clause.len() == 0 {
        return false;
    }
    for m in clause {
        if has(clause, m.negate()) {
            return false;
        }
    }
    true
}

// Whether a clause is over the variables, and has no more literals than there are of them.
fn is_proper(vars: u32, clause: &[Lit]) -> bool
    ensures { IsTrue result → IsProper vars clause.now }
{
    if clause.len() > vars as usize {
        return false;
    }
    for m in clause {
        if m.var() == 0 || m.var() > vars {
            return false;
        }
    }
    true
}

// Whether the watched clause with this number has a literal, and another clause has all others of it.
fn leaves(core: &Propagator, k: u32, on: Lit, clause: &[Lit]) -> bool
    ensures { IsTrue result → (c : List LitOf) × Contains (clauses_of core.now.slots) c × Contains c on
        × ((m : LitOf) → Contains c m → m ≢ on → Contains clause.now m) }
{
    if k as usize >= core.len() {
        return false;
    }
    let Some(other) = core.clause(k) else {
        return false;
    };
    if !has(other, on) {
        return false;
    }
    has_all_but(clause, other, on)
}

// Whether a clause is a resolvent as it is proposed.
fn is_resolvent(core: &Propagator, proposal: Proposal, clause: &[Lit]) -> bool
    ensures { IsTrue result → IsAdmitted (clauses_of core.now.slots) clause.now }
{
    if !leaves(core, proposal.first, proposal.on, clause) {
        return false;
    }
    leaves(core, proposal.second, proposal.on.negate(), clause)
}

// Whether a clause is a resolvent as it is proposed, and may be added if it is new.
fn is_sound(core: &Propagator, proposal: Proposal, clause: &[Lit]) -> bool
    ensures full { IsTrue result → 0 < length clause.now }
    ensures contingent { IsTrue result → IsContingent clause.now }
    ensures proper { IsTrue result → IsProper core.now.vars clause.now }
    ensures admitted { IsTrue result → IsAdmitted (clauses_of core.now.slots) clause.now }
{
    if !is_contingent(clause) {
        return false;
    }
    if !is_proper(core.vars(), clause) {
        return false;
    }
    is_resolvent(core, proposal, clause)
}

// Adds a watched clause to an index, unless it was removed.
fn index_next(core: &Propagator, index: &mut Frozen, k: u32) -> Result<(), AllocError>
    requires vars { index.old.vars ≡ core.now.vars }
    requires clause { k < length core.now.slots }
    ensures vars { OnOk result (index.new.vars ≡ index.old.vars) }
    ensures slots { OnOk result (clauses_of index.new.slots ≡ clauses_of index.old.slots ++ clauses_of (slot_at core.now.slots k ∷ [])) }
{
    let Some(clause) = core.clause(k) else {
        return Ok(());
    };
    if clause.len() == 0 {
        // Where a clause is empty there is a conflict, and so no elimination.
        return Err(AllocError);
    }
    index.push(clause)
}

// An index of the watched clauses: it finds those that are subsets of another clause.
fn index_clauses(alloc: Global, core: &Propagator) -> Result<Frozen, AllocError>
    ensures { IfOk result (λ z. IsIndexed core.now z) }
{
    let mut index = Frozen::new(alloc, core.vars())?;
    for k in 0..core.len() {
        index_next(core, &mut index, k as u32)?;
    }
    Ok(index)
}

impl Solver {
    // Whether no present clause is a subset of the clause that is to be added.
    fn is_new(&mut self, index: &mut Frozen) -> Result<bool, AllocError>
        requires frozen { self.old.frozen.vars ≡ self.old.core.vars }
        requires indexed { IsIndexed self.old.core index.old }
        requires within { ClauseWithin self.old.core.vars self.old.analysis.clause.items }
        ensures core { self.new.core ≡ self.old.core }
        ensures frozen { self.new.frozen ≡ self.old.frozen }
        ensures pending { self.new.pending ≡ self.old.pending }
        ensures conflicts { self.new.conflicts ≡ self.old.conflicts }
        ensures deletions { self.new.deletions ≡ self.old.deletions }
        ensures analysis { self.new.analysis ≡ self.old.analysis }
        ensures ids { self.new.ids ≡ self.old.ids }
        ensures index { index.new ≡ index.old }
        ensures new { result ≡ Ok true → IsNew (all_of self.old.core self.old.frozen) self.old.analysis.clause.items }
    {
        let clause = self.analysis.clause();
        if let Some(k) = index.subset_of(clause) {
            self.eliminator.cover(&self.core, &mut self.learnts, k)?;
            return Ok(false);
        }
        if let Some(_) = self.frozen.subset_of(clause) {
            self.eliminator.fail();
            return Ok(false);
        }
        Ok(true)
    }

    // Takes the resolvent that is proposed for the clause that is to be added. Returns whether it may be: it is in the index then.
    fn take_resolvent(&mut self, index: &mut Frozen) -> Result<bool, AllocError>
        requires frozen { self.old.frozen.vars ≡ self.old.core.vars }
        requires unmarked { IsUnmarked self.old.core.vars self.old.analysis.seen.items self.old.analysis.lower.items self.old.analysis.current.items }
        requires indexed { IsIndexed self.old.core index.old }
        ensures core { self.new.core ≡ self.old.core }
        ensures frozen { self.new.frozen ≡ self.old.frozen }
        ensures pending { self.new.pending ≡ self.old.pending }
        ensures conflicts { self.new.conflicts ≡ self.old.conflicts }
        ensures deletions { self.new.deletions ≡ self.old.deletions }
        ensures ids { self.new.ids ≡ self.old.ids }
        ensures unmarked { IsUnmarked self.old.core.vars self.new.analysis.seen.items self.new.analysis.lower.items self.new.analysis.current.items }
        ensures indexed { OnOk result (IsIndexed self.old.core index.new) }
        ensures added { result ≡ Ok true → Contains (clauses_of index.new.slots) self.new.analysis.clause.items }
        ensures addable { result ≡ Ok true → IsAddable self.old.core self.old.frozen self.new.analysis.clause.items }
    {
        let proposal = self.eliminator.proposal();
        let resolvent = self.eliminator.resolvent();
        self.analysis
            .take(resolvent, proposal.first, proposal.second)?;
        self.minimizer.clear();
        if !is_sound(&self.core, proposal, self.analysis.clause()) {
            self.eliminator.fail();
            return Ok(false);
        }
        if !self.is_new(index)? {
            return Ok(false);
        }
        let clause = self.analysis.clause();
        index.push(clause)?;
        self.eliminator.record(self.core.len(), clause)?;
        Ok(true)
    }

    // Whether a clause can be added at level 0, and the budget isn't spent then.
    fn can_add(&self, budget: u64) -> bool
        requires solver { IsSolver self.now }
        requires in_time { self.now.conflicts < budget }
        ensures level { IsTrue result → self.now.core.limits ≡ [] }
        ensures pending { IsTrue result → IsPending self.now.core None }
        ensures room { IsTrue result → self.now.conflicts + 1 < budget }
    {
        if budget - self.conflicts < 2 {
            return false;
        }
        match self.pending {
            Some(_) => false,
            None => self.core.levels() == 0,
        }
    }

    // Adds the resolvent that is proposed, if it may be added and the budget isn't spent then.
    fn add_resolvent<L: Log>(
        &mut self,
        index: &mut Frozen,
        budget: u64,
        log: &mut L,
    ) -> Result<(), Stop>
        requires solver { IsSolver self.old }
        requires indexed { IsIndexed self.old.core index.old }
        requires in_time { self.old.conflicts < budget }
        ensures solver { OnOk result (IsSolver self.new) }
        ensures indexed { OnOk result (IsIndexed self.new.core index.new) }
        ensures grows { OnOk result (Grows L.takes L.faults budget self.old self.new log.old log.new) }
        ensures stopped { IfErr result (λ e. Stops L.takes L.fails L.faults self.old log.old log.new e) }
    {
        if !self.can_add(budget) {
            self.eliminator.stop();
            return Ok(());
        }
        if !self.take_resolvent(index)? {
            return Ok(());
        }
        self.add(log, None)?;
        Ok(())
    }

    // Adds the resolvents of one variable after another.
    fn add_resolvents<L: Log>(&mut self, budget: u64, log: &mut L) -> Result<(), Stop>
        requires solver { IsSolver self.old }
        requires in_time { self.old.conflicts < budget }
        ensures solver { OnOk result (IsSolver self.new) }
        ensures grows { OnOk result (Grows L.takes L.faults budget self.old self.new log.old log.new) }
        ensures stopped { IfErr result (λ e. Ended L.takes L.fails L.faults budget self.old log.old log.new e) }
    {
        let mut index = index_clauses(self.alloc, &self.core)?;
        for _ in 0..MOST_PROPOSALS {
            if !self.eliminator.next(&self.core)? {
                break;
            }
            self.add_resolvent(&mut index, budget, log)?;
        }
        Ok(())
    }

    // Freezes a watched clause that has a variable which is passed over.
    fn shelve_next(&mut self, k: u32) -> Result<(), AllocError>
        requires solver { IsSolver self.old }
        requires rest { IsAtRest self.old }
        ensures solver { OnOk result (IsSolver self.new) }
        ensures rest { OnOk result (IsAtRest self.new) }
        ensures moves { OnOk result (Moves self.old self.new) }
    {
        if k as usize >= self.core.len() {
            return Ok(());
        }
        let Some(clause) = self.core.clause(k) else {
            return Ok(());
        };
        if !is_passed(&self.order, clause) {
            return Ok(());
        }
        self.freeze(k)
    }

    // Freezes the watched clauses that have a variable which is passed over.
    fn shelve_all(&mut self) -> Result<(), AllocError>
        requires solver { IsSolver self.old }
        requires rest { IsAtRest self.old }
        ensures solver { OnOk result (IsSolver self.new) }
        ensures rest { OnOk result (IsAtRest self.new) }
        ensures moves { OnOk result (Moves self.old self.new) }
    {
        for k in 0..self.core.len() {
            self.shelve_next(k as u32)?;
        }
        Ok(())
    }

    // Passes over the variables whose resolvents were added, and freezes their clauses.
    fn shelve(&mut self) -> Result<(), AllocError>
        requires solver { IsSolver self.old }
        requires rest { IsAtRest self.old }
        ensures solver { OnOk result (IsSolver self.new) }
        ensures moves { OnOk result (Moves self.old self.new) }
    {
        self.eliminator.end(&mut self.order)?;
        self.shelve_all()?;
        self.collect()
    }

    // Shelves where nothing is left to do at any clause.
    fn come_to_rest_and_shelve<L: Log>(&mut self, log: &mut L) -> Result<(), Stop>
        requires solver { IsSolver self.old }
        ensures solver { OnOk result (IsSolver self.new) }
        ensures conflicts { OnOk result (self.new.conflicts ≡ self.old.conflicts) }
        ensures leads { OnOk result (Leads L.takes L.faults self.old self.new log.old log.new) }
        ensures stopped { IfErr result (λ e. Stops L.takes L.fails L.faults self.old log.old log.new e) }
    {
        if self.core.conflict() {
            return Ok(());
        }
        if !self.come_to_rest()? {
            return Ok(());
        }
        self.note_facts(log)?;
        self.shelve()?;
        Ok(())
    }

    // Eliminates variables.
    fn eliminate<L: Log>(&mut self, formula: &Formula, budget: u64, log: &mut L) -> Result<(), Stop>
        requires solver { IsSolver self.old }
        requires conflict { self.old.core.conflict ≡ false }
        requires in_time { self.old.conflicts < budget }
        ensures solver { OnOk result (IsSolver self.new) }
        ensures grows { OnOk result (Grows L.takes L.faults budget self.old self.new log.old log.new) }
        ensures stopped { IfErr result (λ e. Ended L.takes L.fails L.faults budget self.old log.old log.new e) }
    {
        if !self.come_to_rest()? {
            return Ok(());
        }
        self.eliminator
            .begin(&self.core, &self.learnts, &self.order, formula, budget)?;
        self.add_resolvents(budget, log)?;
        self.come_to_rest_and_shelve(log)?;
        Ok(())
    }

    // Eliminates variables where it is time to and no clause is falsified.
    pub(crate) fn eliminate_if_due<L: Log>(
        &mut self,
        formula: &Formula,
        budget: u64,
        log: &mut L,
    ) -> Result<(), Stop>
        requires solver { IsSolver self.old }
        requires in_time { self.old.conflicts < budget }
        ensures solver { OnOk result (IsSolver self.new) }
        ensures grows { OnOk result (Grows L.takes L.faults budget self.old self.new log.old log.new) }
        ensures stopped { IfErr result (λ e. Ended L.takes L.fails L.faults budget self.old log.old log.new e) }
    {
        if self.pending.is_some() || self.core.conflict() {
            return Ok(());
        }
        if !self.eliminator.is_due(self.conflicts) {
            return Ok(());
        }
        self.eliminate(formula, budget, log)
    }
}
