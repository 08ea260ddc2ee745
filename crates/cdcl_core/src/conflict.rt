// What a search learns from a falsified clause.

ghost use Rattle.std.specs.Prelude.{◌≡◌, ◌+◌, ◌*◌, ◌-◌, ◌^◌, ◌<◌, ◌≤◌, ◌++◌, ◌∷◌, [], ℕ, List, length, Contains, IsTrue, IfOk, IfErr, IfSome, OnOk, Some};
ghost use Rattle.cnf_form.specs.Cnf.{FormulaOf, LitOf};
ghost use Rattle.unit_propagation.specs.Propagator.{clauses_of, slot_at};
ghost use Rattle.cdcl_core.specs.Levels.{IsJustified, IsPending, base_of, end_of};
ghost use Rattle.cdcl_core.specs.Logged.{IsContingent, IsNew};
ghost use Rattle.cdcl_core.specs.Analysis.{IsUnmarked, AreMarksListed, Supports, IsLearnt};
ghost use Rattle.hint_chain.specs.Chains.{Hints};
ghost use Rattle.cdcl_core.specs.Lines.{Adds, HeldOf, held_after};
ghost use Rattle.cdcl_core.specs.Searching.{IsAddable, IsNamedBy, IsPlaced, IsRight, IsSolver, Leads, Moves, StepFits, Stops};

use crate::analysis::Analysis;
use crate::learn::{add_at, backtrack_to_root, negate_trail};
use crate::learnts::{KEPT, Learnts};
use crate::log::Log;
use crate::minimizer::Minimizer;
use crate::restarts::Restarts;
use crate::solver::{Solver, Step};
use crate::stop::Stop;
use crate::vivifier::Vivifier;
use cnf_form::Lit;
use decision_order::Order;
use std::alloc::AllocError;
use unit_propagation::Propagator;

// The variables that a conflict rested on come earlier from now on, unless it came of a lucky guess.
fn bump_all(analysis: &Analysis, order: &mut Order) -> Result<(), AllocError> {
    if order.lucky.is_left() {
        return Ok(());
    }
    for l in analysis.current() {
        order.bump(l.var())?;
    }
    for l in analysis.lower() {
        order.bump(l.var())?;
    }
    order.decay();
    order.goals.count();
    Ok(())
}

// Builds the clause of the first unique implication point, where there is one, without the literals that follow from its others.
// Returns its first literal.
fn minimize(
    core: &Propagator,
    analysis: &mut Analysis,
    minimizer: &mut Minimizer,
    restarts: &mut Restarts,
    point: Option<Lit>,
    root: usize,
    base: usize,
) -> Result<Option<Lit>, AllocError>
    requires sized { length analysis.old.seen.items ≡ 2 * core.now.vars + 2 }
    requires listed { AreMarksListed core.now.trail base analysis.old.seen.items analysis.old.lower.items analysis.old.current.items }
    requires justified { IsJustified core.now }
    requires root { root ≡ end_of core.now 0 }
    requires supports { IfSome point (λ l. Supports (clauses_of core.now.slots) core.now.trail root analysis.old.seen.items) }
    requires on { IfSome point (λ l. Contains core.now.trail l) }
    ensures sized { length analysis.new.seen.items ≡ 2 * core.now.vars + 2 }
    ensures listed { AreMarksListed core.now.trail base analysis.new.seen.items analysis.new.lower.items analysis.new.current.items }
    ensures learnt { IfOk result (λ o. IfSome o (λ first. IsLearnt core.now base analysis.new.clause.items first)) }
{
    let Some(l) = point else {
        return Ok(None);
    };
    minimizer.run(core, restarts, analysis, root)?;
    analysis.finish(core, l, minimizer.implied(), root, base)
}

// Counts a conflict, unless it is that of a probe: then the clause that is learnt replaces another. Returns its glue; a resolvent of an
// elimination is always kept.
fn glue_of_added(
    core: &Propagator,
    clause: &[Lit],
    is_learnt: bool,
    restarts: &mut Restarts,
    learnts: &mut Learnts,
    vivifier: &mut Vivifier,
) -> u32 {
    if !is_learnt {
        return KEPT;
    }
    if vivifier.is_probing() {
        return vivifier.replace(learnts, clause.len());
    }
    restarts.count(core, clause)
}

impl Solver {
    // Builds the clause that is learnt from a falsified one. Returns its first literal.
    fn analyze_conflict(&mut self, k: u32) -> Result<Lit, AllocError>
        requires unmarked { IsUnmarked self.old.core.vars self.old.analysis.seen.items self.old.analysis.lower.items self.old.analysis.current.items }
        requires justified { IsJustified self.old.core }
        requires levels { 0 < length self.old.core.limits }
        requires conflict { IsPending self.old.core (Some k) }
        ensures core { self.new.core ≡ self.old.core }
        ensures frozen { self.new.frozen ≡ self.old.frozen }
        ensures pending { self.new.pending ≡ self.old.pending }
        ensures conflicts { self.new.conflicts ≡ self.old.conflicts }
        ensures deletions { self.new.deletions ≡ self.old.deletions }
        ensures ids { self.new.ids ≡ self.old.ids }
        ensures unmarked { OnOk result (IsUnmarked self.old.core.vars self.new.analysis.seen.items self.new.analysis.lower.items self.new.analysis.current.items) }
        ensures learnt { IfOk result (λ first. IsLearnt self.old.core (base_of self.old.core) self.new.analysis.clause.items first) }
    {
        let core = &self.core;
        let base = core.limit(core.levels() - 1);
        let root = core.limit(0);
        let point = if self.vivifier.is_probing() {
            self.vivifier.spend(core);
            self.analysis.last_decision(core, k, root, base)?
        } else {
            self.order.set_stable(self.restarts.is_stable());
            self.order.save_target(&core.trail()[..base]);
            self.vivifier.grant(core.trail().len() - base);
            let point = self.analysis.first_uip(core, k, root, base)?;
            bump_all(&self.analysis, &mut self.order)?;
            point
        };
        let learnt = minimize(
            core,
            &mut self.analysis,
            &mut self.minimizer,
            &mut self.restarts,
            point,
            root,
            base,
        )?;
        self.analysis.reset();
        match learnt {
            Some(first) => Ok(first),
            None => negate_trail(core, k, base, &mut self.analysis.clause),
        }
    }

    // Returns the first literal of the clause that is learnt. No watched clause is a subset of it, though a frozen one may be.
    fn analyze(&mut self, k: u32) -> Result<Lit, AllocError>
        requires unmarked { IsUnmarked self.old.core.vars self.old.analysis.seen.items self.old.analysis.lower.items self.old.analysis.current.items }
        requires justified { IsJustified self.old.core }
        requires levels { 0 < length self.old.core.limits }
        requires conflict { IsPending self.old.core (Some k) }
        ensures core { self.new.core ≡ self.old.core }
        ensures frozen { self.new.frozen ≡ self.old.frozen }
        ensures pending { self.new.pending ≡ self.old.pending }
        ensures conflicts { self.new.conflicts ≡ self.old.conflicts }
        ensures deletions { self.new.deletions ≡ self.old.deletions }
        ensures ids { self.new.ids ≡ self.old.ids }
        ensures unmarked { OnOk result (IsUnmarked self.old.core.vars self.new.analysis.seen.items self.new.analysis.lower.items self.new.analysis.current.items) }
        ensures learnt { IfOk result (λ first. IsLearnt self.old.core (base_of self.old.core) self.new.analysis.clause.items first) }
        ensures new { OnOk result (IsNew (clauses_of self.old.core.slots) self.new.analysis.clause.items) }
        ensures contingent { OnOk result (IsContingent self.new.analysis.clause.items) }
    {
        self.core.levels_are_complete();
        let first = self.analyze_conflict(k)?;
        Ok(first)
    }

    // Adds a clause, at level 0 or where it makes this literal true.
    fn add_learnt(&mut self, first: Option<Lit>, glue: u32, id: u64) -> Result<(), AllocError>
        requires frozen { self.old.frozen.vars ≡ self.old.core.vars }
        requires unmarked { IsUnmarked self.old.core.vars self.old.analysis.seen.items self.old.analysis.lower.items self.old.analysis.current.items }
        requires justified { IsJustified self.old.core }
        requires placed { IsPlaced self.old.core self.old.analysis.clause.items first }
        requires room { self.old.conflicts < 2 ^ 64 - 1 }
        ensures solver { OnOk result (IsSolver self.new) }
        ensures vars { OnOk result (self.new.core.vars ≡ self.old.core.vars) }
        ensures slots { OnOk result (self.new.core.slots ≡ self.old.core.slots ++ Some self.old.analysis.clause.items ∷ []) }
        ensures frozen { OnOk result (self.new.frozen ≡ self.old.frozen) }
        ensures conflicts { OnOk result (self.new.conflicts ≡ self.old.conflicts + 1) }
        ensures deletions { OnOk result (self.new.deletions ≡ self.old.deletions) }
        ensures wanted { OnOk result (self.new.ids.wanted ≡ self.old.ids.wanted) }
        ensures named { OnOk result ((h : HeldOf) (hints : List ℕ) → (IsTrue self.old.ids.wanted → self.old.ids.last < id) → IsNamedBy h self.old
            → IsNamedBy (held_after h (Adds self.old.analysis.clause.items id hints)) self.new) }
    {
        let clause = self.analysis.clause();
        self.pending = add_at(&mut self.core, &mut self.order, clause, first)?;
        self.learnts.push(glue, clause.len())?;
        self.ids.push(id)?;
        self.conflicts += 1;
        Ok(())
    }

    // Finds the hints of a clause that is to be added, where they are wanted.
    fn find_hints(&mut self) -> Result<(), AllocError>
        requires addable { IsAddable self.old.core self.old.frozen self.old.analysis.clause.items }
        ensures core { self.new.core ≡ self.old.core }
        ensures frozen { self.new.frozen ≡ self.old.frozen }
        ensures pending { self.new.pending ≡ self.old.pending }
        ensures conflicts { self.new.conflicts ≡ self.old.conflicts }
        ensures deletions { self.new.deletions ≡ self.old.deletions }
        ensures analysis { self.new.analysis ≡ self.old.analysis }
        ensures ids { self.new.ids ≡ self.old.ids }
        ensures hints { OnOk result (IsTrue self.old.ids.wanted → Hints self.old.core.slots self.old.ids self.old.analysis.clause.items self.new.chain) }
    {
        if !self.ids.are_wanted() {
            return Ok(());
        }
        self.chain.find(
            &self.core,
            &self.ids,
            self.analysis.clause(),
            self.minimizer.implied(),
            self.analysis.used(),
        )
    }

    // Logs the clause that was learnt or is a resolvent, and adds it, at level 0 or where it makes this literal true.
    pub(crate) fn add<L: Log>(&mut self, log: &mut L, first: Option<Lit>) -> Result<(), Stop>
        requires frozen { self.old.frozen.vars ≡ self.old.core.vars }
        requires unmarked { IsUnmarked self.old.core.vars self.old.analysis.seen.items self.old.analysis.lower.items self.old.analysis.current.items }
        requires justified { IsJustified self.old.core }
        requires placed { IsPlaced self.old.core self.old.analysis.clause.items first }
        requires addable { IsAddable self.old.core self.old.frozen self.old.analysis.clause.items }
        requires room { self.old.conflicts < 2 ^ 64 - 1 }
        ensures solver { OnOk result (IsSolver self.new) }
        ensures vars { OnOk result (self.new.core.vars ≡ self.old.core.vars) }
        ensures slots { OnOk result (self.new.core.slots ≡ self.old.core.slots ++ Some self.old.analysis.clause.items ∷ []) }
        ensures conflicts { OnOk result (self.new.conflicts ≡ self.old.conflicts + 1) }
        ensures leads { OnOk result (Leads L.takes L.faults self.old self.new log.old log.new) }
        ensures stopped { IfErr result (λ e. Stops L.takes L.fails L.faults self.old log.old log.new e) }
    {
        self.find_hints()?;
        let id = self.ids.next()?;
        let clause = self.analysis.clause();
        let glue = glue_of_added(
            &self.core,
            clause,
            first.is_some(),
            &mut self.restarts,
            &mut self.learnts,
            &mut self.vivifier,
        );
        if log.clause(clause, id, self.chain.hints()).is_err() {
            return Err(Stop::Failed);
        }
        self.add_learnt(first, glue, id)?;
        Ok(())
    }

    // Backtracks to level 0, and thaws a frozen clause.
    fn back_and_thaw(&mut self, k: u32) -> Result<(), AllocError>
        requires solver { IsSolver self.old }
        requires levels { 0 < length self.old.core.limits }
        requires clause { k < length self.old.frozen.slots }
        ensures solver { OnOk result (IsSolver self.new) }
        ensures moves { OnOk result (Moves self.old self.new) }
        ensures fewer { OnOk result ((c : List LitOf) → slot_at self.old.frozen.slots k ≡ Some c
            → length (clauses_of self.new.frozen.slots) < length (clauses_of self.old.frozen.slots)) }
    {
        backtrack_to_root(&mut self.core, &mut self.order)?;
        self.pending = None;
        self.thaw(k)
    }

    // Learns from a falsified clause, unless a frozen clause is a subset of what would be learnt: that one is thawed then.
    fn learn_from<L: Log>(&mut self, log: &mut L, k: u32) -> Result<Step, Stop>
        requires solver { IsSolver self.old }
        requires levels { 0 < length self.old.core.limits }
        requires conflict { IsPending self.old.core (Some k) }
        requires room { self.old.conflicts < 2 ^ 64 - 1 }
        ensures solver { OnOk result (IsSolver self.new) }
        ensures fits { IfOk result (λ s. StepFits L.takes L.fails L.faults self.old self.new log.old log.new s) }
        ensures right { IfOk result (λ s. (f : FormulaOf) → IsRight f s) }
        ensures stopped { IfErr result (λ e. Stops L.takes L.fails L.faults self.old log.old log.new e) }
    {
        let first = self.analyze(k)?;
        let used = self.analysis.used();
        self.learnts.use_all(&self.core, &mut self.restarts, used);
        let clause = self.analysis.clause();
        if let Some(frozen) = self.frozen.subset_of(clause) {
            self.back_and_thaw(frozen)?;
            return Ok(Step::Thawed);
        }
        self.add(log, Some(first))?;
        Ok(Step::Learnt)
    }

    // Notes the literals of level 0, and then learns from a falsified clause.
    pub(crate) fn learn<L: Log>(&mut self, log: &mut L, k: u32) -> Result<Step, Stop>
        requires solver { IsSolver self.old }
        requires levels { 0 < length self.old.core.limits }
        requires conflict { IsPending self.old.core (Some k) }
        requires room { self.old.conflicts < 2 ^ 64 - 1 }
        ensures solver { OnOk result (IsSolver self.new) }
        ensures fits { IfOk result (λ s. StepFits L.takes L.fails L.faults self.old self.new log.old log.new s) }
        ensures right { IfOk result (λ s. (f : FormulaOf) → IsRight f s) }
        ensures stopped { IfErr result (λ e. Stops L.takes L.fails L.faults self.old log.old log.new e) }
    {
        self.note_facts(log)?;
        self.learn_from(log, k)
    }
}
