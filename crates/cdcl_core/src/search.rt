// Decisions, until a clause is falsified or all variables have values.

ghost use Rattle.std.specs.Prelude.{◌≡◌, ◌*◌, ◌+◌, ◌<◌, ◌≤◌, [], false, length, IfOk, IfSome, IfNone, OnOk};
ghost use Rattle.cnf_form.specs.Cnf.{LitWithin};
ghost use Rattle.unit_propagation.specs.Propagation.{IsUnassigned};
ghost use Rattle.unit_propagation.specs.Propagator.{EndsDecided, clauses_of};
ghost use Rattle.cdcl_core.specs.Levels.{IsJustified, FoundFits};
ghost use Rattle.cdcl_core.specs.declared.search.Found.TheVariants.{Assigned, Falsified};
ghost use Rattle.cdcl_core.specs.Searching.{IsSolver, Moves};

use crate::choose::choose;
use crate::learn::restart;
use crate::solver::Solver;
use crate::vivify::probe_learnts;
use cnf_form::{Formula, Lit};
use decision_order::{Order, rephase_by_local_search};
use std::alloc::AllocError;
use unit_propagation::Propagator;

// Between one look at all frozen clauses and the next there is one conflict for this many of them.
const FROZEN_A_CONFLICT: usize = 1000;

// What is found: values for all variables, a falsified clause at level 0, or one above.
pub(crate) enum Found {
    Assigned,
    Refuted,
    Falsified(u32),
}

// Decides a literal. Returns the falsified clause, if there is one.
pub(crate) fn decide(core: &mut Propagator, l: Lit) -> Result<Option<u32>, AllocError>
    requires justified { IsJustified core.old }
    requires conflict { core.old.conflict ≡ false }
    requires lit { LitWithin core.old.vars l }
    requires opened { IsUnassigned core.old.trail l }
    ensures vars { core.new.vars ≡ core.old.vars }
    ensures slots { core.new.slots ≡ core.old.slots }
    ensures justified { OnOk result (IsJustified core.new) }
    ensures levels { OnOk result (0 < length core.new.limits) }
    ensures grown { OnOk result (length core.old.trail < length core.new.trail) }
    ensures ends { IfOk result (λ o. EndsDecided core.new o) }
{
    core.levels_are_complete();
    core.clauses_are_within();
    let falsified = core.decide(l)?;
    Ok(falsified)
}

// Decides one literal after another, until a clause is falsified or all variables have values. Returns that clause.
fn decide_on(
    core: &mut Propagator,
    order: &mut Order,
    formula: &Formula,
) -> Result<Option<u32>, AllocError>
    requires justified { IsJustified core.old }
    requires conflict { core.old.conflict ≡ false }
    ensures vars { core.new.vars ≡ core.old.vars }
    ensures slots { core.new.slots ≡ core.old.slots }
    ensures justified { OnOk result (IsJustified core.new) }
    ensures falsified { IfOk result (λ o. IfSome o (λ k. FoundFits core.new (Falsified k))) }
    ensures assigned { IfOk result (λ o. IfNone o (FoundFits core.new Assigned)) }
{
    while let Some(l) = choose(core, order, formula) {
        if let Some(k) = decide(core, l)? {
            return Ok(Some(k));
        }
    }
    Ok(None)
}

impl Solver {
    // Whether the search is to begin again at level 0: also after a lucky guess or a probe, and where local search is to begin.
    fn is_restart_due(&mut self) -> bool
        ensures core { self.new.core ≡ self.old.core }
        ensures frozen { self.new.frozen ≡ self.old.frozen }
        ensures pending { self.new.pending ≡ self.old.pending }
        ensures conflicts { self.new.conflicts ≡ self.old.conflicts }
        ensures deletions { self.new.deletions ≡ self.old.deletions }
        ensures analysis { self.new.analysis ≡ self.old.analysis }
        ensures ids { self.new.ids ≡ self.old.ids }
    {
        let guesses = self.order.lucky.is_left();
        if guesses {
            self.restarts.begin();
        }
        self.vivifier.is_probing()
            || self.restarts.is_due()
            || guesses
            || self.order.wants_first_local_search()
    }

    // Thaws the frozen clauses at which something is left to do, where level 0 has grown, and for long enough where they are many.
    fn settle_if_grown(&mut self) -> Result<(), AllocError>
        requires solver { IsSolver self.old }
        requires level { self.old.core.limits ≡ [] }
        requires conflict { self.old.core.conflict ≡ false }
        ensures solver { OnOk result (IsSolver self.new) }
        ensures moves { OnOk result (Moves self.old self.new) }
        ensures few { OnOk result (length (clauses_of self.new.frozen.slots) ≤ length (clauses_of self.old.frozen.slots)) }
    {
        let fixed = self.core.trail().len();
        if fixed <= self.fixed || self.conflicts < self.settle_due {
            return Ok(());
        }
        self.fixed = fixed;
        let wait = (self.frozen.len() / FROZEN_A_CONFLICT) as u64;
        self.settle_due = self.conflicts.saturating_add(wait);
        self.pending = None;
        self.thaw_unsettled()
    }

    // Restarts where it is time to, unless a clause is falsified.
    pub(crate) fn restart_if_due(&mut self) -> Result<(), AllocError>
        requires solver { IsSolver self.old }
        ensures solver { OnOk result (IsSolver self.new) }
        ensures moves { OnOk result (Moves self.old self.new) }
        ensures few { OnOk result (length (clauses_of self.new.frozen.slots) ≤ length (clauses_of self.old.frozen.slots)) }
    {
        if self.pending.is_some() || self.core.conflict() || !self.is_restart_due() {
            return Ok(());
        }
        restart(&mut self.core, &mut self.order)?;
        self.order.lucky.advance();
        rephase_by_local_search(
            self.alloc,
            &self.core,
            self.learnts.first(),
            &mut self.order,
        )?;
        self.settle_if_grown()
    }

    // Goes on from where the last clause that was learnt led to, or from level 0.
    pub(crate) fn find(&mut self, formula: &Formula) -> Result<Found, AllocError>
        requires solver { IsSolver self.old }
        ensures solver { OnOk result (IsSolver self.new) }
        ensures moves { OnOk result (Moves self.old self.new) }
        ensures frozen { self.new.frozen ≡ self.old.frozen }
        ensures found { IfOk result (λ f. FoundFits self.new.core f) }
    {
        if let Some(k) = self.pending {
            if self.core.levels() == 0 {
                return Ok(Found::Refuted);
            }
            return Ok(Found::Falsified(k));
        }
        if self.core.conflict() {
            return Ok(Found::Refuted);
        }
        if let Some(k) = probe_learnts(
            &mut self.core,
            &mut self.order,
            &mut self.learnts,
            &mut self.vivifier,
        )? {
            self.pending = Some(k);
            return Ok(Found::Falsified(k));
        }
        match decide_on(&mut self.core, &mut self.order, formula)? {
            Some(k) => {
                self.pending = Some(k);
                Ok(Found::Falsified(k))
            }
            None => Ok(Found::Assigned),
        }
    }
}
