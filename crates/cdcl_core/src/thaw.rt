// Frozen clauses are thawed at level 0: they are watched again.

ghost use Rattle.std.specs.Prelude.{◌≡◌, ◌<◌, ◌≤◌, ◌∷◌, [], IsTrue, List, length, OnOk, Some, None};
ghost use Rattle.cnf_form.specs.Cnf.{LitOf, ClauseWithin};
ghost use Rattle.unit_propagation.specs.Propagation.{IsSettled, IsFixpoint};
ghost use Rattle.unit_propagation.specs.Propagator.{clauses_of, slot_at};
ghost use Rattle.cdcl_core.specs.Searching.{IsSolver, Moves};

use crate::eliminator::is_passed;
use crate::load::add_at_root;
use crate::solver::Solver;
use cnf_form::Lit;
use frozen_clauses::Frozen;
use std::alloc::AllocError;
use unit_propagation::Propagator;

// Whether unit propagation has nothing to do at a clause: it has a true literal, or two unassigned ones.
fn is_settled(core: &Propagator, clause: &[Lit]) -> bool
    requires within { ClauseWithin core.now.vars clause.now }
    ensures { IsTrue result → IsSettled core.now.trail clause.now }
{
    let _consistent = core.conflict();
    let mut open: Option<Lit> = None;
    for l in clause {
        let l = *l;
        if core.is_true(l) {
            return true;
        }
        if !core.is_true(l.negate()) {
            match open {
                None => {
                    open = Some(l);
                }
                Some(other) => {
                    if other != l {
                        return true;
                    }
                }
            }
        }
    }
    false
}

// Whether a frozen clause was removed, or nothing is left to do at it.
fn is_settled_at(core: &Propagator, frozen: &Frozen, k: u32) -> bool
    requires vars { frozen.now.vars ≡ core.now.vars }
    requires clause { k < length frozen.now.slots }
    ensures { IsTrue result → IsFixpoint core.now.trail (clauses_of (slot_at frozen.now.slots k ∷ [])) }
{
    match frozen.clause(k) {
        Some(clause) => is_settled(core, clause),
        None => true,
    }
}

// Whether nothing is left to do at the frozen clauses.
pub(crate) fn are_settled(core: &Propagator, frozen: &Frozen) -> bool
    requires vars { frozen.now.vars ≡ core.now.vars }
    ensures { IsTrue result → IsFixpoint core.now.trail (clauses_of frozen.now.slots) }
{
    for k in 0..frozen.len() {
        if !is_settled_at(core, frozen, k as u32) {
            return false;
        }
    }
    true
}

impl Solver {
    // Thaws a frozen clause.
    pub(crate) fn thaw(&mut self, k: u32) -> Result<(), AllocError>
        requires solver { IsSolver self.old }
        requires clause { k < length self.old.frozen.slots }
        requires level { self.old.core.limits ≡ [] }
        requires none { self.old.pending ≡ None }
        ensures solver { OnOk result (IsSolver self.new) }
        ensures count { length self.new.frozen.slots ≡ length self.old.frozen.slots }
        ensures level { OnOk result (self.new.core.limits ≡ []) }
        ensures none { self.new.pending ≡ None }
        ensures moves { OnOk result (Moves self.old self.new) }
        ensures few { OnOk result (length (clauses_of self.new.frozen.slots) ≤ length (clauses_of self.old.frozen.slots)) }
        ensures fewer { OnOk result ((c : List LitOf) → slot_at self.old.frozen.slots k ≡ Some c
            → length (clauses_of self.new.frozen.slots) < length (clauses_of self.old.frozen.slots)) }
    {
        let Some(clause) = self.frozen.clause(k) else {
            return Ok(());
        };
        add_at_root(&mut self.core, clause)?;
        let kept = is_passed(&self.order, clause);
        self.learnts.push_thawed(clause.len(), kept)?;
        self.ids.thaw(k)?;
        self.frozen.remove_clause(k);
        Ok(())
    }

    // Thaws a frozen clause, unless nothing is left to do at it.
    fn thaw_unsettled_at(&mut self, k: u32) -> Result<(), AllocError>
        requires solver { IsSolver self.old }
        requires clause { k < length self.old.frozen.slots }
        requires level { self.old.core.limits ≡ [] }
        requires none { self.old.pending ≡ None }
        ensures solver { OnOk result (IsSolver self.new) }
        ensures count { length self.new.frozen.slots ≡ length self.old.frozen.slots }
        ensures level { OnOk result (self.new.core.limits ≡ []) }
        ensures none { self.new.pending ≡ None }
        ensures moves { OnOk result (Moves self.old self.new) }
        ensures few { OnOk result (length (clauses_of self.new.frozen.slots) ≤ length (clauses_of self.old.frozen.slots)) }
    {
        if is_settled_at(&self.core, &self.frozen, k) {
            return Ok(());
        }
        self.thaw(k)
    }

    // Thaws the frozen clauses at which something is left to do.
    pub(crate) fn thaw_unsettled(&mut self) -> Result<(), AllocError>
        requires solver { IsSolver self.old }
        requires level { self.old.core.limits ≡ [] }
        requires none { self.old.pending ≡ None }
        ensures solver { OnOk result (IsSolver self.new) }
        ensures level { OnOk result (self.new.core.limits ≡ []) }
        ensures none { self.new.pending ≡ None }
        ensures moves { OnOk result (Moves self.old self.new) }
        ensures few { OnOk result (length (clauses_of self.new.frozen.slots) ≤ length (clauses_of self.old.frozen.slots)) }
    {
        for k in 0..self.frozen.len() {
            self.thaw_unsettled_at(k as u32)?;
        }
        Ok(())
    }
}
